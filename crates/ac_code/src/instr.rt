// The instructions of the machine.

use ac_terms::Pat;
use ac_types::{ExnKind, Primitive, Text, Ty, Word};

/// The number of a block in its table.
#[derive(Clone, Copy, Debug, PartialEq, Eq)]
pub struct CodeId(pub usize);

/// An instruction. An address is the place of an instruction in its block, from 0.
pub enum Instr {
    PushInt(i64),
    PushBool(bool),
    PushStr(Text),
    PushUnit,
    PushNil,
    PushNone,
    MakeExn(ExnKind),
    MakeSome,
    MakeCons,
    MakeTuple(usize),
    Var(u16),
    Own(u16),
    Ref(u32, Word),
    Closure(CodeId),
    RecClosure(CodeId),
    Constant(CodeId),
    RecConstant(CodeId),
    Apply,
    Return,
    Bind,
    Unbind(usize),
    Drop,
    Jump(usize),
    JumpIfNot(usize),
    Test(Pat, usize),
    NoMatch,
    Prim(Primitive),
    Try(usize),
    EndTry,
    Raise,
    Marshal(Ty),
    Unmarshal(Ty),
    Stop,
}

impl Drop for Instr {
    fn drop(self) {
        match self {
            Instr::PushInt(_)
            | Instr::PushBool(_)
            | Instr::PushStr(_)
            | Instr::PushUnit
            | Instr::PushNil
            | Instr::PushNone
            | Instr::MakeExn(_)
            | Instr::MakeSome
            | Instr::MakeCons
            | Instr::MakeTuple(_)
            | Instr::Var(_)
            | Instr::Own(_)
            | Instr::Ref(_, _)
            | Instr::Closure(_)
            | Instr::RecClosure(_)
            | Instr::Constant(_)
            | Instr::RecConstant(_)
            | Instr::Apply
            | Instr::Return
            | Instr::Bind
            | Instr::Unbind(_)
            | Instr::Drop
            | Instr::Jump(_)
            | Instr::JumpIfNot(_)
            | Instr::Test(_, _)
            | Instr::NoMatch
            | Instr::Prim(_)
            | Instr::Try(_)
            | Instr::EndTry
            | Instr::Raise
            | Instr::Marshal(_)
            | Instr::Unmarshal(_)
            | Instr::Stop => {}
        }
    }
}
