// Instructions.

ghost use Rattle.std.specs.Prelude.{◌≡◌, ◌++◌, OnOk};
ghost use Rattle.std.specs.Fmt.{decimal};
ghost use Rattle.ac_code.specs.ReadCode.{instr_of};
ghost use Rattle.acute_listings.specs.Listing.{instr_shown};

use crate::patterns::{show_pattern, show_truth};
use crate::types::show_type;
use ac_code::Instr;
use ac_text::{put_integer, put_literal, put_number};
use ac_types::{Memory, Text};
use std::alloc::Global;

/// Adds an instruction with its operands.
pub fn put_instr(alloc: Global, text: &mut Text, instr: &Instr) -> Result<(), Memory>
    ensures { OnOk result (text.new.0 ≡ text.old.0 ++ instr_shown (instr_of instr.now)) }
{
    match instr {
        Instr::PushInt(n) => {
            text.extend(b"PushInt ")?;
            put_integer(alloc, text, *n)
        }
        Instr::PushBool(b) => {
            text.extend(b"PushBool ")?;
            show_truth(text, *b)
        }
        Instr::PushStr(s) => {
            text.extend(b"PushStr ")?;
            put_literal(text, s.as_slice())
        }
        Instr::PushUnit => text.extend(b"PushUnit"),
        Instr::PushNil => text.extend(b"PushNil"),
        Instr::PushNone => text.extend(b"PushNone"),
        Instr::MakeExn(kind) => put_numbered(alloc, text, b"MakeExn ", u64::from(kind.number())),
        Instr::MakeSome => text.extend(b"MakeSome"),
        Instr::MakeCons => text.extend(b"MakeCons"),
        Instr::MakeTuple(parts) => put_numbered(alloc, text, b"MakeTuple ", *parts as u64),
        Instr::Var(i) => put_numbered(alloc, text, b"Var ", u64::from(*i)),
        Instr::Own(field) => put_numbered(alloc, text, b"Own ", u64::from(*field)),
        Instr::Ref(entry, field) => {
            put_numbered(alloc, text, b"Ref ", u64::from(*entry))?;
            text.extend(b" ")?;
            text.extend(field.text().as_slice())
        }
        Instr::Closure(id) => put_numbered(alloc, text, b"Closure ", id.0 as u64),
        Instr::RecClosure(id) => put_numbered(alloc, text, b"RecClosure ", id.0 as u64),
        Instr::Constant(id) => put_numbered(alloc, text, b"Constant ", id.0 as u64),
        Instr::RecConstant(id) => put_numbered(alloc, text, b"RecConstant ", id.0 as u64),
        Instr::Apply => text.extend(b"Apply"),
        Instr::Return => text.extend(b"Return"),
        Instr::Bind => text.extend(b"Bind"),
        Instr::Unbind(variables) => put_numbered(alloc, text, b"Unbind ", *variables as u64),
        Instr::Drop => text.extend(b"Drop"),
        Instr::Jump(to) => put_numbered(alloc, text, b"Jump ", *to as u64),
        Instr::JumpIfNot(to) => put_numbered(alloc, text, b"JumpIfNot ", *to as u64),
        Instr::Test(pattern, to) => {
            text.extend(b"Test ")?;
            show_pattern(alloc, text, pattern)?;
            put_numbered(alloc, text, b" ", *to as u64)
        }
        Instr::NoMatch => text.extend(b"NoMatch"),
        Instr::Prim(primitive) => {
            text.extend(b"Prim ")?;
            text.extend(primitive.name())
        }
        Instr::Try(to) => put_numbered(alloc, text, b"Try ", *to as u64),
        Instr::EndTry => text.extend(b"EndTry"),
        Instr::Raise => text.extend(b"Raise"),
        Instr::Marshal(ty) => {
            text.extend(b"Marshal ")?;
            show_type(alloc, text, ty)
        }
        Instr::Unmarshal(ty) => {
            text.extend(b"Unmarshal ")?;
            show_type(alloc, text, ty)
        }
        Instr::Stop => text.extend(b"Stop"),
    }
}

/// Adds a name and a number behind it.
pub fn put_numbered(alloc: Global, text: &mut Text, name: &[u8], number: u64) -> Result<(), Memory>
    ensures { OnOk result (text.new.0 ≡ text.old.0 ++ (name.now ++ decimal number)) }
{
    text.extend(name)?;
    put_number(alloc, text, number)
}
