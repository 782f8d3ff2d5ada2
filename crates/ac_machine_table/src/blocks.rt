// Blocks of code from a text: parted by ` | `, and their instructions by `, `.

use crate::defs::word;
use crate::patterns::pattern;
use ac_code::{Block, CodeId, CodeTable, Context, Instr};
use ac_terms::Home;
use ac_types::{ExnKind, Many, Memory, Primitive, Text, Ty};
use std::alloc::Global;

/// A byte that is written as a number, 0 where none is.
pub fn number(text: &str) -> u8 {
    text.parse::<u8>().unwrap_or(0)
}

// An instruction that makes a value.
fn making(name: &str, n: u8) -> Option<Instr> {
    match name {
        "PushInt" => Some(Instr::PushInt(i64::from(n))),
        "PushBool" => Some(Instr::PushBool(n == 1)),
        "PushUnit" => Some(Instr::PushUnit),
        "PushNil" => Some(Instr::PushNil),
        "PushNone" => Some(Instr::PushNone),
        "MakeSome" => Some(Instr::MakeSome),
        "MakeCons" => Some(Instr::MakeCons),
        "MakeTuple" => Some(Instr::MakeTuple(usize::from(n))),
        _ => None,
    }
}

// An instruction that pushes a value that is there, or a closure.
fn loading(name: &str, n: u8) -> Option<Instr> {
    match name {
        "Var" => Some(Instr::Var(u16::from(n))),
        "Own" => Some(Instr::Own(u16::from(n))),
        "Closure" => Some(Instr::Closure(CodeId(usize::from(n)))),
        "RecClosure" => Some(Instr::RecClosure(CodeId(usize::from(n)))),
        "Constant" => Some(Instr::Constant(CodeId(usize::from(n)))),
        "RecConstant" => Some(Instr::RecConstant(CodeId(usize::from(n)))),
        _ => making(name, n),
    }
}

// An instruction that calls, returns, binds or jumps.
fn jumping(name: &str, n: u8) -> Option<Instr> {
    match name {
        "Apply" => Some(Instr::Apply),
        "Return" => Some(Instr::Return),
        "Bind" => Some(Instr::Bind),
        "Unbind" => Some(Instr::Unbind(usize::from(n))),
        "Drop" => Some(Instr::Drop),
        "Jump" => Some(Instr::Jump(usize::from(n))),
        "JumpIfNot" => Some(Instr::JumpIfNot(usize::from(n))),
        _ => loading(name, n),
    }
}

// An instruction with a number, 0 where none is written.
fn numbered(name: &str, n: u8) -> Option<Instr> {
    match name {
        "NoMatch" => Some(Instr::NoMatch),
        "Try" => Some(Instr::Try(usize::from(n))),
        "EndTry" => Some(Instr::EndTry),
        "Raise" => Some(Instr::Raise),
        "Marshal" => Some(Instr::Marshal(Ty::Int)),
        "Unmarshal" => Some(Instr::Unmarshal(Ty::Int)),
        "Stop" => Some(Instr::Stop),
        _ => jumping(name, n),
    }
}

// The field of that name of entry 1.
fn reference(alloc: Global, name: &str) -> Result<Instr, Memory> {
    word(alloc, name.as_bytes()).map(|name| Instr::Ref(1, name))
}

fn test(alloc: Global, operand: &str) -> Result<Instr, Memory> {
    match operand.split_once(' ') {
        None => Err(Memory),
        Some((name, to)) => {
            pattern(alloc, name).map(|pat| Instr::Test(pat, usize::from(number(to))))
        }
    }
}

// The instruction of that name with what is written behind it.
fn with_operand(alloc: Global, name: &str, operand: &str) -> Result<Instr, Memory> {
    match name {
        "PushStr" => Text::from_slice(alloc, operand.as_bytes()).map(Instr::PushStr),
        "Ref" => reference(alloc, operand),
        "Test" => test(alloc, operand),
        "Prim" => Primitive::from_name(operand.as_bytes())
            .map(Instr::Prim)
            .ok_or(Memory),
        "MakeExn" => ExnKind::from_name(operand.as_bytes())
            .map(Instr::MakeExn)
            .ok_or(Memory),
        _ => numbered(name, number(operand)).ok_or(Memory),
    }
}

fn instruction(alloc: Global, text: &str) -> Result<Instr, Memory> {
    match text.split_once(' ') {
        None => numbered(text, 0).ok_or(Memory),
        Some((name, operand)) => with_operand(alloc, name, operand),
    }
}

// The block of entry 0 with the instructions of a text.
fn block(alloc: Global, text: &str) -> Result<Block, Memory> {
    let mut instrs = Many::new(alloc);
    for part in text.split(", ") {
        instrs.push(instruction(alloc, part)?)?;
    }
    Ok(Block {
        home: Home::In(0),
        lambda: None,
        context: Context::Empty,
        instrs,
    })
}

/// Blocks of entry 0, whose fields have blocks 1 and 2.
pub fn table_of(alloc: Global, blocks: &str) -> Result<CodeTable, Memory> {
    let mut table = CodeTable::new(alloc);
    for text in blocks.split(" | ") {
        table.push(block(alloc, text)?)?;
    }
    let ids = [CodeId(1), CodeId(2)];
    table.set_fields(0, Many::from_slice(alloc, ids.as_slice())?)?;
    Ok(table)
}
