// The instruction of a primitive.

ghost use Rattle.std.specs.Prelude.{IfOk};
ghost use Rattle.ac_types.specs.ReadNumbers.{primitive_number};
ghost use Rattle.ac_code.specs.Constants.{meaning, One, Two};
ghost use Rattle.ac_machine_primitives.specs.Meant.{answer_meant, of_binary, of_unary};
ghost use Rattle.ac_machine_engine.specs.States.{state_given};
ghost use Rattle.ac_machine_engine.specs.Machine.{performs, answers};
ghost use Rattle.ac_machine_engine.specs.Held.{core, Sound};
ghost use Rattle.ac_machine_engine.specs.Steps.{Does};

use ac_machine_engine::Pause;
use ac_machine_engine::engine::{Engine, Step};
use ac_machine_primitives::primitive::{
    Binary, Operation, PrimitiveResult, Unary, combined, constant_in, operation_of, turned,
};
use ac_types::{BareExn, Exn, Memory, Primitive, TextExn};
use ac_values::Node;

/// Takes the arguments of a primitive from the stack and pushes its answer, raises or pauses.
pub fn operate(engine: &mut Engine, primitive: Primitive) -> Result<Step, Memory>
    requires sound { Sound engine.old }
    ensures { IfOk result (λ s. Does engine.new s
        (state_given (meaning (primitive_number primitive)) (λ m. performs m
        (core engine.old)))) }
{
    match operation_of(primitive) {
        Operation::One(unary) => turn(engine, unary),
        Operation::Two(operator) => combine(engine, operator),
    }
}

fn combine(engine: &mut Engine, operator: Binary) -> Result<Step, Memory>
    requires sound { Sound engine.old }
    ensures { IfOk result (λ s. Does engine.new s
        (performs (Two (of_binary operator)) (core engine.old))) }
{
    let Some((second, below)) = engine.newest(engine.at.stack) else {
        return Ok(Step::Wrong);
    };
    let Some((first, rest)) = engine.newest(below) else {
        return Ok(Step::Wrong);
    };
    let Some(second) = constant_in(&engine.store, second) else {
        return Ok(Step::Wrong);
    };
    let Some(first) = constant_in(&engine.store, first) else {
        return Ok(Step::Wrong);
    };
    let answer = combined(engine.alloc, operator, &first, &second)?;
    engine.at.stack = rest;
    give_answer(engine, answer)
}

fn turn(engine: &mut Engine, unary: Unary) -> Result<Step, Memory>
    requires sound { Sound engine.old }
    ensures { IfOk result (λ s. Does engine.new s
        (performs (One (of_unary unary)) (core engine.old))) }
{
    let Some((v, rest)) = engine.newest(engine.at.stack) else {
        return Ok(Step::Wrong);
    };
    let Some(constant) = constant_in(&engine.store, v) else {
        return Ok(Step::Wrong);
    };
    let answer = turned(engine.alloc, unary, &constant)?;
    engine.at.stack = rest;
    give_answer(engine, answer)
}

// Goes on with the answer of a primitive.
fn give_answer(engine: &mut Engine, answer: PrimitiveResult) -> Result<Step, Memory>
    requires sound { Sound engine.old }
    ensures { IfOk result (λ s. Does engine.new s (answers (answer_meant answer)
        (core engine.old))) }
{
    match answer {
        PrimitiveResult::Int(n) => engine.push_int(n),
        PrimitiveResult::Bool(b) => engine.push_bool(b),
        PrimitiveResult::Str(text) => engine.push_node(Node::Str(text)),
        PrimitiveResult::Print(text) => engine.pausing(Pause::Print(text)),
        PrimitiveResult::Send(text) => engine.pausing(Pause::Send(text)),
        PrimitiveResult::Receive => engine.pausing(Pause::Receive),
        PrimitiveResult::Invalid(text) => engine.raise_exn(Exn::Text(
            TextExn::InvalidArgument,
            text,
        )),
        PrimitiveResult::ByZero => engine.raise_exn(Exn::Bare(BareExn::DivisionByZero)),
        PrimitiveResult::NoSense => Ok(Step::Wrong),
    }
}
