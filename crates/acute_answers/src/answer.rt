// What a command gives.
ghost use Rattle.std.specs.Prelude.{◌≡◌, IfOk};
ghost use Rattle.ac_load.specs.declared.kind.Kind.TheVariants as kind;
ghost use Rattle.ac_meaning.specs.ReadExn.{exn_of};
ghost use Rattle.acute_answers.specs.declared.status.TheConstants.Status.{REFUSED, UNCAUGHT, SPENT};
ghost use Rattle.acute_answers.specs.Answers.{answer_of, printing, telling};
ghost use Rattle.acute_answers.specs.Lines.{refusal_line, uncaught_line, spent_line};

use crate::line::{refusal_line, spent_line, uncaught_line};
use crate::status::Status;
use ac_load::Refusal;
use ac_types::{Exn, Memory, Text};
use std::alloc::Global;

/// What a command gives where nothing fails.
#[derive(Drop)]
pub struct Answer {
    /// How the program ends.
    pub status: Status,
    /// What is printed on output.
    pub printed: Text,
    /// The line on errors, with its line feed; empty where there is none.
    pub line: Text,
}

impl Answer {
    /// That is printed, and there is no line. It takes no memory.
    pub fn printing(alloc: Global, status: Status, printed: Text) -> Answer
        ensures { answer_of result ≡ printing status printed.0 }
    {
        let line = Text::new(alloc);
        Answer {
            status,
            printed,
            line,
        }
    }

    /// Nothing is printed, and that is the line. It takes no memory.
    pub fn telling(alloc: Global, status: Status, line: Text) -> Answer
        ensures { answer_of result ≡ telling status line.0 }
    {
        let printed = Text::new(alloc);
        Answer {
            status,
            printed,
            line,
        }
    }

    /// That of a text that is refused. `Err` for want of memory, also where the refusal tells it.
    pub fn refused(alloc: Global, refusal: Refusal) -> Result<Answer, Memory>
        ensures answer { IfOk result (λ a.
            answer_of a ≡ telling REFUSED (refusal_line refusal.part refusal.kind)) }
        ensures cause { IfOk result (λ _. refusal.kind ≡ kind.Memory → ⊥) }
    {
        let line = refusal_line(alloc, refusal)?;
        Ok(Answer::telling(alloc, Status::REFUSED, line))
    }

    /// That of a program whose exception nothing handles. `Err` for want of memory.
    pub fn uncaught(alloc: Global, exn: &Exn) -> Result<Answer, Memory>
        ensures { IfOk result
            (λ a. answer_of a ≡ telling UNCAUGHT (uncaught_line (exn_of exn.now))) }
    {
        let line = uncaught_line(alloc, exn)?;
        Ok(Answer::telling(alloc, Status::UNCAUGHT, line))
    }

    /// That of a program that has made as many applications as it may. `Err` for want of memory.
    pub fn spent(alloc: Global, budget: u64) -> Result<Answer, Memory>
        ensures { IfOk result (λ a. answer_of a ≡ telling SPENT (spent_line budget)) }
    {
        let line = spent_line(alloc, budget)?;
        Ok(Answer::telling(alloc, Status::SPENT, line))
    }
}
