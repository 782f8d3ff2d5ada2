// Runs in which one call after the other fails.

use crate::calls::call;
use crate::desk::Desk;
use crate::faults::{Fault, Place};
use crate::outcome::Outcome;
use crate::paced::Pace;
use crate::worlds::run;
use ac_table_ranges::{Places, put_answers};
use ac_text::Page;
use ac_types::{Memory, Text};
use std::alloc::Global;
use std::thread::Threads;

// No run makes so many calls of one kind.
const MOST: u64 = 100_000;

/// What is run.
#[derive(Clone, Copy)]
pub enum Trial<'a> {
    /// A call of `acute` with these words.
    Call(&'a str),
    /// A program of a file in a world, perhaps with the shelf whose list is in another.
    World {
        program: &'a str,
        list: Option<&'a str>,
    },
}

/// What is run, with which files and which input, and where a call is to fail.
#[derive(Drop)]
pub struct Bench<'a> {
    pub desk: &'a Desk,
    pub trial: Trial<'a>,
    pub place: Place,
}

impl Bench<'_> {
    fn outcome<R: Threads + Sync>(
        &self,
        rt: &R,
        alloc: Global,
        pace: Pace,
        fault: Option<Fault>,
    ) -> Result<Outcome, Memory> {
        match self.trial {
            Trial::Call(line) => call(rt, alloc, self.desk, line, pace, fault),
            Trial::World { program, list } => run(alloc, self.desk, program, list, pace, fault),
        }
    }

    // How the runs end, up to the first one that is as the whole run.
    fn answers<R: Threads + Sync>(
        &self,
        rt: &R,
        alloc: Global,
        pace: Pace,
        whole: &Outcome,
    ) -> Result<Vec<Text>, Memory> {
        let mut answers = Vec::new(alloc);
        for number in 0..MOST {
            let fault = Fault {
                place: self.place,
                number,
            };
            let one = self.outcome(rt, alloc, pace, Some(fault))?;
            answers.push(one.answer(alloc, self.desk, whole)?)?;
            if one.is_same(whole) {
                break;
            }
        }
        Ok(answers)
    }
}

/// Adds how the runs of a bench end, with devices of each pace.
pub fn put_trials<R: Threads + Sync>(
    rt: &R,
    alloc: Global,
    page: &mut Page,
    bench: &Bench<'_>,
) -> Result<(), Memory> {
    let whole = bench.outcome(rt, alloc, Pace::Whole, None)?;
    for pace in [Pace::Whole, Pace::Byte, Pace::Turns] {
        page.put(pace.word());
        page.put(b": ");
        put_answers(
            page,
            &bench.answers(rt, alloc, pace, &whole)?,
            Places::Lengths,
        );
        page.put(b"\n");
    }
    Ok(())
}
