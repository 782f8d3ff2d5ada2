// Chains of programs.

ghost use Rattle.std.specs.Prelude.{◌≡◌, ◌<◌, ◌≤◌, ◌^◌, [], IfOk, IfErr, OnErr, IsErrOf, length};
ghost use Rattle.ac_types.specs.Limits.{most_shelf_entries};
ghost use Rattle.ac_rules.specs.Views.{Mode};
ghost use Rattle.ac_outside.specs.Outside.{Rose};
ghost use Rattle.ac_load_rules.specs.Accepting.{IsShelf};
ghost use Rattle.ac_load.specs.Loading.{shelf_of};
ghost use Rattle.ac_colours.specs.Chains.{Programs};
ghost use Rattle.ac_chain.specs.ChainTexts.{texts_of, programs_of, LoadAs};
ghost use Rattle.ac_chain.specs.Endings.{printed, HasRun, IsChainFault, IsBeforeRuns, AreAllNative, HasProvenance};
ghost use Rattle.ac_chain.specs.inner.Running.{AreLoaded, AllRun, AllStopped, IsRunFault, last_sent};

use crate::chained::{ChainFault, ChainPart, Chained};
use crate::clash::first_program_clash;
use crate::loads::load_all;
use crate::program::run_program;
use ac_load::Shelf;
use ac_outside::Sink;
use ac_rules::Loaded;
use ac_types::{Many, Text};
use std::alloc::Global;
use std::collections::BTreeSet;

/// Loads all programs, beside a shelf of at most `MOST_SHELF_ENTRIES` texts, each under a URI of
/// its own, and runs them one after the other, each with so many applications at most. Each reads
/// what the one before it sent, and the first has nothing to read; what they print goes to the
/// console as they run.
pub fn chain<C: Sink>(
    alloc: Global,
    programs: &Many<Text>,
    shelf: &Shelf,
    steps: u64,
    console: &mut C,
) -> Result<Chained, ChainFault>
    requires many { length programs.now < 2 ^ 32 }
    requires few { length shelf.now.0 ≤ most_shelf_entries }
    requires shelved { IsShelf (shelf_of shelf.now) }
    // Where the chain has run: what its texts mean in each mode.
    ensures ran { IfOk result (λ c. (mode : Mode) → HasRun (texts_of programs.now)
        (shelf_of shelf.now) steps (printed C.told C.written C.faults console.old console.new) mode
        c.parts) }
    // Where each string that was read is native: what stands inside each seal that unmarshal
    // writes, at a first-order type, was sealed before in the runs.
    ensures provenance { IfOk result (λ c. AreAllNative c.parts → (ps : Programs) →
        LoadAs (texts_of programs.now) (shelf_of shelf.now) ps →
        HasProvenance steps C.told ps c.parts) }
    // The cause of a fault, and what it leaves.
    ensures fault { IfErr result (IsChainFault (texts_of programs.now) (shelf_of shelf.now) steps
        (printed C.told C.written C.faults console.old console.new)) }
    ensures untouched { IfErr result (λ f. IsBeforeRuns f → console.new ≡ console.old) }
    ensures later { C.faults console.old ≤ C.faults console.new }
{
    let loaded = load_all(alloc, programs.as_slice(), shelf)?;
    match first_program_clash(alloc, loaded.as_slice()) {
        Ok(None) => run_all(alloc, loaded, steps, console),
        Ok(Some(clash)) => Err(clash),
        Err(_) => Err(ChainFault::Memory),
    }
}

// Runs programs one after the other.
fn run_all<C: Sink>(
    alloc: Global,
    programs: Many<Loaded>,
    steps: u64,
    console: &mut C,
) -> Result<Chained, ChainFault>
    requires { AreLoaded programs }
    ensures ran { IfOk result (λ c. (mode : Mode) → AllRun mode steps C.told (programs_of programs)
        c.parts (C.written console.old) (C.written console.new)) }
    ensures stopped { OnErr result ((mode : Mode) → AllStopped mode steps C.told
        (programs_of programs) (C.written console.old) (C.written console.new)) }
    ensures fault { IfErr result IsRunFault }
    ensures cause { IsErrOf result ChainFault.WriteFault →
        Rose (C.faults console.old) (C.faults console.new) }
    ensures later { C.faults console.old ≤ C.faults console.new }
{
    let mut parts = Many::new(alloc);
    let mut made = BTreeSet::new(alloc);
    for program in programs.into_vec() {
        let input = last_sent(parts.as_slice());
        let part = run_program(alloc, program, steps, input, &mut made, console)?;
        parts.push(part)?;
    }
    Ok(Chained { parts })
}

// What the last program has sent, and nothing where none has run.
fn last_sent(parts: &[ChainPart]) -> &[u8]
    ensures { result.now ≡ last_sent [] parts.now }
{
    match parts.last() {
        Some(part) => part.sent.as_slice(),
        None => &[],
    }
}
