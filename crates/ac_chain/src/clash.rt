// Entries of two programs with one name and two texts.

ghost use Rattle.std.specs.Prelude.{◌≡◌, ◌<◌, ◌≤◌, ◌+◌, ◌^◌, Some, IsSome, length, option_map, IfOk};
ghost use Rattle.ac_terms.specs.Read.{environment_of};
ghost use Rattle.ac_terms.specs.Names.{text_of_entry};
ghost use Rattle.ac_load_rules.specs.Causes.{first_below};
ghost use Rattle.ac_types.specs.Partial.{differ};
ghost use Rattle.ac_chain.specs.Clashes.{is_clash, clash_in, clash_behind, first_program_clash};
ghost use Rattle.ac_chain.specs.ChainTexts.{programs_of};
ghost use Rattle.ac_chain.specs.inner.Running.{AreFew};

use crate::chained::ChainFault;
use crate::known::have_one_text;
use ac_canon::{def_text, told_name};
use ac_rules::Loaded;
use ac_terms::Env;
use ac_types::Memory;
use std::alloc::Global;

/// The first clash of two programs. Where definitions of one name have one text there is none, and
/// else two texts have one digest; then all are compared.
pub fn first_program_clash(alloc: Global, programs: &[Loaded]) -> Result<Option<ChainFault>, Memory>
    requires many { length programs.now < 2 ^ 32 }
    requires few { AreFew programs.now }
    ensures { IfOk result (λ o. o ≡ first_program_clash 0 (programs_of programs.now)) }
{
    if have_one_text(alloc, programs)? {
        return Ok(None);
    }
    for a in 0..programs.len() {
        let clash = clash_of(alloc, a as u32, &programs[a].env, &programs[a + 1..])?;
        if clash.is_some() {
            return Ok(clash);
        }
    }
    Ok(None)
}

// The first clash of program `a`, of these entries, with a later one.
fn clash_of(
    alloc: Global,
    a: u32,
    env: &Env,
    later: &[Loaded],
) -> Result<Option<ChainFault>, Memory>
    requires many { a + 1 + length later.now < 2 ^ 32 }
    requires entries { length env.now.entries < 2 ^ 32 }
    requires few { AreFew later.now }
    ensures { IfOk result (λ o. o ≡ first_below (length (environment_of env.now))
        (λ i. clash_behind a (environment_of env.now) i (a + 1) (programs_of later.now))) }
{
    for i in 0..env.len() as u32 {
        let clash = clash_behind(alloc, a, env, i, later)?;
        if clash.is_some() {
            return Ok(clash);
        }
    }
    Ok(None)
}

// The first clash of entry `i` of program `a` with an entry of a later one.
fn clash_behind(
    alloc: Global,
    a: u32,
    env: &Env,
    i: u32,
    later: &[Loaded],
) -> Result<Option<ChainFault>, Memory>
    requires many { a + 1 + length later.now < 2 ^ 32 }
    requires few { AreFew later.now }
    ensures { IfOk result (λ o. o ≡
        clash_behind a (environment_of env.now) i (a + 1) (programs_of later.now)) }
{
    for k in 0..later.len() {
        if let Some(j) = clash_in(alloc, env, i, &later[k].env)? {
            return Ok(Some(ChainFault::Clash {
                program1: a,
                entry1: i,
                program2: a + 1 + k as u32,
                entry2: j,
            }));
        }
    }
    Ok(None)
}

// The first of the other entries with which entry `i` clashes.
fn clash_in(alloc: Global, env: &Env, i: u32, other: &Env) -> Result<Option<u32>, Memory>
    requires { length other.now.entries < 2 ^ 32 }
    ensures { IfOk result (λ o. o ≡
        clash_in (environment_of env.now) i (environment_of other.now)) }
{
    for j in 0..other.len() as u32 {
        if is_clash(alloc, env, i, other, j)? {
            return Ok(Some(j));
        }
    }
    Ok(None)
}

// Whether two entries clash.
fn is_clash(alloc: Global, env: &Env, i: u32, other: &Env, j: u32) -> Result<bool, Memory>
    ensures { IfOk result (λ b. b ≡
        is_clash (environment_of env.now) i (environment_of other.now) j) }
{
    match (told_name(env, i), told_name(other, j)) {
        (Some(name), Some(known)) => {
            if name.0 == known.0 {
                differ(alloc, env, i, other, j)
            } else {
                Ok(false)
            }
        }
        _ => Ok(false),
    }
}

// Whether two entries have two texts.
fn differ(alloc: Global, env: &Env, i: u32, other: &Env, j: u32) -> Result<bool, Memory>
    requires first { IsSome (text_of_entry (environment_of env.now) i) }
    requires second { IsSome (text_of_entry (environment_of other.now) j) }
    ensures { IfOk result (λ b. b ≡ differ (text_of_entry (environment_of env.now) i)
        (text_of_entry (environment_of other.now) j)) }
{
    let text = def_text(alloc, env, i)?;
    let known = def_text(alloc, other, j)?;
    Ok(text.as_slice() != known.as_slice())
}
