// Names that are known with another text.

ghost use Rattle.std.specs.Prelude.{◌≡◌, ◌<◌, ◌+◌, ◌^◌, Some, length, option_map, position, IfOk, OnOk, IsSome};
ghost use Rattle.std.specs.Option.{option_or};
ghost use Rattle.sha2.specs.Sha256.{sha256};
ghost use Rattle.ac_types.specs.Types.{Bytes};
ghost use Rattle.ac_types.specs.Partial.{given, differ};
ghost use Rattle.ac_terms.specs.Defs.{names as are_named};
ghost use Rattle.ac_terms.specs.Names.{text_of_entry};
ghost use Rattle.ac_terms.specs.Read.{environment_of, name_of_code};
ghost use Rattle.ac_rules.specs.Coherent.{IsCoherent};
ghost use Rattle.ac_rules.specs.Packets.{PacketCause, clashes, first_clash};
ghost use Rattle.ac_admit_clashes.specs.inner.Known.{all_known, known_at, known_before, known_of, name_found, text_under, texted, HasOneText};

use ac_canon::{def_text, has_text};
use ac_terms::Env;
use ac_types::{Memory, Name};
use std::alloc::Global;
use std::collections::BTreeMap;

// The number of the least definition with a text of each name: the entries are counted first, then
// the packet's definitions.
type Names = BTreeMap<[u8; 32], u32>;

// The name of entry `i`, where it has a text.
#[tactic(auto, using(ac_terms::proofs::EnvLaws::env_laws))]
fn texted_name(env: &Env, i: u32) -> Option<Name>
    ensures { option_map name_of_code result ≡ texted (known_of (environment_of env.now) i) }
{
    if !has_text(env, i) {
        return None;
    }
    env.entry(i)?.name
}

// The number of a name.
#[tactic(auto, unfolding(crate::specs::inner::Known::name_found))]
fn found(names: &Names, name: &Name) -> Option<u32>
    ensures { result ≡ name_found names.now name.now.0 }
{
    names.get(&name.0).copied()
}

// Notes a number under a name that has none.
#[tactic(auto, using(crate::proofs::KnownLaws::noted))]
fn note(names: &mut Names, name: Option<Name>, number: u32) -> Result<(), Memory>
    ensures { OnOk result ((n : Bytes) → name_found names.new n ≡ option_or (name_found names.old n)
        (given (are_named (option_map name_of_code name) n) (Some number))) }
{
    let Some(name) = name else {
        return Ok(());
    };
    if found(names, &name).is_some() {
        return Ok(());
    }
    names.insert(name.0, number)?;
    Ok(())
}

// Notes the entries.
fn names_of(alloc: Global, env: &Env) -> Result<Names, Memory>
    requires { length env.now.entries < 2 ^ 32 }
    ensures { IfOk result (λ names. (n : Bytes) → name_found names n ≡ known_at
        (all_known (environment_of env.now)) n) }
{
    let mut names = BTreeMap::new(alloc);
    for i in 0..env.len() {
        note(&mut names, texted_name(env, i as u32), i as u32)?;
    }
    Ok(names)
}

// Whether two entries have different texts.
fn differ(alloc: Global, a: &Env, i: u32, b: &Env, j: u32) -> Result<bool, Memory>
    requires one { IsSome (text_of_entry (environment_of a.now) i) }
    requires other { IsSome (text_of_entry (environment_of b.now) j) }
    ensures { IfOk result (λ d. d ≡ differ (text_of_entry (environment_of a.now) i)
        (text_of_entry (environment_of b.now) j)) }
{
    let text = def_text(alloc, a, i)?;
    let other = def_text(alloc, b, j)?;
    Ok(text.as_slice() != other.as_slice())
}

// Whether definition `i` of the packet has another text than the one of that number.
#[tactic(auto, unfolding(crate::specs::inner::Known::text_under))]
fn differs(alloc: Global, env: &Env, alone: &Env, i: u32, known: u32) -> Result<bool, Memory>
    requires few { length env.now.entries < 2 ^ 32 }
    requires one { IsSome (text_of_entry (environment_of alone.now) i) }
    requires other { IsSome (text_under (environment_of env.now) (environment_of alone.now) known) }
    ensures { IfOk result (λ d. d ≡ differ (text_of_entry (environment_of alone.now) i)
        (text_under (environment_of env.now) (environment_of alone.now) known)) }
{
    let many = env.len() as u32;
    if known < many {
        differ(alloc, alone, i, env, known)
    } else {
        differ(alloc, alone, i, alone, known - many)
    }
}

// What definition `i` clashes with.
fn clash_of(
    alloc: Global,
    env: &Env,
    alone: &Env,
    names: &Names,
    i: u32,
) -> Result<Option<u32>, Memory>
    requires few { length env.now.entries < 2 ^ 32 }
    requires below { i < length alone.now.entries }
    requires found { (n : Bytes) → name_found names.now n ≡ known_at
        (known_before (environment_of env.now) (environment_of alone.now) i) n }
    requires one { HasOneText (known_before (environment_of env.now) (environment_of alone.now) i) }
    ensures { IfOk result (λ o. o ≡ position (clashes sha256
        (known_of (environment_of alone.now) i))
        (known_before (environment_of env.now) (environment_of alone.now) i)) }
{
    let Some(name) = texted_name(alone, i) else {
        return Ok(None);
    };
    match found(names, &name) {
        None => Ok(None),
        Some(known) => {
            if differs(alloc, env, alone, i, known)? {
                Ok(Some(known))
            } else {
                Ok(None)
            }
        }
    }
}

/// The first definition of a packet whose name an entry or an earlier definition has with another
/// text, and the least such: the entries are counted first, then the packet's definitions.
pub fn clash(alloc: Global, env: &Env, alone: &Env) -> Result<Option<(u32, u32)>, Memory>
    requires coherent { IsCoherent (environment_of env.now) }
    requires few { length env.now.entries + length alone.now.entries < 2 ^ 32 }
    ensures { IfOk result (λ o. option_map (λ p. PacketCause.Clash p.0 p.1) o ≡ first_clash sha256
        (all_known (environment_of env.now)) 0 (all_known (environment_of alone.now))) }
{
    let many = env.len();
    let mut names = names_of(alloc, env)?;
    for i in 0..alone.len() {
        if let Some(j) = clash_of(alloc, env, alone, &names, i as u32)? {
            return Ok(Some((i as u32, j)));
        }
        note(&mut names, texted_name(alone, i as u32), (many + i) as u32)?;
    }
    Ok(None)
}
