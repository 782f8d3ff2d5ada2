// The definitions of a packet.

ghost use Rattle.std.specs.Prelude.{◌≡◌, ◌≤◌, ◌++◌, ◌∷◌, ℕ, length, flat_map, IfOk, MatchResult};
ghost use Rattle.std.specs.List.{list_all};
ghost use Rattle.ac_types.specs.Limits.{longest_packet};
ghost use Rattle.ac_terms.specs.Bounds.{nests_little};
ghost use Rattle.ac_terms.specs.Read.{environment_of};
ghost use Rattle.ac_terms.specs.Spelling.{two_written, def_bytes};
ghost use Rattle.ac_terms.specs.Tags.{packet_front, packet_in_full};
ghost use Rattle.ac_terms_renumber.specs.Numbers.{number_for};
ghost use Rattle.ac_pack_definitions.specs.Forms.{AllBelow, form_at, forms, front_bytes, IsLong};
ghost use Rattle.ac_pack_definitions.specs.inner.Passing.{nests_at};

use crate::forms::{form_bytes, form_nests};
use crate::numbers::wide;
use ac_bytes::Out;
use ac_canon::put_count_u16;
use ac_pack_heads::Stop;
use ac_terms::{Env, tags};
use ac_types::limits::LONGEST_PACKET;
use ac_types::{Memory, Text};
use std::alloc::Global;

/// Whether the forms of some entries nest little, whatever their numbers.
pub fn forms_nest(env: &Env, mark: usize, chosen: &[u32]) -> bool
    ensures { (f : ℕ → ℕ) → result ≡
        list_all nests_little (forms (environment_of env.now) mark f chosen.now) }
{
    all_nest(env, mark, chosen)
}

// Whether each form nests little.
fn all_nest(env: &Env, mark: usize, chosen: &[u32]) -> bool
    ensures { result ≡ list_all (nests_at (environment_of env.now) mark) chosen.now }
{
    for k in chosen {
        if !nests_at(env, mark, *k) {
            return false;
        }
    }
    true
}

// Whether the form of an entry nests little.
#[tactic(auto, using(ac_canon::proofs::EntryForms::entry_forms))]
fn nests_at(env: &Env, mark: usize, k: u32) -> bool
    ensures { result ≡ nests_at (environment_of env.now) mark k }
{
    match env.entry(k) {
        None => true,
        Some(entry) => form_nests(entry, (k as usize) < mark),
    }
}

/// The bytes of a packet in front of its type and value: what every packet begins with, and the
/// forms of the chosen entries with their numbers. Stops as soon as they are too many.
pub fn packet_front(
    alloc: Global,
    env: &Env,
    mark: usize,
    chosen: &[u32],
    numbers: &[u16],
) -> Result<Text, Stop>
    requires { AllBelow (length env.now.entries) chosen.now }
    ensures { let bytes = front_bytes (forms (environment_of env.now) mark (number_for numbers.now)
        chosen.now) in MatchResult result (λ text. text.0 ≡ bytes) (λ e. IsLong e bytes) }
{
    let numbers = wide(alloc, numbers)?;
    let text = begun(alloc, chosen.len())?;
    with_forms(alloc, text, env, mark, chosen, numbers.as_slice())
}

// What a packet begins with: its mark and version, and how many definitions it has.
fn begun(alloc: Global, count: usize) -> Result<Text, Memory>
    ensures { IfOk result (λ text. text.0 ≡ packet_front ++ packet_in_full ∷ two_written count) }
{
    let mut out = Out::new(alloc);
    out.put_u32(tags::PACKET_MARK)?;
    out.put_u8(tags::PACKET_IN_FULL)?;
    put_count_u16(&mut out, count)?;
    Ok(out.into_text())
}

// The text with the bytes of the forms of some entries. Stops as soon as there are too many.
fn with_forms(
    alloc: Global,
    mut text: Text,
    env: &Env,
    mark: usize,
    chosen: &[u32],
    numbers: &[u32],
) -> Result<Text, Stop>
    ensures { let bytes = text.0 ++ flat_map def_bytes (forms (environment_of env.now) mark
        (number_for numbers.now) chosen.now) in
        MatchResult result (λ all. all.0 ≡ bytes) (λ e. IsLong e bytes) }
{
    for k in chosen {
        let bytes = bytes_at(alloc, env, mark, *k, numbers)?;
        put(&mut text, bytes.as_slice())?;
    }
    Ok(text)
}

// The bytes of the form of an entry, none past the last one.
#[tactic(auto, using(ac_canon::proofs::EntryForms::entry_forms))]
fn bytes_at(alloc: Global, env: &Env, mark: usize, k: u32, numbers: &[u32]) -> Result<Text, Memory>
    ensures { IfOk result (λ text. text.0 ≡ flat_map def_bytes
        (form_at (environment_of env.now) mark (number_for numbers.now) k)) }
{
    match env.entry(k) {
        None => Ok(Text::new(alloc)),
        Some(entry) => form_bytes(alloc, entry, (k as usize) < mark, numbers),
    }
}

/// Adds bytes. Stops where there are more than a packet may have.
pub fn put(text: &mut Text, bytes: &[u8]) -> Result<(), Stop>
    ensures { MatchResult result
        (λ _. (text.new.0 ≡ text.old.0 ++ bytes.now) × (length text.new.0 ≤ longest_packet))
        (λ e. IsLong e (text.old.0 ++ bytes.now)) }
{
    let len = text.as_slice().len();
    if len > LONGEST_PACKET || bytes.len() > LONGEST_PACKET - len {
        return Err(Stop::Size);
    }
    text.extend(bytes)?;
    Ok(())
}
