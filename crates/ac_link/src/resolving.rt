// What a resolvespec gives.

ghost use Rattle.std.specs.Prelude.{◌≡◌, ◌+◌, ◌<◌, ◌≤◌, ◌^◌, false, true, None, length, is_some, IsTrue};
ghost use Rattle.ac_types.specs.Sigs.{HereAlready};
ghost use Rattle.ac_types.specs.ReadTypes.{constraint_of, resolve_of};
ghost use Rattle.ac_terms.specs.Defs.{Environment, Arrived};
ghost use Rattle.ac_terms.specs.Read.{import_of_code, environment_of, seen_of};
ghost use Rattle.ac_rules.specs.Coherent.{IsCoherent};
ghost use Rattle.ac_rules.specs.Links.{InPacket, is_exact, last_below, latest, gives, linked};
ghost use Rattle.ac_rules.specs.Widened.{Widens};
ghost use Rattle.ac_link.specs.Fronts.{IsFront, DifferInArrived};
ghost use Rattle.ac_link.specs.inner.Candidates.{comes_from, is_candidate, is_here};
ghost use Rattle.ac_link.specs.LinkFaults.{when_of};

use crate::fault::When;
use crate::link::link_ok;
use ac_terms::{Env, Import, Seen};
use ac_types::{Constraint, Resolve, Text};

/// The entry that an import's resolvespec gives, that of the first atom which gives one; `None`
/// exactly where no atom does. In a packet an import by version is given the same whatever has
/// arrived, and an import that is given an entry is given one beside further own entries, too.
pub fn resolve(env: &Env, import: &Import, when: When) -> Option<u32>
    requires entries { length env.now.entries < 2 ^ 32 }
    requires specs { length import.now.sig.types + length import.now.sig.vals < 2 ^ 32 }
    ensures linked { result ≡ linked (environment_of env.now) (import_of_code import.now)
        (when_of when) }
    ensures rebound { (F : Environment) → DifferInArrived (environment_of env.now) F →
        when_of when ≡ InPacket → is_exact (import_of_code import.now).constraint ≡ false →
        result ≡ linked F (import_of_code import.now) InPacket }
    ensures widened { (F : Environment) → Widens (environment_of env.now) F →
        IsCoherent (environment_of env.now) → when_of when ≡ InPacket → IsTrue (is_some result) →
        IsTrue (is_some (linked F (import_of_code import.now) InPacket)) }
{
    resolve_with_front(env, import, when, env.len())
}

/// As `resolve`, where all entries behind the first `front` have arrived: own modules and those of
/// a shelf are looked for among the first `front` alone. What is there already is looked for once.
pub fn resolve_with_front(env: &Env, import: &Import, when: When, front: usize) -> Option<u32>
    requires entries { length env.now.entries < 2 ^ 32 }
    requires specs { length import.now.sig.types + length import.now.sig.vals < 2 ^ 32 }
    requires front { IsFront (environment_of env.now) front }
    ensures { result ≡ linked (environment_of env.now) (import_of_code import.now) (when_of when) }
{
    let mut looked = false;
    for atom in import.by.as_slice() {
        if let Some(j) = gives(env, import, when, front, looked, atom) {
            return Some(j);
        }
        looked |= is_here(atom);
    }
    None
}

fn is_here(atom: &Resolve) -> bool
    ensures { result ≡ is_here (resolve_of atom.now) }
{
    matches!(atom, Resolve::HereAlready)
}

// The entry that one atom gives. Where `looked` is true, what is there already was looked for and
// not found.
fn gives(
    env: &Env,
    import: &Import,
    when: When,
    front: usize,
    looked: bool,
    atom: &Resolve,
) -> Option<u32>
    requires entries { length env.now.entries < 2 ^ 32 }
    requires specs { length import.now.sig.types + length import.now.sig.vals < 2 ^ 32 }
    requires front { IsFront (environment_of env.now) front }
    requires looked { looked ≡ true → gives (environment_of env.now) (import_of_code import.now)
        (when_of when) HereAlready ≡ None }
    ensures { result ≡ gives (environment_of env.now) (import_of_code import.now) (when_of when)
        (resolve_of atom.now) }
{
    match atom {
        Resolve::StaticLink => match when {
            When::Load => latest_in_front(env, import, front, Origin::Own),
            When::Packet => None,
        },
        Resolve::HereAlready if looked => None,
        Resolve::HereAlready => match when {
            When::Load => latest_in_front(env, import, front, Origin::Own),
            When::Packet => here_already(env, import, front),
        },
        Resolve::Uri(uri) => latest_in_front(env, import, front, Origin::Shelf(uri)),
    }
}

// What is there already as a packet comes: an own module, or by exact name one that has arrived.
fn here_already(env: &Env, import: &Import, front: usize) -> Option<u32>
    requires entries { length env.now.entries < 2 ^ 32 }
    requires specs { length import.now.sig.types + length import.now.sig.vals < 2 ^ 32 }
    requires front { IsFront (environment_of env.now) front }
    ensures { result ≡ gives (environment_of env.now) (import_of_code import.now) InPacket
        HereAlready }
{
    if let Some(own) = latest_in_front(env, import, front, Origin::Own) {
        return Some(own);
    }
    if is_exact(&import.constraint) {
        latest(env, import, Origin::Arrived)
    } else {
        None
    }
}

// The entries among which an atom looks.
#[derive(Clone, Copy)]
enum Origin<'a> {
    Own,
    Shelf(&'a Text),
    Arrived,
}

// The latest entry of an origin to which the import may link.
fn latest(env: &Env, import: &Import, origin: Origin) -> Option<u32>
    requires entries { length env.now.entries < 2 ^ 32 }
    requires specs { length import.now.sig.types + length import.now.sig.vals < 2 ^ 32 }
    ensures { result ≡ latest (comes_from origin.entry) (environment_of env.now)
        (import_of_code import.now) }
{
    latest_of_first(env, import, env.len(), origin)
}

// The same of an origin that no arrived entry has.
fn latest_in_front(env: &Env, import: &Import, front: usize, origin: Origin) -> Option<u32>
    requires entries { length env.now.entries < 2 ^ 32 }
    requires specs { length import.now.sig.types + length import.now.sig.vals < 2 ^ 32 }
    requires front { IsFront (environment_of env.now) front }
    requires origin { comes_from origin Arrived ≡ false }
    ensures { result ≡ latest (comes_from origin.entry) (environment_of env.now)
        (import_of_code import.now) }
{
    latest_of_first(env, import, front, origin)
}

// The latest of the first entries that has an origin and to which the import may link. A signature
// is compared only where origin, external name and version fit.
fn latest_of_first(env: &Env, import: &Import, first: usize, origin: Origin) -> Option<u32>
    requires entries { length env.now.entries < 2 ^ 32 }
    requires first { first ≤ length env.now.entries }
    requires specs { length import.now.sig.types + length import.now.sig.vals < 2 ^ 32 }
    ensures { result ≡ last_below (is_candidate (comes_from origin.entry) (environment_of env.now)
        (import_of_code import.now)) first }
{
    let mut j = first;
    while j > 0 {
        j -= 1;
        if is_candidate(env, import, origin, j) {
            return Some(j as u32);
        }
    }
    None
}

// Whether entry `j` comes from there, and the import may link to it.
#[tactic(auto, using(ac_terms::proofs::EnvLaws::env_laws))]
fn is_candidate(env: &Env, import: &Import, origin: Origin, j: usize) -> bool
    requires entries { length env.now.entries < 2 ^ 32 }
    requires below { j < length env.now.entries }
    requires specs { length import.now.sig.types + length import.now.sig.vals < 2 ^ 32 }
    ensures { result ≡ is_candidate (comes_from origin.entry) (environment_of env.now)
        (import_of_code import.now) j }
{
    match env.entry(j as u32) {
        None => false,
        Some(entry) => comes_from(origin, &entry.seen) && link_ok(env, import, j as u32).is_ok(),
    }
}

fn comes_from(origin: Origin, seen: &Seen) -> bool
    ensures { result ≡ comes_from origin.entry (seen_of seen.now) }
{
    match origin {
        Origin::Own => matches!(seen, Seen::Own),
        Origin::Arrived => matches!(seen, Seen::Arrived),
        Origin::Shelf(uri) => match seen {
            Seen::Shelf(other) => uri.as_slice() == other.as_slice(),
            Seen::Own => false,
            Seen::Arrived => false,
        },
    }
}

/// Whether a constraint is a name, and no ranges of versions.
pub fn is_exact(constraint: &Constraint) -> bool
    ensures { result ≡ is_exact (constraint_of constraint.now) }
{
    match constraint {
        Constraint::Ranges { atoms: _, star: _ } => false,
        Constraint::Exact(_) => true,
    }
}
