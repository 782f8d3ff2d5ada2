// What is asked of each entry by itself.

ghost use Rattle.std.specs.Prelude.{◌≡◌, ◌<◌, ◌≤◌, ◌^◌, IsTrue, length, map, drop};
ghost use Rattle.std.specs.List.{list_all};
ghost use Rattle.ac_types.specs.Partial.{first_failing};
ghost use Rattle.ac_terms.specs.Read.{environment_of, entry_of, field_of};
ghost use Rattle.ac_load_rules.specs.Causes.{first_at, uncovering, not_valuable, without_likespec, unlinked};
ghost use Rattle.ac_load_rules.specs.Counted.{has_counted};
ghost use Rattle.ac_load_causes.specs.PartCauses.{Finds};
ghost use Rattle.ac_load_causes.specs.inner.Asked.{asked, has_value};

use crate::fault::PartFault;
use ac_link::is_exact;
use ac_modules::{covers, like_missing, valuable};
use ac_terms::{Def, Entry, Env, Field};

/// A question to an entry.
#[derive(Clone, Copy)]
pub enum Question {
    /// Whether a module's struct covers its signature.
    Covers,
    /// Whether a module's fields are valuable.
    Valuable,
    /// Whether an import by version has its likespecs.
    Likes,
    /// Whether an import has a link.
    Links,
}

/// Where a question first fails behind the first `front` entries, counted from there.
pub fn asked_behind(question: Question, env: &Env, front: usize) -> Option<PartFault>
    requires few { length env.now.entries < 2 ^ 32 }
    requires counted { IsTrue (list_all has_counted (environment_of env.now)) }
    requires within { front ≤ length env.now.entries }
    ensures { Finds result (first_at 0 (asked question) (drop front (environment_of env.now))) }
{
    first_asked(question, &env.entries()[front..])
}

// Where a question first fails; entries are counted from 0.
fn first_asked(question: Question, entries: &[Entry]) -> Option<PartFault>
    requires few { length entries.now < 2 ^ 32 }
    requires counted { IsTrue (list_all has_counted (map entry_of entries.now)) }
    ensures { Finds result (first_at 0 (asked question) (map entry_of entries.now)) }
{
    for def in 0..entries.len() {
        if let Some(fault) = asked(question, def as u32, &entries[def]) {
            return Some(fault);
        }
    }
    None
}

// Where a question fails at entry `def`.
fn asked(question: Question, def: u32, entry: &Entry) -> Option<PartFault>
    requires { IsTrue (has_counted (entry_of entry.now)) }
    ensures { Finds result (asked question def (entry_of entry.now)) }
{
    match question {
        Question::Covers => uncovering(def, entry),
        Question::Valuable => not_valuable(def, entry),
        Question::Likes => unlike(def, entry),
        Question::Links => unlinked(def, entry),
    }
}

fn uncovering(def: u32, entry: &Entry) -> Option<PartFault>
    requires { IsTrue (has_counted (entry_of entry.now)) }
    ensures { Finds result (uncovering def (entry_of entry.now)) }
{
    match &entry.def {
        Def::Module(module) => match covers(module) {
            Ok(()) => None,
            Err(spec) => Some(PartFault::Signature { def, spec }),
        },
        Def::Import(_) => None,
        Def::Mark(_) => None,
    }
}

fn not_valuable(def: u32, entry: &Entry) -> Option<PartFault>
    requires { IsTrue (has_counted (entry_of entry.now)) }
    ensures { Finds result (not_valuable def (entry_of entry.now)) }
{
    match &entry.def {
        Def::Module(module) => match first_without_value(module.fields.as_slice()) {
            None => None,
            Some(field) => Some(PartFault::NotValuable {
                def,
                field: field as u32,
            }),
        },
        Def::Import(_) => None,
        Def::Mark(_) => None,
    }
}

// The first field that isn't valuable.
fn first_without_value(fields: &[Field]) -> Option<usize>
    ensures { result ≡ first_failing has_value (map field_of fields.now) }
{
    fields.iter().position(|field| !has_value(field))
}

fn has_value(field: &Field) -> bool
    ensures { result ≡ has_value (field_of field.now) }
{
    valuable(&field.term)
}

fn unlike(def: u32, entry: &Entry) -> Option<PartFault>
    requires { IsTrue (has_counted (entry_of entry.now)) }
    ensures { Finds result (without_likespec def (entry_of entry.now)) }
{
    match &entry.def {
        Def::Module(_) => None,
        Def::Import(import) => {
            if is_exact(&import.constraint) {
                return None;
            }
            match like_missing(import) {
                None => None,
                Some(spec) => Some(PartFault::LikeMissing { def, spec }),
            }
        }
        Def::Mark(_) => None,
    }
}

fn unlinked(def: u32, entry: &Entry) -> Option<PartFault>
    ensures { Finds result (unlinked def (entry_of entry.now)) }
{
    match &entry.def {
        Def::Module(_) => None,
        Def::Import(_) => match entry.link {
            None => Some(PartFault::Unresolved { def }),
            Some(_) => None,
        },
        Def::Mark(_) => None,
    }
}
