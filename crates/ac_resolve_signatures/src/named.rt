// Names where they are written, and which of them are repeated.

ghost use Rattle.std.specs.Prelude.{◌≡◌, [], map, Some, None, IfOk, if◌then◌else◌};
ghost use Rattle.ac_types.specs.Types.{Bytes};
ghost use Rattle.ac_syntax.specs.ReadTrees.{name_of};
ghost use Rattle.ac_resolve_scopes.specs.Repeated.{repeated_name};
ghost use Rattle.ac_resolve_signatures.specs.SigFlaws.{is_listed};
ghost use Rattle.ac_resolve_signatures.specs.Reads.{named, contains_name};

use crate::least::least;
use ac_syntax::SName;
use ac_types::Memory;
use std::alloc::Global;
use std::collections::BTreeSet;

/// A name where it is written.
#[derive(Clone, Copy)]
pub struct Named<'a> {
    /// Its place.
    pub at: u32,
    /// Its bytes.
    pub word: &'a [u8],
}

impl<'a> Named<'a> {
    /// A name of a tree.
    pub fn of(name: &'a SName) -> Named<'a>
        ensures { named result ≡ name_of name.now }
    {
        Named {
            at: name.at,
            word: name.word.text().as_slice(),
        }
    }
}

// Some names.
#[derive(Drop)]
struct Listed<'a> {
    // Their bytes.
    words: BTreeSet<&'a [u8]>,
    // The least place of a name that stands before it too.
    repeated: Option<u32>,
}

// Some names, and which of them is repeated first.
fn list_names<'a>(alloc: Global, names: &[Named<'a>]) -> Result<Listed<'a>, Memory>
    ensures words { IfOk result (λ l. (x : Bytes) → contains_name l.words x ≡ is_listed
        (map named names.now) x) }
    ensures repeated { IfOk result (λ l. l.repeated ≡ repeated_name [] (map named names.now)) }
{
    let mut words = BTreeSet::new(alloc);
    let mut repeated = None;
    for name in names {
        let added = words.insert(name.word)?;
        let again = unless(added, name.at);
        repeated = least(repeated, again);
    }
    Ok(Listed { words, repeated })
}

/// Some names as a set.
pub fn words_of<'a>(alloc: Global, names: &[Named<'a>]) -> Result<BTreeSet<&'a [u8]>, Memory>
    ensures { IfOk result (λ words. (x : Bytes) → contains_name words x ≡ is_listed
        (map named names.now) x) }
{
    let all = list_names(alloc, names)?;
    Ok(all.words)
}

/// The least place of a name that stands before it too.
pub fn repeated_name(alloc: Global, names: &[Named]) -> Result<Option<u32>, Memory>
    ensures { IfOk result (λ o. o ≡ repeated_name [] (map named names.now)) }
{
    let all = list_names(alloc, names)?;
    Ok(all.repeated)
}

// The place, where the name wasn't added.
fn unless(added: bool, at: u32) -> Option<u32>
    ensures { result ≡ (if added then None else Some at) }
{
    if added { None } else { Some(at) }
}
