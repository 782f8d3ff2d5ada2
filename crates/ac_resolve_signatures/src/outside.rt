// What is seen of definitions from outside.

ghost use Rattle.std.specs.Prelude.{◌≡◌, ◌∷◌, OnOk, [], option_map};
ghost use Rattle.std.specs.Option.{option_copied, option_or};
ghost use Rattle.ac_types.specs.Types.{Bytes};
ghost use Rattle.ac_resolve_scopes.specs.Standard.{beside_name};
ghost use Rattle.ac_resolve_signatures.specs.KnownScopes.{updated, inserted};
ghost use Rattle.ac_resolve_signatures.specs.Reads.{under, contains_name, members_of, externals_of};

use crate::size::Size;
use ac_types::{Memory, Word};
use std::collections::{BTreeMap, BTreeSet};

/// The sizes of types by their names.
pub type Sizes<'a> = BTreeMap<&'a [u8], Size>;

/// Some names.
pub type Words<'a> = BTreeSet<&'a [u8]>;

/// What stands behind the name of a definition and a dot.
#[derive(Drop)]
pub struct Outside<'a> {
    /// The sizes of its types.
    pub types: Sizes<'a>,
    /// Its values.
    pub values: Words<'a>,
}

/// The definitions that are called by a name.
pub type Externals<'a> = BTreeMap<&'a [u8], Outside<'a>>;

/// The size of the type of that name.
pub fn size_under<'a>(sizes: &Sizes<'a>, word: &'a Word) -> Option<Size>
    ensures { result ≡ under sizes.now word.now }
{
    sizes.get(&word.text().as_slice()).copied()
}

/// Whether the name is there.
pub fn has<'a>(words: &Words<'a>, word: &'a Word) -> bool
    ensures { result ≡ contains_name words.now word.now }
{
    words.contains(&word.text().as_slice())
}

/// What stands behind the definition that a name calls.
pub fn outside_of<'e, 'a>(externals: &'e Externals<'a>, word: &'a Word) -> Option<&'e Outside<'a>>
    ensures { option_map members_of (option_copied result) ≡ externals_of externals.now word.now }
{
    externals.get(&word.text().as_slice())
}

/// Puts the size of one more type, in the place of that of the type that had its name.
pub fn put_size<'a>(sizes: &mut Sizes<'a>, word: &'a Word, size: Size) -> Result<(), Memory>
    ensures { OnOk result (under sizes.new ≡ updated word.now size (under sizes.old)) }
{
    sizes.insert(word.text().as_slice(), size)?;
    Ok(())
}

/// Puts the size of one more type, unless a type has its name.
pub fn keep_size<'a>(sizes: &mut Sizes<'a>, word: &'a Word, size: Size) -> Result<(), Memory>
    ensures { OnOk result ((t : Bytes) → under sizes.new t
        ≡ option_or (under sizes.old t) (beside_name t ((word.now, size) ∷ []))) }
{
    match size_under(sizes, word) {
        Some(_) => Ok(()),
        None => {
            put_size(sizes, word, size)?;
            Ok(())
        }
    }
}

/// Puts one more name.
pub fn insert_word<'a>(words: &mut Words<'a>, word: &'a Word) -> Result<(), Memory>
    ensures { OnOk result (contains_name words.new ≡ inserted word.now (contains_name words.old)) }
{
    words.insert(word.text().as_slice())?;
    Ok(())
}

/// Puts one more definition, in the place of the one that had its name.
pub fn put_outside<'a>(
    externals: &mut Externals<'a>,
    word: &'a Word,
    outside: Outside<'a>,
) -> Result<(), Memory>
    ensures { OnOk result (externals_of externals.new
        ≡ updated word.now (members_of outside.entry) (externals_of externals.old)) }
{
    externals.insert(word.text().as_slice(), outside)?;
    Ok(())
}
