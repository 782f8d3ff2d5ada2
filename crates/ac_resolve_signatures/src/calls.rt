// Names of definitions, where they are called and where they are given.

ghost use Rattle.std.specs.Prelude.{◌≡◌};
ghost use Rattle.ac_syntax.specs.ReadTrees.{name_of};
ghost use Rattle.ac_resolve_signatures.specs.Joined.{missing};
ghost use Rattle.ac_resolve_signatures.specs.NameFlaws.{place_unless, dotted_flaws, name_flaws};
ghost use Rattle.ac_resolve_signatures.specs.Reads.{known_in};

use crate::flaws::Flaws;
use crate::known::Scan;
use crate::outside::{has, outside_of};
use crate::standard::is_primitive;
use ac_resolve_scopes::is_standard;
use ac_syntax::SName;

/// What is wrong with a name behind a definition's name and a dot.
pub fn dotted_flaws<'a>(owner: &'a SName, name: &'a SName, scan: &Scan<'_, 'a>) -> Flaws
    ensures { result ≡ dotted_flaws (known_in scan.now) (name_of owner.now) (name_of name.now) }
{
    if is_standard(&owner.word) {
        return unless(is_primitive(&owner.word, &name.word), name.at);
    }
    match outside_of(scan.externals, &owner.word) {
        None => Flaws::missing(Some(owner.at)),
        Some(outside) => unless(has(&outside.values, &name.word), name.at),
    }
}

// A name isn't in scope, where a test fails.
fn unless(there: bool, at: u32) -> Flaws
    ensures { result ≡ missing (place_unless there at) }
{
    if there {
        return Flaws::none();
    }
    Flaws::missing(Some(at))
}

/// What is wrong with the name of a definition: those of the standard modules are taken.
pub fn name_flaws(name: &SName) -> Flaws
    ensures { result ≡ name_flaws (name_of name.now) }
{
    if is_standard(&name.word) {
        return Flaws::repeated(Some(name.at));
    }
    Flaws::none()
}
