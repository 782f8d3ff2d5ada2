// The names of the standard modules.

ghost use Rattle.std.specs.Prelude.{◌≡◌};
ghost use Rattle.ac_resolve_scopes.specs.Standard.{is_standard};

use ac_types::Word;

/// Whether the name is that of a standard module.
pub fn is_standard(word: &Word) -> bool
    ensures { result ≡ is_standard word.now }
{
    let name = word.text().as_slice();
    b"IO".as_slice() == name || b"Str".as_slice() == name
}
