// The names of the standard modules.

ghost use Rattle.std.specs.Prelude.{◌≡◌, is_some};
ghost use Rattle.ac_resolve_scopes.specs.Standard.{beside_name, primitive_named, io, str_primitives};

use ac_types::Word;

/// Whether the two names with a dot between them are those of a primitive.
pub fn is_primitive(owner: &Word, word: &Word) -> bool
    ensures { result ≡ is_some (primitive_named owner.now word.now) }
{
    let standard = owner.text().as_slice();
    let name = word.text().as_slice();
    if b"IO".as_slice() == standard {
        return is_in_io(name);
    }
    b"Str".as_slice() == standard && is_in_str(name)
}

fn is_in_io(name: &[u8]) -> bool
    ensures { result ≡ is_some (beside_name name.now io) }
{
    b"print_int".as_slice() == name
        || b"print_string".as_slice() == name
        || b"send".as_slice() == name
        || b"receive".as_slice() == name
}

fn is_in_str(name: &[u8]) -> bool
    ensures { result ≡ is_some (beside_name name.now str_primitives) }
{
    b"length".as_slice() == name || b"sub".as_slice() == name || b"of_int".as_slice() == name
}
