// Bytes as a string literal.

ghost use Rattle.std.specs.Prelude.{◌≡◌, ◌<◌, ◌++◌, OnOk};
ghost use Rattle.ac_text.specs.Literals.{hex_digit, escaped, literal};

use ac_types::{Memory, Text};

/// Adds bytes as a string literal.
pub fn put_literal(text: &mut Text, bytes: &[u8]) -> Result<(), Memory>
    ensures { OnOk result (text.new.0 ≡ text.old.0 ++ literal bytes.now) }
{
    text.extend(b"\"")?;
    for byte in bytes {
        put_escaped(text, *byte)?;
    }
    text.extend(b"\"")
}

// Adds a byte as it stands in a string literal.
fn put_escaped(text: &mut Text, byte: u8) -> Result<(), Memory>
    ensures { OnOk result (text.new.0 ≡ text.old.0 ++ escaped byte) }
{
    match byte {
        b'\\' => text.extend(b"\\\\"),
        b'"' => text.extend(b"\\\""),
        b'\n' => text.extend(b"\\n"),
        b'\t' => text.extend(b"\\t"),
        b'\r' => text.extend(b"\\r"),
        32..=126 => text.extend(&[byte]),
        _ => text.extend(&[b'\\', b'x', hex_digit(byte / 16), hex_digit(byte % 16)]),
    }
}

// A digit to the base 16.
fn hex_digit(value: u8) -> u8
    requires { value < 16 }
    ensures { result ≡ hex_digit value }
{
    if value < 10 {
        b'0' + value
    } else {
        b'a' + (value - 10)
    }
}
