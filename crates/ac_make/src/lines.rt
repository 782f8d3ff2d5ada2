// The lines of a generated program, each put at the end of a text.

ghost use Rattle.std.specs.Prelude.{◌≡◌, ◌++◌, IfOk, OnOk, string_bytes};
ghost use Rattle.std.specs.Fmt.{decimal};
ghost use Rattle.ac_make.specs.ProgramText.{module_name, got_of_made, head_line, make_line, get_line, get_body, print_line};

use ac_types::{Memory, Text};
use std::alloc::{AllocError, Global};

/// The first line of module `i`.
pub fn put_head(alloc: Global, text: &mut Text, i: u64) -> Result<(), Memory>
    ensures { OnOk result (text.new.0 ≡ text.old.0 ++ head_line i) }
{
    text.extend(b"module ")?;
    text.extend(module_name(alloc, i)?.as_bytes())?;
    text.extend(b" : sig type t val make : int -> t val get : t -> int end version 1.")?;
    text.extend(digits(alloc, i)?.as_bytes())?;
    text.extend(b" =\n")
}

/// The line of a module's `make`, for which this number was drawn.
pub fn put_make(alloc: Global, text: &mut Text, first: u64) -> Result<(), Memory>
    ensures { OnOk result (text.new.0 ≡ text.old.0 ++ make_line first) }
{
    text.extend(b"val make : int -> t = fun (x : int) -> x + ")?;
    text.extend(digits(alloc, first % 1000)?.as_bytes())?;
    text.extend(b"\n")
}

/// The line of the `get` of module `i`, for which this number was drawn.
pub fn put_get(alloc: Global, text: &mut Text, i: u64, second: u64) -> Result<(), Memory>
    ensures { OnOk result (text.new.0 ≡ text.old.0 ++ get_line i second) }
{
    text.extend(b"val get : t -> int = fun (x : t) -> ")?;
    put_get_body(alloc, text, i, second)?;
    text.extend(b" end\n")
}

fn put_get_body(alloc: Global, text: &mut Text, i: u64, second: u64) -> Result<(), Memory>
    ensures { OnOk result (text.new.0 ≡ text.old.0 ++ get_body i second) }
{
    if i == 0 {
        return text.extend(b"x");
    }
    put_got_of_made(alloc, text, second % i, b"x")
}

/// The line that prints what module `i` gives for `i`.
pub fn put_print(alloc: Global, text: &mut Text, i: u64) -> Result<(), Memory>
    ensures { OnOk result (text.new.0 ≡ text.old.0 ++ print_line i) }
{
    let digits = digits(alloc, i)?;
    text.extend(b"IO.print_int (")?;
    put_got_of_made(alloc, text, i, digits.as_bytes())?;
    text.extend(b"); IO.print_string \"\\n\";\n")
}

// What `get` of module `i` gives for what its `make` makes of the argument.
fn put_got_of_made(alloc: Global, text: &mut Text, i: u64, argument: &[u8]) -> Result<(), Memory>
    ensures { OnOk result (text.new.0 ≡ text.old.0 ++ got_of_made i argument.now) }
{
    let name = module_name(alloc, i)?;
    text.extend(name.as_bytes())?;
    text.extend(b".get (")?;
    text.extend(name.as_bytes())?;
    text.extend(b".make ")?;
    text.extend(argument)?;
    text.extend(b")")
}

fn module_name(alloc: Global, i: u64) -> Result<String, AllocError>
    ensures { IfOk result (λ name. string_bytes name ≡ module_name i) }
{
    format!(in alloc; "M{i}")
}

fn digits(alloc: Global, n: u64) -> Result<String, AllocError>
    ensures { IfOk result (λ digits. string_bytes digits ≡ decimal n) }
{
    format!(in alloc; "{n}")
}
