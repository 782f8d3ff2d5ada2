// Names of other languages.

// What stands here for a name of another language.
const HABITS: &[(&[u8], &[u8])] = &[
    (
        b"print_endline",
        b"write `IO.print_string`, with `\\n` at the end of its string",
    ),
    (b"print_newline", b"write `IO.print_string \"\\n\"`"),
    (b"string_of_int", b"write `Str.of_int`"),
    (
        b"int_of_string",
        b"there is none: walk over the string by `Str.sub`",
    ),
    (b"failwith", b"write `raise (Failure s) : T`"),
    (b"invalid_arg", b"write `raise (Invalid_argument s) : T`"),
    (b"fst", b"write `match p with ((a : T), (b : U)) -> a end`"),
    (b"snd", b"write `match p with ((a : T), (b : U)) -> b end`"),
    (
        b"ref",
        b"there are no references: pass the value on to a recursive function",
    ),
    (b"begin", b"write parentheses in place of `begin` and `end`"),
    (
        b"function",
        b"write `fun (x : T) -> match x with .. end` in place of `function`",
    ),
    (
        b"printf",
        b"write `IO.print_string`, and join strings by `^`",
    ),
    (
        b"List",
        b"there is no `List`: write a function that goes over the list",
    ),
    (
        b"Printf",
        b"write `IO.print_string`, and join strings by `^`",
    ),
];

/// What to write in place of a name of another language.
pub fn habit(name: &[u8]) -> Option<&'static [u8]> {
    for (word, said) in HABITS {
        if *word == name {
            return Some(*said);
        }
    }
    None
}
