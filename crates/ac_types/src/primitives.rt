// The primitives: their numbers, their names, and how many arguments they take.

ghost use Rattle.std.specs.Prelude.{◌≡◌, map, option_map, MatchOption, true, false};
ghost use Rattle.std.specs.List.{find};
ghost use Rattle.ac_types.specs.Types.{same_bytes};
ghost use Rattle.ac_types.specs.Primitives.{primitive_name, is_primitive, primitive_called};
ghost use Rattle.ac_types.specs.ReadNumbers.{primitive_number, arity};

/// A primitive.
#[derive(Clone, Copy, Debug, PartialEq, Eq)]
pub enum Primitive {
    /// `+` of two ints.
    Add,
    /// `-` of two ints.
    Sub,
    /// `*` of two ints.
    Mul,
    /// `/` of two ints.
    Div,
    /// `mod` of two ints.
    Rem,
    /// `-` of an int.
    Neg,
    /// `=`.
    Eq,
    /// `<`.
    Lt,
    /// `^` of two strings.
    Concat,
    /// `not`.
    Not,
    /// `IO.print_int`.
    PrintInt,
    /// `IO.print_string`.
    PrintString,
    /// `IO.send`.
    Send,
    /// `IO.receive`.
    Receive,
    /// `Str.length`.
    Length,
    /// `Str.sub`.
    SubString,
    /// `Str.of_int`.
    OfInt,
}

// In the order of their numbers.
const EVERY: &[Primitive] = &[
    Primitive::Add,
    Primitive::Sub,
    Primitive::Mul,
    Primitive::Div,
    Primitive::Rem,
    Primitive::Neg,
    Primitive::Eq,
    Primitive::Lt,
    Primitive::Concat,
    Primitive::Not,
    Primitive::PrintInt,
    Primitive::PrintString,
    Primitive::Send,
    Primitive::Receive,
    Primitive::Length,
    Primitive::SubString,
    Primitive::OfInt,
];

impl Primitive {
    /// Its number, from 0 to 16.
    pub fn number(self) -> u8
        ensures { result ≡ primitive_number self }
    {
        match self {
            Primitive::Add => 0,
            Primitive::Sub => 1,
            Primitive::Mul => 2,
            Primitive::Div => 3,
            Primitive::Rem => 4,
            Primitive::Neg => 5,
            Primitive::Eq => 6,
            Primitive::Lt => 7,
            Primitive::Concat => 8,
            Primitive::Not => 9,
            Primitive::PrintInt => 10,
            Primitive::PrintString => 11,
            Primitive::Send => 12,
            Primitive::Receive => 13,
            Primitive::Length => 14,
            Primitive::SubString => 15,
            Primitive::OfInt => 16,
        }
    }

    /// The primitive of that number, `None` exactly where there is none.
    pub fn from_number(number: u8) -> Option<Primitive>
        ensures { MatchOption result (is_primitive number ≡ false)
            (λ p. (is_primitive number ≡ true) × (number ≡ primitive_number p)) }
    {
        match number {
            0 => Some(Primitive::Add),
            1 => Some(Primitive::Sub),
            2 => Some(Primitive::Mul),
            3 => Some(Primitive::Div),
            4 => Some(Primitive::Rem),
            5 => Some(Primitive::Neg),
            6 => Some(Primitive::Eq),
            7 => Some(Primitive::Lt),
            8 => Some(Primitive::Concat),
            9 => Some(Primitive::Not),
            10 => Some(Primitive::PrintInt),
            11 => Some(Primitive::PrintString),
            12 => Some(Primitive::Send),
            13 => Some(Primitive::Receive),
            14 => Some(Primitive::Length),
            15 => Some(Primitive::SubString),
            16 => Some(Primitive::OfInt),
            _ => None,
        }
    }

    /// Its name in listings.
    pub fn name(self) -> &'static [u8]
        ensures { result.now ≡ primitive_name (primitive_number self) }
    {
        match self {
            Primitive::Add => b"add",
            Primitive::Sub => b"sub",
            Primitive::Mul => b"mul",
            Primitive::Div => b"div",
            Primitive::Rem => b"mod",
            Primitive::Neg => b"neg",
            Primitive::Eq => b"eq",
            Primitive::Lt => b"lt",
            Primitive::Concat => b"concat",
            Primitive::Not => b"not",
            Primitive::PrintInt => b"print_int",
            Primitive::PrintString => b"print_string",
            Primitive::Send => b"send",
            Primitive::Receive => b"receive",
            Primitive::Length => b"length",
            Primitive::SubString => b"sub_string",
            Primitive::OfInt => b"of_int",
        }
    }

    /// The primitive of that name, `None` exactly where there is none.
    #[tactic(auto, unfolding(crate::specs::Primitives::primitive_called))]
    pub fn from_name(name: &[u8]) -> Option<Primitive>
        ensures { option_map primitive_number result ≡ primitive_called name.now }
    {
        called(EVERY, name)
    }

    /// How many arguments it takes.
    pub fn arity(self) -> u8
        ensures { result ≡ arity self }
    {
        match self {
            Primitive::Add | Primitive::Sub | Primitive::Mul | Primitive::Div | Primitive::Rem => 2,
            Primitive::Eq | Primitive::Lt | Primitive::Concat => 2,
            Primitive::Neg | Primitive::Not => 1,
            Primitive::PrintInt | Primitive::PrintString => 1,
            Primitive::Send | Primitive::Receive => 1,
            Primitive::Length | Primitive::SubString | Primitive::OfInt => 1,
        }
    }
}

// The first of some primitives that has the name.
fn called(all: &[Primitive], name: &[u8]) -> Option<Primitive>
    ensures { option_map primitive_number result ≡ find
        (λ k. same_bytes (primitive_name k) name.now) (map primitive_number all.now) }
{
    for primitive in all {
        if primitive.name() == name {
            return Some(*primitive);
        }
    }
    None
}
