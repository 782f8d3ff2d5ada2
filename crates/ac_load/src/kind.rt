// Why a text is refused, and which.

use ac_load_causes::PartFault;
use ac_resolve::ScopeFault;
use ac_syntax::ParseFault;
use ac_types::Memory;

/// Why a text is refused: the first cause that applies, in this order. Definitions are counted in
/// the text, entries among all that are there.
#[derive(Clone, Copy, Debug, PartialEq, Eq)]
pub enum Kind {
    /// It has more than `LONGEST_TEXT` bytes: its length.
    TooLong { len: u64 },
    /// The place of the first byte at which no token, separator or whole comment begins.
    Lexical { at: u32 },
    /// The place of the first opener at which more than `MOST_OPENERS` are unclosed.
    TooDeep { at: u32 },
    /// Its tokens have no tree: the place of a token, or the text's length.
    Syntax { at: u32 },
    /// The place of the first name that isn't in scope.
    Unbound { at: u32 },
    /// The place of the first name that is repeated.
    Repeated { at: u32 },
    /// One more than the least limit that a count passes.
    TooMany { count: u32 },
    /// The first definition with an ill-typed field; the program's expression counts as the one
    /// behind the last.
    IllTyped { def: u32 },
    /// The first struct that doesn't cover its signature, and the first spec that it doesn't
    /// cover, types first.
    Signature { def: u32, spec: u32 },
    /// The first field that isn't valuable.
    NotValuable { def: u32, field: u32 },
    /// The first abstract type, of an import by version, without a likespec.
    LikeMissing { def: u32, spec: u32 },
    /// The first import without a link.
    Unresolved { def: u32 },
    /// Two entries with one name and two texts: the least second, and for it the least first.
    Clash { first: u32, second: u32 },
    Memory,
}

/// The first part that is refused, and why.
#[derive(Clone, Copy, Debug, PartialEq, Eq)]
pub struct Refusal {
    /// 0 for the program, k for the kth text of the shelf.
    pub part: u32,
    /// Why it is refused.
    pub kind: Kind,
}

impl From<Memory> for Kind {
    ghost use Rattle.std.specs.Prelude.{◌≡◌};
    ghost use Rattle.ac_load.specs.declared.kind.Kind.TheVariants as kind;

    ghost from_gives = { λ _ e. e ≡ kind.Memory };

    fn from(_e: Memory) -> Kind {
        Kind::Memory
    }
}

impl From<ParseFault> for Kind {
    ghost use Rattle.std.specs.Prelude.{◌≡◌};
    ghost use Rattle.ac_load.specs.Kinds.{parse_kind};

    ghost from_gives = { λ fault e. e ≡ parse_kind fault };

    fn from(fault: ParseFault) -> Kind {
        match fault {
            ParseFault::TooLong { len } => Kind::TooLong { len },
            ParseFault::Lexical { at } => Kind::Lexical { at },
            ParseFault::TooDeep { at } => Kind::TooDeep { at },
            ParseFault::Syntax { at } => Kind::Syntax { at },
            ParseFault::Memory => Kind::Memory,
        }
    }
}

impl From<ScopeFault> for Kind {
    ghost use Rattle.std.specs.Prelude.{◌≡◌};
    ghost use Rattle.ac_load.specs.Kinds.{fault_kind};

    ghost from_gives = { λ fault e. e ≡ fault_kind fault };

    fn from(fault: ScopeFault) -> Kind {
        match fault {
            ScopeFault::Unbound { at } => Kind::Unbound { at },
            ScopeFault::Repeated { at } => Kind::Repeated { at },
            ScopeFault::TooMany { count } => Kind::TooMany { count },
            ScopeFault::Memory => Kind::Memory,
        }
    }
}

impl From<PartFault> for Kind {
    ghost use Rattle.std.specs.Prelude.{◌≡◌};
    ghost use Rattle.ac_load.specs.Kinds.{part_kind};

    ghost from_gives = { λ fault e. e ≡ part_kind fault };

    fn from(fault: PartFault) -> Kind {
        match fault {
            PartFault::IllTyped { def } => Kind::IllTyped { def },
            PartFault::Signature { def, spec } => Kind::Signature { def, spec },
            PartFault::NotValuable { def, field } => Kind::NotValuable { def, field },
            PartFault::LikeMissing { def, spec } => Kind::LikeMissing { def, spec },
            PartFault::Unresolved { def } => Kind::Unresolved { def },
            PartFault::Clash { first, second } => Kind::Clash { first, second },
            PartFault::Memory => Kind::Memory,
        }
    }
}
