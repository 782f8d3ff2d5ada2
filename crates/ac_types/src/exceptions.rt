// The exceptions: their numbers, their names, and which have a text.

ghost use Rattle.std.specs.Prelude.{◌≡◌, IfOk, map, option_map, MatchOption, None, Some, true, false};
ghost use Rattle.std.specs.List.{find};
ghost use Rattle.ac_types.specs.Types.{same_bytes};
ghost use Rattle.ac_types.specs.Exceptions.{exception_name, is_exception_number, exception_called};
ghost use Rattle.ac_types.specs.ReadNumbers.{bare_number, texted_number, kind_number, exn_number, exn_text};

use crate::memory::Memory;
use crate::text::Text;
use std::alloc::Global;

/// An exception that has no text.
#[derive(Clone, Copy, Debug, PartialEq, Eq)]
pub enum BareExn {
    /// `Not_found`.
    NotFound,
    /// `Division_by_zero`.
    DivisionByZero,
    /// `Match_failure`.
    MatchFailure,
    /// `End_of_file`.
    EndOfFile,
}

/// An exception that has a text, without it.
#[derive(Clone, Copy, Debug, PartialEq, Eq)]
pub enum TextExn {
    /// `Failure`.
    Failure,
    /// `Invalid_argument`.
    InvalidArgument,
    /// `Sys_error`.
    SysError,
    /// `Marshal_failure`.
    MarshalFailure,
    /// `Unmarshal_failure`.
    UnmarshalFailure,
    /// `Resolve_failure`.
    ResolveFailure,
}

/// Which exception it is, whatever its text.
#[derive(Clone, Copy, Debug, PartialEq, Eq)]
pub enum ExnKind {
    /// One that has no text.
    Bare(BareExn),
    /// One that has a text.
    Text(TextExn),
}

/// An exception, with its text where it has one.
#[derive(Drop)]
pub enum Exn {
    /// One that has no text.
    Bare(BareExn),
    /// One that has this text.
    Text(TextExn, Text),
}

impl BareExn {
    /// Its number among all exceptions.
    pub fn number(self) -> u8
        ensures { result ≡ bare_number self }
    {
        match self {
            BareExn::NotFound => 2,
            BareExn::DivisionByZero => 3,
            BareExn::MatchFailure => 4,
            BareExn::EndOfFile => 5,
        }
    }

    /// Its name.
    pub fn name(self) -> &'static [u8]
        ensures { result.now ≡ exception_name (bare_number self) }
    {
        match self {
            BareExn::NotFound => b"Not_found",
            BareExn::DivisionByZero => b"Division_by_zero",
            BareExn::MatchFailure => b"Match_failure",
            BareExn::EndOfFile => b"End_of_file",
        }
    }
}

impl TextExn {
    /// Its number among all exceptions.
    pub fn number(self) -> u8
        ensures { result ≡ texted_number self }
    {
        match self {
            TextExn::Failure => 0,
            TextExn::InvalidArgument => 1,
            TextExn::SysError => 6,
            TextExn::MarshalFailure => 7,
            TextExn::UnmarshalFailure => 8,
            TextExn::ResolveFailure => 9,
        }
    }

    /// Its name.
    pub fn name(self) -> &'static [u8]
        ensures { result.now ≡ exception_name (texted_number self) }
    {
        match self {
            TextExn::Failure => b"Failure",
            TextExn::InvalidArgument => b"Invalid_argument",
            TextExn::SysError => b"Sys_error",
            TextExn::MarshalFailure => b"Marshal_failure",
            TextExn::UnmarshalFailure => b"Unmarshal_failure",
            TextExn::ResolveFailure => b"Resolve_failure",
        }
    }
}

// In the order of their numbers.
const EVERY: &[ExnKind] = &[
    ExnKind::Text(TextExn::Failure),
    ExnKind::Text(TextExn::InvalidArgument),
    ExnKind::Bare(BareExn::NotFound),
    ExnKind::Bare(BareExn::DivisionByZero),
    ExnKind::Bare(BareExn::MatchFailure),
    ExnKind::Bare(BareExn::EndOfFile),
    ExnKind::Text(TextExn::SysError),
    ExnKind::Text(TextExn::MarshalFailure),
    ExnKind::Text(TextExn::UnmarshalFailure),
    ExnKind::Text(TextExn::ResolveFailure),
];

impl ExnKind {
    /// Its number, from 0 to 9.
    pub fn number(self) -> u8
        ensures { result ≡ kind_number self }
    {
        match self {
            ExnKind::Bare(exn) => exn.number(),
            ExnKind::Text(exn) => exn.number(),
        }
    }

    /// The exception of that number, `None` exactly where there is none.
    pub fn from_number(number: u8) -> Option<ExnKind>
        ensures { MatchOption result (is_exception_number number ≡ false)
            (λ x. (is_exception_number number ≡ true) × (number ≡ kind_number x)) }
    {
        match number {
            0 => Some(ExnKind::Text(TextExn::Failure)),
            1 => Some(ExnKind::Text(TextExn::InvalidArgument)),
            2 => Some(ExnKind::Bare(BareExn::NotFound)),
            3 => Some(ExnKind::Bare(BareExn::DivisionByZero)),
            4 => Some(ExnKind::Bare(BareExn::MatchFailure)),
            5 => Some(ExnKind::Bare(BareExn::EndOfFile)),
            6 => Some(ExnKind::Text(TextExn::SysError)),
            7 => Some(ExnKind::Text(TextExn::MarshalFailure)),
            8 => Some(ExnKind::Text(TextExn::UnmarshalFailure)),
            9 => Some(ExnKind::Text(TextExn::ResolveFailure)),
            _ => None,
        }
    }

    /// Its name.
    pub fn name(self) -> &'static [u8]
        ensures { result.now ≡ exception_name (kind_number self) }
    {
        match self {
            ExnKind::Bare(exn) => exn.name(),
            ExnKind::Text(exn) => exn.name(),
        }
    }

    /// The exception of that name, `None` exactly where there is none.
    #[tactic(auto, unfolding(crate::specs::Exceptions::exception_called))]
    pub fn from_name(name: &[u8]) -> Option<ExnKind>
        ensures { option_map kind_number result ≡ exception_called name.now }
    {
        called(EVERY, name)
    }
}

// The first of some exceptions that has the name.
fn called(all: &[ExnKind], name: &[u8]) -> Option<ExnKind>
    ensures { option_map kind_number result ≡ find
        (λ k. same_bytes (exception_name k) name.now) (map kind_number all.now) }
{
    for kind in all {
        if kind.name() == name {
            return Some(*kind);
        }
    }
    None
}

impl Exn {
    /// Which exception it is.
    pub fn kind(&self) -> ExnKind
        ensures { kind_number result ≡ exn_number self.now }
    {
        match self {
            Exn::Bare(exn) => ExnKind::Bare(*exn),
            Exn::Text(exn, _) => ExnKind::Text(*exn),
        }
    }

    /// Its text, `None` exactly where it has none.
    pub fn text(&self) -> Option<&Text>
        ensures { MatchOption result (exn_text self.now ≡ None)
            (λ text. exn_text self.now ≡ Some text.now.0) }
    {
        match self {
            Exn::Bare(_) => None,
            Exn::Text(_, text) => Some(text),
        }
    }

    /// A copy that equals this one.
    pub fn copy(&self, alloc: Global) -> Result<Exn, Memory>
        ensures { IfOk result (λ c. c ≡ self.now) }
    {
        match self {
            Exn::Bare(exn) => Ok(Exn::Bare(*exn)),
            Exn::Text(exn, text) => text.copy(alloc).map(|text| Exn::Text(*exn, text)),
        }
    }
}
