// The primitives of the standard modules.

ghost use Rattle.std.specs.Prelude.{◌≡◌, IfOk, option_map};
ghost use Rattle.ac_types.specs.ReadNumbers.{primitive_number};
ghost use Rattle.ac_types.specs.ReadTypes.{typ_of};
ghost use Rattle.ac_terms.specs.Read.{expr_of};
ghost use Rattle.ac_resolve_names.specs.declared.primitive.NamedPrimitive.TheVariants.{Sub};
ghost use Rattle.ac_resolve_scopes.specs.Standard.{beside_name, standard, io, str_primitives, primitive_named};
ghost use Rattle.ac_resolve_scopes.specs.Scopes.{primitive_of, primitive_function};
ghost use Rattle.ac_resolve_names.specs.Primitives.{read_primitive, builtins_of};

use ac_terms::Term;
use ac_types::{Boxed, Many, Memory, Primitive, Ty, Word, both};
use std::alloc::Global;

/// A primitive that is called by a name.
#[derive(Clone, Copy, PartialEq, Eq)]
pub enum NamedPrimitive {
    /// `IO.print_int`.
    PrintInt,
    /// `IO.print_string`.
    PrintString,
    /// `IO.send`.
    Send,
    /// `IO.receive`.
    Receive,
    /// `Str.length`.
    Length,
    /// `Str.sub`.
    Sub,
    /// `Str.of_int`.
    OfInt,
}

impl NamedPrimitive {
    /// The primitive.
    pub fn primitive(self) -> Primitive
        ensures { primitive_number result ≡ (read_primitive self).number }
    {
        match self {
            NamedPrimitive::PrintInt => Primitive::PrintInt,
            NamedPrimitive::PrintString => Primitive::PrintString,
            NamedPrimitive::Send => Primitive::Send,
            NamedPrimitive::Receive => Primitive::Receive,
            NamedPrimitive::Length => Primitive::Length,
            NamedPrimitive::Sub => Primitive::SubString,
            NamedPrimitive::OfInt => Primitive::OfInt,
        }
    }

    /// The type of its argument.
    #[tactic(auto, using(crate::proofs::TermForms::primitive_forms))]
    pub fn argument(self, alloc: Global) -> Result<Ty, Memory>
        ensures { IfOk result (λ ty. typ_of ty ≡ (read_primitive self).argument) }
    {
        match self {
            NamedPrimitive::PrintInt => Ok(Ty::Int),
            NamedPrimitive::PrintString => Ok(Ty::Str),
            NamedPrimitive::Send => Ok(Ty::Str),
            NamedPrimitive::Receive => Ok(Ty::Unit),
            NamedPrimitive::Length => Ok(Ty::Str),
            NamedPrimitive::Sub => text_and_range(alloc),
            NamedPrimitive::OfInt => Ok(Ty::Int),
        }
    }

    /// The primitive at its argument.
    #[tactic(auto, using(crate::proofs::TermForms::primitive_forms))]
    pub fn at(self, alloc: Global, argument: Term) -> Result<Term, Memory>
        ensures { IfOk result (λ t. expr_of t ≡ primitive_of (read_primitive self) (expr_of
            argument)) }
    {
        let mut arguments = Many::new(alloc);
        arguments.push(argument)?;
        Ok(Term::Prim(self.primitive(), arguments))
    }

    /// The function that applies it.
    #[tactic(auto, using(crate::proofs::TermForms::primitive_forms))]
    pub fn function(self, alloc: Global) -> Result<Term, Memory>
        ensures { IfOk result (λ t. expr_of t ≡ primitive_function (read_primitive self)) }
    {
        let body = self.at(alloc, Term::Var(0))?;
        let (argument, body) = both(self.argument(alloc), Boxed::new(alloc, body))?;
        Ok(Term::Lam(argument, body))
    }
}

// The type of a string with two ints.
#[tactic(auto, using(crate::proofs::TermForms::primitive_forms))]
fn text_and_range(alloc: Global) -> Result<Ty, Memory>
    ensures { IfOk result (λ ty. typ_of ty ≡ (read_primitive Sub).argument) }
{
    let mut parts = Many::new(alloc);
    parts.push(Ty::Str)?;
    parts.push(Ty::Int)?;
    parts.push(Ty::Int)?;
    Ok(Ty::Tuple(parts))
}

/// A standard module.
#[derive(Clone, Copy, PartialEq, Eq)]
pub enum Standard {
    /// `IO`.
    Io,
    /// `Str`.
    Str,
}

impl Standard {
    /// The standard module of that name.
    pub fn named(word: &Word) -> Option<Standard>
        ensures { option_map builtins_of result ≡ beside_name word.now standard }
    {
        let name = word.text().as_slice();
        if b"IO".as_slice() == name {
            return Some(Standard::Io);
        }
        if b"Str".as_slice() == name {
            return Some(Standard::Str);
        }
        None
    }

    /// The primitive of that name in it.
    pub fn primitive(self, word: &Word) -> Option<NamedPrimitive>
        ensures { option_map read_primitive result ≡ beside_name word.now (builtins_of self) }
    {
        let name = word.text().as_slice();
        match self {
            Standard::Io => primitive_of_io(name),
            Standard::Str => primitive_of_str(name),
        }
    }
}

fn primitive_of_io(name: &[u8]) -> Option<NamedPrimitive>
    ensures { option_map read_primitive result ≡ beside_name name.now io }
{
    if b"print_int".as_slice() == name {
        return Some(NamedPrimitive::PrintInt);
    }
    if b"print_string".as_slice() == name {
        return Some(NamedPrimitive::PrintString);
    }
    if b"send".as_slice() == name {
        return Some(NamedPrimitive::Send);
    }
    if b"receive".as_slice() == name {
        return Some(NamedPrimitive::Receive);
    }
    None
}

fn primitive_of_str(name: &[u8]) -> Option<NamedPrimitive>
    ensures { option_map read_primitive result ≡ beside_name name.now str_primitives }
{
    if b"length".as_slice() == name {
        return Some(NamedPrimitive::Length);
    }
    if b"sub".as_slice() == name {
        return Some(NamedPrimitive::Sub);
    }
    if b"of_int".as_slice() == name {
        return Some(NamedPrimitive::OfInt);
    }
    None
}

/// The primitive that a name after a module's name is.
pub fn named(standard: &Word, name: &Word) -> Option<NamedPrimitive>
    ensures { option_map read_primitive result ≡ primitive_named standard.now name.now }
{
    let standard = Standard::named(standard)?;
    standard.primitive(name)
}
