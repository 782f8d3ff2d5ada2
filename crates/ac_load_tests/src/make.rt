// Modules and imports of letters. Want of memory ends the test.

use ac_terms::{Def, Entry, Field, Import, Module, Seen, Term};
use ac_types::{
    Atom, Boxed, Constraint, Many, Name, Range, Resolve, Sig, SigType, Text, Ty, TyField, Version,
    Word,
};
use std::alloc::Global;
use std::process::Abort;

/// Items of three letters with a blank between them, the last two a name and a type: behind `=` a
/// type of a signature (`.` where it is abstract), behind `:` a value, behind `~` a type of the
/// struct or of the likespec, and behind `#` a field, which is `()`.
pub type Shape = &'static [u8];

pub const EMPTY: Shape = b"";

/// What an import asks of a module: a version in these ranges, and whether a star follows, or the
/// name that has a byte throughout.
#[derive(Clone, Copy)]
pub enum Asked {
    Ranges(&'static [Range], bool),
    Exact(u8),
}

/// Any version.
pub const ANY: Asked = Asked::Ranges(&[], true);

/// The text of that one letter.
pub fn text(rt: &impl Abort, alloc: Global, letter: u8) -> Text {
    Text::from_slice(alloc, &[letter]).expect(rt, "memory")
}

// The identifier of that letter.
fn word(rt: &impl Abort, alloc: Global, letter: u8) -> Word {
    Word::new(text(rt, alloc, letter)).expect(rt, "a word")
}

/// The item in a box.
pub fn boxed<T: Drop>(rt: &impl Abort, alloc: Global, item: T) -> Boxed<T> {
    Boxed::new(alloc, item).expect(rt, "memory")
}

fn mine(rt: &impl Abort, alloc: Global, letter: u8) -> Ty {
    Ty::Mine(word(rt, alloc, letter))
}

fn function_of(rt: &impl Abort, alloc: Global, from: Ty, to: Ty) -> Ty {
    let from = boxed(rt, alloc, from);
    Ty::Fun(from, boxed(rt, alloc, to))
}

fn pair_of(rt: &impl Abort, alloc: Global, first: Ty, second: Ty) -> Ty {
    let mut parts = Many::new(alloc);
    parts.push(first).expect(rt, "memory");
    parts.push(second).expect(rt, "memory");
    Ty::Tuple(parts)
}

// The type of that letter. A capital has the own types `t` and `u` where its small letter has bool
// and int, and `G` has `t` and int; a digit is the type `t` of the definition whose name has that
// digit throughout.
fn ty(rt: &impl Abort, alloc: Global, letter: u8) -> Ty {
    match letter {
        b'i' => Ty::Int,
        b'b' => Ty::Bool,
        b't' | b'u' => mine(rt, alloc, letter),
        b'l' => Ty::List(boxed(rt, alloc, Ty::Bool)),
        b'L' => Ty::List(boxed(rt, alloc, mine(rt, alloc, b't'))),
        b'o' => Ty::Opt(boxed(rt, alloc, Ty::Bool)),
        b'O' => Ty::Opt(boxed(rt, alloc, mine(rt, alloc, b't'))),
        b'f' => function_of(rt, alloc, Ty::Bool, Ty::Int),
        b'F' => function_of(rt, alloc, mine(rt, alloc, b't'), mine(rt, alloc, b'u')),
        b'G' => function_of(rt, alloc, mine(rt, alloc, b't'), Ty::Int),
        b'p' => pair_of(rt, alloc, Ty::Bool, Ty::Int),
        b'P' => pair_of(rt, alloc, mine(rt, alloc, b't'), mine(rt, alloc, b'u')),
        digit => Ty::Abs(Name([digit; 32]), word(rt, alloc, b't')),
    }
}

fn manifest(rt: &impl Abort, alloc: Global, letter: u8) -> Option<Ty> {
    if letter == b'.' {
        None
    } else {
        Some(ty(rt, alloc, letter))
    }
}

fn sig_types(rt: &impl Abort, alloc: Global, shape: Shape) -> Many<SigType> {
    let mut all = Many::new(alloc);
    for item in shape.chunks(4) {
        if let [b'=', name, letter, ..] = item {
            let item = SigType {
                name: word(rt, alloc, *name),
                manifest: manifest(rt, alloc, *letter),
            };
            all.push(item).expect(rt, "memory");
        }
    }
    all
}

// The items behind that mark.
fn typed(rt: &impl Abort, alloc: Global, shape: Shape, behind: u8) -> Many<TyField> {
    let mut all = Many::new(alloc);
    for item in shape.chunks(4) {
        if let [mark, name, letter, ..] = item
            && *mark == behind
        {
            let item = TyField {
                name: word(rt, alloc, *name),
                ty: ty(rt, alloc, *letter),
            };
            all.push(item).expect(rt, "memory");
        }
    }
    all
}

fn fields(rt: &impl Abort, alloc: Global, shape: Shape) -> Many<Field> {
    let mut all = Many::new(alloc);
    for item in shape.chunks(4) {
        if let [b'#', name, letter, ..] = item {
            let item = Field {
                name: word(rt, alloc, *name),
                ty: ty(rt, alloc, *letter),
                term: Term::Unit,
            };
            all.push(item).expect(rt, "memory");
        }
    }
    all
}

fn sig(rt: &impl Abort, alloc: Global, shape: Shape) -> Sig {
    Sig {
        types: sig_types(rt, alloc, shape),
        vals: typed(rt, alloc, shape, b':'),
    }
}

/// A module of that external name and version.
pub fn module(rt: &impl Abort, alloc: Global, name: u8, version: &[Atom], shape: Shape) -> Module {
    let atoms = Many::from_slice(alloc, version).expect(rt, "memory");
    Module {
        name: word(rt, alloc, name),
        version: Version { atoms },
        sig: sig(rt, alloc, shape),
        types: typed(rt, alloc, shape, b'~'),
        fields: fields(rt, alloc, shape),
    }
}

fn constraint(rt: &impl Abort, alloc: Global, asked: Asked) -> Constraint {
    match asked {
        Asked::Exact(byte) => Constraint::Exact(Name([byte; 32])),
        Asked::Ranges(ranges, star) => {
            let atoms = Many::from_slice(alloc, ranges).expect(rt, "memory");
            Constraint::Ranges { atoms, star }
        }
    }
}

// An import by exact name has no likespec.
fn like(rt: &impl Abort, alloc: Global, shape: Shape, asked: Asked) -> Many<TyField> {
    match asked {
        Asked::Ranges(_, _) => typed(rt, alloc, shape, b'~'),
        Asked::Exact(_) => Many::new(alloc),
    }
}

/// An import of the external name `M`.
pub fn import(rt: &impl Abort, alloc: Global, shape: Shape, asked: Asked, by: &[u8]) -> Import {
    Import {
        name: word(rt, alloc, b'M'),
        sig: sig(rt, alloc, shape),
        constraint: constraint(rt, alloc, asked),
        like: like(rt, alloc, shape, asked),
        by: resolvespec(rt, alloc, by),
    }
}

// `S` is `Static_Link` and `H` is `Here_Already`; any other letter is a URI.
fn resolvespec(rt: &impl Abort, alloc: Global, letters: &[u8]) -> Many<Resolve> {
    let mut all = Many::new(alloc);
    for letter in letters {
        let atom = match *letter {
            b'S' => Resolve::StaticLink,
            b'H' => Resolve::HereAlready,
            uri => Resolve::Uri(text(rt, alloc, uri)),
        };
        all.push(atom).expect(rt, "memory");
    }
    all
}

/// The entry of a definition, under the name that has that byte throughout unless it is a mark.
pub fn entry(def: Def, byte: u8, seen: Seen) -> Entry {
    let name = match &def {
        Def::Mark(_) => None,
        Def::Module(_) | Def::Import(_) => Some(Name([byte; 32])),
    };
    Entry {
        def,
        name,
        seen,
        link: None,
    }
}
