// The sizes of types.

ghost use Rattle.std.specs.Prelude.{◌≡◌, map};
ghost use Rattle.ac_types.specs.ReadTypes.{typ_of};
ghost use Rattle.ac_resolve_signatures.specs.KnownScopes.{size_of, size_of_leaf, size_of_none, around, side_by_side};
ghost use Rattle.ac_resolve_signatures.specs.inner.TypeSizes.{sizes_after};

use ac_types::Ty;
use ac_types::limits::{HIGHEST_TYPE, MOST_TYPE_PARTS};

// How many parts are counted: one past the limit.
const PARTS_COUNTED: usize = MOST_TYPE_PARTS as usize + 1;

/// The size of a type written out, in which each name stands for its type.
#[derive(Clone, Copy, PartialEq, Eq)]
pub struct Size {
    /// Its parts, of which at most one more than `MOST_TYPE_PARTS` are counted.
    pub parts: usize,
    /// Its height, of which at most one more than `HIGHEST_TYPE` is counted.
    pub height: usize,
}

impl Size {
    /// That of a type without parts.
    pub fn leaf() -> Size
        ensures { result ≡ size_of_leaf }
    {
        Size {
            parts: 1,
            height: 1,
        }
    }

    /// That of no type.
    pub fn none() -> Size
        ensures { result ≡ size_of_none }
    {
        Size {
            parts: 0,
            height: 0,
        }
    }

    /// That of a type around one of this size.
    pub fn around(self) -> Size
        ensures { result ≡ around self }
    {
        Size {
            parts: self.parts.min(MOST_TYPE_PARTS as usize) + 1,
            height: self.height.min(HIGHEST_TYPE as usize) + 1,
        }
    }

    /// That of two types side by side.
    pub fn beside(self, other: Size) -> Size
        ensures { result ≡ side_by_side self other }
    {
        let parts = self.parts.min(PARTS_COUNTED) + other.parts.min(PARTS_COUNTED);
        Size {
            parts: parts.min(PARTS_COUNTED),
            height: self.height.max(other.height),
        }
    }
}

/// The size of a type of an entry.
#[cycle(ty_size)]
#[tactic(auto, using(crate::proofs::Forms::typ_forms))]
pub fn ty_size(ty: &Ty) -> Size
    ensures { result ≡ size_of (typ_of ty.now) }
{
    match ty {
        Ty::Int => Size::leaf(),
        Ty::Bool => Size::leaf(),
        Ty::Str => Size::leaf(),
        Ty::Unit => Size::leaf(),
        Ty::Exn => Size::leaf(),
        Ty::Tuple(parts) => sizes(parts.as_slice()).around(),
        Ty::List(item) => ty_size(item).around(),
        Ty::Opt(item) => ty_size(item).around(),
        Ty::Fun(from, to) => ty_size(from).beside(ty_size(to)).around(),
        Ty::Abs(_, _) => Size::leaf(),
        Ty::Mine(_) => Size::leaf(),
    }
}

#[cycle(ty_size)]
fn sizes(tys: &[Ty]) -> Size
    ensures { result ≡ sizes_after size_of_none (map typ_of tys.now) }
{
    let mut found = Size::none();
    for ty in tys {
        let here = ty_size(ty);
        found = found.beside(here);
    }
    found
}
