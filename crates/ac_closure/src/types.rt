// What types mention.

ghost use Rattle.std.specs.Prelude.{◌≡◌, map};
ghost use Rattle.ac_types.specs.Types.{mentions, mentions_of_all, typs};
ghost use Rattle.ac_types.specs.ReadTypes.{typ_of};
ghost use Rattle.ac_closure.specs.inner.Chosen.{with_mentions};
ghost use Rattle.ac_closure.specs.inner.Names.{entry_named};

use crate::names::{Names, entry_named};
use crate::set::add_found;
use ac_types::Ty;

/// Adds the first entry of each name that a type mentions.
#[cycle(ty)]
#[tactic(auto, using(crate::proofs::WalkLaws::type_laws))]
pub fn add_type(set: &mut [bool], names: &Names, ty: &Ty)
    ensures { set.new ≡ with_mentions (entry_named names.now) set.old (mentions (typ_of ty.now)) }
{
    match ty {
        Ty::Int => {}
        Ty::Bool => {}
        Ty::Str => {}
        Ty::Unit => {}
        Ty::Exn => {}
        Ty::Tuple(parts) => add_types(set, names, parts.as_slice()),
        Ty::List(item) => add_type(set, names, item),
        Ty::Opt(item) => add_type(set, names, item),
        Ty::Fun(from, to) => {
            add_type(set, names, from);
            add_type(set, names, to);
        }
        Ty::Abs(name, _) => add_found(set, entry_named(names, name)),
        Ty::Mine(_) => {}
    }
}

// Adds those of each type.
#[cycle(ty)]
#[tactic(auto, using(crate::proofs::WalkLaws::type_laws))]
fn add_types(set: &mut [bool], names: &Names, tys: &[Ty])
    ensures { set.new ≡ with_mentions (entry_named names.now) set.old
        (mentions_of_all (typs (map typ_of tys.now))) }
{
    for ty in tys {
        add_type(set, names, ty);
    }
}
