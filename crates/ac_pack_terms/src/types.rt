// The visit of types.

ghost use Rattle.std.specs.Prelude.{◌≡◌, ◌++◌, ◌<◌, ◌^◌, OnOk, length};
ghost use Rattle.ac_types.specs.Types.{mentions_of_all};
ghost use Rattle.ac_types.specs.ReadTypes.{typ_of};
ghost use Rattle.ac_terms.specs.Heads.{type_heads};
ghost use Rattle.ac_check_views.specs.Sites.{typs_of};
ghost use Rattle.ac_pack_terms.specs.Spoken.{spoken_by_type, first_named};
ghost use Rattle.ac_pack_terms.specs.Pieces.{entries_at};
ghost use Rattle.ac_pack_terms.specs.inner.Goes.{Visits};

use crate::piece::PackContext;
use crate::walk::Walk;
use ac_canon::type_bytes;
use ac_pack_heads as heads;
use ac_pack_heads::Stop;
use ac_types::{Many, Memory, Ty};
use std::alloc::Global;

impl<'a> Walk<'a> {
    /// Visits a type, which is one part.
    #[tactic(auto, using(crate::proofs::WalkLaws::step_laws))]
    pub fn ty(&mut self, alloc: Global, ty: &Ty) -> Result<(), Stop>
        requires { length self.old.site.env.now.entries < 2 ^ 32 }
        ensures { Visits result (type_heads (typ_of ty.now))
            (spoken_by_type (entries_at self.old.site) (typ_of ty.now)) self.old self.new }
    {
        let bytes = type_bytes(alloc, ty)?;
        speak_of(&mut self.roots, &self.site, ty)?;
        heads::write_head(&mut self.text, 0, bytes.as_slice())
    }
}

// Speaks of the first definition of each name that a type mentions.
#[cycle(mentions)]
#[tactic(auto, using(crate::proofs::TypeLaws::mention_laws))]
fn speak_of<'a>(roots: &mut Many<u32>, site: &PackContext<'a>, ty: &Ty) -> Result<(), Memory>
    requires { length site.now.env.now.entries < 2 ^ 32 }
    ensures { OnOk result (roots.new ≡ roots.old ++ spoken_by_type (entries_at site.now)
        (typ_of ty.now)) }
{
    match ty {
        Ty::Int => Ok(()),
        Ty::Bool => Ok(()),
        Ty::Str => Ok(()),
        Ty::Unit => Ok(()),
        Ty::Exn => Ok(()),
        Ty::Tuple(parts) => speak_of_all(roots, site, parts.as_slice()),
        Ty::List(item) => speak_of(roots, site, item),
        Ty::Opt(item) => speak_of(roots, site, item),
        Ty::Fun(from, to) => {
            speak_of(roots, site, from)?;
            speak_of(roots, site, to)
        }
        Ty::Abs(name, _word) => match site.env.find(name) {
            None => Ok(()),
            Some(entry) => roots.push(entry),
        },
        Ty::Mine(_) => Ok(()),
    }
}

#[cycle(mentions)]
#[tactic(auto, using(crate::proofs::TypeLaws::mention_laws))]
fn speak_of_all<'a>(roots: &mut Many<u32>, site: &PackContext<'a>, tys: &[Ty]) -> Result<(), Memory>
    requires { length site.now.env.now.entries < 2 ^ 32 }
    ensures { OnOk result (roots.new ≡ roots.old ++ first_named (entries_at site.now)
        (mentions_of_all (typs_of tys.now))) }
{
    for ty in tys {
        speak_of(roots, site, ty)?;
    }
    Ok(())
}
