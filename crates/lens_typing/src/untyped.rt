// The first part of an expression that has no type.

ghost use Rattle.std.specs.Prelude.{◌<◌, ◌^◌, length};

use crate::parts::{InnerExpression, parts_of};
use ac_check::{CheckFault, type_of};
use ac_check_views::{Site, is_view_of};
use ac_syntax::SExpr;
use ac_terms::{Env, Home, Term};
use ac_types::{Many, Memory, Ty};
use std::alloc::Global;

// More steps than lead from a whole expression to any part of it.
const STEPS: usize = 1000;

/// Where an expression stands: among which entries, in which home, and how many own fields and how
/// many entries it may speak of.
#[derive(Clone, Copy)]
pub struct Standing<'a> {
    pub env: &'a Env,
    pub home: Home,
    pub own: u32,
    pub refs: u32,
}

impl Standing<'_> {
    /// The type of a term here, where it has one.
    pub fn type_of(&self, alloc: Global, term: &Term, vars: &Many<Ty>) -> Result<Option<Ty>, Memory>
        requires { length self.now.env.now.entries < 2 ^ 32 }
    {
        match type_of(alloc, self.env, self.home, self.own, self.refs, vars, term) {
            Ok(ty) => Ok(Some(ty)),
            Err(CheckFault::IllTyped) => Ok(None),
            Err(CheckFault::Memory) => Err(Memory),
        }
    }

    /// Whether a type is this one, which is written, as its home sees it.
    pub fn sees(&self, ty: &Ty, written: &Ty) -> bool
        requires { length self.now.env.now.entries < 2 ^ 32 }
    {
        let site = Site {
            env: self.env,
            home: self.home,
            own: self.own as usize,
            refs: self.refs as usize,
        };
        is_view_of(ty, written, &site)
    }
}

/// The type of a part, and the place where the part begins.
#[derive(Drop)]
pub struct Typed {
    pub at: u32,
    pub ty: Ty,
}

/// An expression that has no type, with the types of the variables in scope, the newest first, and
/// those of its parts in the order of evaluation.
#[derive(Drop)]
pub struct Untyped<'a> {
    pub tree: &'a SExpr,
    pub term: &'a Term,
    pub vars: Many<Ty>,
    pub parts: Many<Typed>,
}

// The types of the first parts, up to one that has none.
fn types_of(
    alloc: Global,
    standing: &Standing<'_>,
    parts: &[InnerExpression<'_>],
) -> Result<Many<Typed>, Memory>
    requires { length standing.now.env.now.entries < 2 ^ 32 }
{
    let mut found = Many::new(alloc);
    for part in parts {
        let Some(ty) = standing.type_of(alloc, part.term, &part.vars)? else {
            return Ok(found);
        };
        found.push(Typed {
            at: part.tree.at,
            ty,
        })?;
    }
    Ok(found)
}

/// The first part, in the order of evaluation, that has no type though all its parts have, of an
/// expression without one.
pub fn first_untyped<'a>(
    alloc: Global,
    standing: &Standing<'_>,
    tree: &'a SExpr,
    term: &'a Term,
) -> Result<Option<Untyped<'a>>, Memory>
    requires { length standing.now.env.now.entries < 2 ^ 32 }
{
    let mut whole = InnerExpression {
        tree,
        term,
        vars: Many::new(alloc),
    };
    for _ in 0..STEPS {
        let parts = parts_of(alloc, &whole)?;
        let found = types_of(alloc, standing, parts.as_slice())?;
        match parts.get(found.len()) {
            Some(part) => whole = part.copy(alloc)?,
            None => {
                let vars = whole.vars.copy(alloc)?;
                return Ok(Some(Untyped {
                    tree: whole.tree,
                    term: whole.term,
                    vars,
                    parts: found,
                }));
            }
        }
    }
    Ok(None)
}
