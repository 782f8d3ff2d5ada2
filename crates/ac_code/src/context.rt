// The types of the variables around lambdas.

ghost use Rattle.std.specs.Prelude.{◌≡◌, ◌++◌, ◌∷◌, [], map, IfOk, MatchOption};
ghost use Rattle.ac_types.specs.ReadTypes.{typ_of};
ghost use Rattle.ac_code.specs.Contexts.{context_of, types_left};

use crate::shared::Shared;
use ac_types::{Many, Memory, Ty};
use std::alloc::Global;

/// The types of the variables around a term. Contexts share what they have in common.
#[cycle(context)]
pub enum Context {
    /// None.
    Empty,
    /// Those of variables that were bound last, and those around them.
    Newer(Shared<Bound>),
}

/// The types of variables that are bound together, the newest first.
#[cycle(context)]
pub struct Bound {
    types: Many<Ty>,
    outer: Context,
}

impl Drop for Context {
    #[cycle(drop)]
    fn drop(self) {
        match self {
            Context::Empty | Context::Newer(_) => {}
        }
    }
}

impl Drop for Bound {
    #[cycle(drop)]
    fn drop(self) {
        let Bound { types: _, outer: _ } = self;
    }
}

impl Context {
    /// The same context; no type is copied.
    pub fn share(&self) -> Result<Context, Memory>
        ensures { IfOk result (λ c. c ≡ self.now) }
    {
        match self {
            Context::Empty => Ok(Context::Empty),
            Context::Newer(bound) => Ok(Context::Newer(bound.share()?)),
        }
    }

    /// The context inside of variables of these types, the newest first.
    #[tactic(auto, using(crate::proofs::ContextLaws::context_laws))]
    pub fn with(&self, alloc: Global, types: Many<Ty>) -> Result<Context, Memory>
        ensures { IfOk result (λ c. context_of c ≡ map typ_of types ++ context_of self.now) }
    {
        let outer = self.share()?;
        let bound = Shared::new(alloc, Bound { types, outer })?;
        Ok(Context::Newer(bound))
    }
}

/// Types of a context that are still to be read, the newest first.
#[derive(Clone, Copy)]
pub struct Variables<'a> {
    newer: &'a [Ty],
    older: Option<&'a Context>,
}

impl<'a> Variables<'a> {
    /// No types.
    pub fn none() -> Variables<'a>
        ensures { types_left result ≡ [] }
    {
        Variables {
            newer: &[],
            older: None,
        }
    }

    /// All types of a context.
    pub fn new(context: &'a Context) -> Variables<'a>
        ensures { types_left result ≡ context_of context.now }
    {
        Variables {
            newer: &[],
            older: Some(context),
        }
    }

    /// The newest type, and those that are left behind it.
    #[tactic(auto, using(crate::proofs::ContextLaws::context_laws))]
    pub fn next(&self) -> Option<(&'a Ty, Variables<'a>)>
        ensures { MatchOption result (types_left self.now ≡ []) (λ p. types_left self.now ≡
            typ_of p.0.now ∷ types_left p.1) }
    {
        let older = self.older;
        match self.newer.split_first() {
            Some((ty, newer)) => Some((ty, Variables { newer, older })),
            None => {
                let (ty, left) = newest(older?)?;
                Some((ty, left))
            }
        }
    }
}

// The newest type of a context, and those behind it.
#[tactic(auto, using(crate::proofs::ContextLaws::context_laws))]
fn newest<'a>(context: &'a Context) -> Option<(&'a Ty, Variables<'a>)>
    ensures { MatchOption result (context_of context.now ≡ []) (λ p. context_of context.now ≡
        typ_of p.0.now ∷ types_left p.1) }
{
    match context {
        Context::Empty => None,
        Context::Newer(bound) => {
            let outer = &bound.outer;
            match bound.types.as_slice().split_first() {
                Some((ty, newer)) => {
                    let older = Some(outer);
                    Some((ty, Variables { newer, older }))
                }
                None => {
                    let (ty, left) = newest(outer)?;
                    Some((ty, left))
                }
            }
        }
    }
}
