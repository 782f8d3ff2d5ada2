// What abstract types are at the top, each found once.

ghost use Rattle.std.specs.Prelude.{◌≡◌, ◌<◌, ◌^◌, IfOk, IfSome, length};
ghost use Rattle.ac_types.specs.ReadTypes.{typ_of};
ghost use Rattle.ac_terms.specs.Defs.{Environment};
ghost use Rattle.ac_terms.specs.Read.{environment_of};
ghost use Rattle.ac_rules.specs.Views.{head};
ghost use Rattle.ac_check.specs.inner.Heads.{AreHeads, IsEnd, StepsTo};

use ac_check_views::head;
use ac_rules::rep;
use ac_terms::Env;
use ac_types::{Memory, Ty};
use std::alloc::Global;
use std::collections::BTreeMap;

// A name, and the word of one of its abstract types. A sender chooses both, so they aren't hashed.
type Key<'a> = ([u8; 32], &'a [u8]);

/// What a type is after so many openings of its outermost abstract type, which no more change.
#[derive(Clone, Copy)]
pub struct End<'a> {
    ty: &'a Ty,
    openings: usize,
}

// What is known of a type at once, or what it is after one opening.
#[derive(Clone, Copy)]
enum Step<'a> {
    End(End<'a>),
    Next(Key<'a>, &'a Ty),
}

/// What the abstract types of an environment that were met are at the top.
#[derive(Drop)]
pub struct Heads<'a> {
    found: BTreeMap<Key<'a>, End<'a>>,
}

impl<'a> Heads<'a> {
    /// None, which takes no memory.
    pub fn new(alloc: Global) -> Heads<'a>
        ensures { (E : Environment) → AreHeads E result }
    {
        Heads {
            found: BTreeMap::new(alloc),
        }
    }

    /// A type as it is at the top: its outermost abstract type opened, again and again. It goes down
    /// to the first abstract type that is known, and notes those on the way.
    pub fn head(&mut self, env: &'a Env, ty: &'a Ty) -> Result<&'a Ty, Memory>
        requires few { length env.now.entries < 2 ^ 32 }
        requires heads { AreHeads (environment_of env.now) self.old }
        ensures heads { AreHeads (environment_of env.now) self.new }
        ensures head { IfOk result (λ t. typ_of t.now ≡ head (environment_of env.now) (typ_of ty.now)) }
    {
        if let Step::End(
            End {
                ty: at,
                openings: _,
            },
        ) = self.step(env, ty)
        {
            return Ok(at);
        }
        match self.end(env, ty) {
            None => Ok(head(env, ty)),
            Some(end) => {
                self.note(env, ty, end)?;
                Ok(end.ty)
            }
        }
    }

    fn step(&self, env: &'a Env, ty: &'a Ty) -> Step<'a>
        requires few { length env.now.entries < 2 ^ 32 }
        requires heads { AreHeads (environment_of env.now) self.now }
        ensures { StepsTo (environment_of env.now) (typ_of ty.now) result }
    {
        match ty {
            Ty::Abs(name, word) => {
                let key = (name.0, word.text().as_slice());
                match self.found.get(&key).copied() {
                    Some(end) => Step::End(end),
                    None => match rep(env, name, word) {
                        Some(next) => Step::Next(key, next),
                        None => Step::End(End { ty, openings: 0 }),
                    },
                }
            }
            _ => Step::End(End { ty, openings: 0 }),
        }
    }

    // `None` where no end comes within an opening for each entry.
    fn end(&self, env: &'a Env, ty: &'a Ty) -> Option<End<'a>>
        requires few { length env.now.entries < 2 ^ 32 }
        requires heads { AreHeads (environment_of env.now) self.now }
        ensures { IfSome result (IsEnd (environment_of env.now) (typ_of ty.now)) }
    {
        let most = env.len();
        let mut here = ty;
        for before in 0..most + 1 {
            match self.step(env, here) {
                Step::Next(_, next) => here = next,
                Step::End(end) => {
                    let openings = before + end.openings;
                    if openings > most {
                        return None;
                    }
                    return Some(End {
                        ty: end.ty,
                        openings,
                    });
                }
            }
        }
        None
    }

    // Notes the end of a type, and of those that it is on the way there.
    fn note(&mut self, env: &'a Env, ty: &'a Ty, end: End<'a>) -> Result<(), Memory>
        requires few { length env.now.entries < 2 ^ 32 }
        requires heads { AreHeads (environment_of env.now) self.old }
        requires end { IsEnd (environment_of env.now) (typ_of ty.now) end }
        ensures { AreHeads (environment_of env.now) self.new }
    {
        let mut here = ty;
        for before in 0..end.openings {
            match self.step(env, here) {
                Step::End(_) => return Ok(()),
                Step::Next(key, next) => {
                    let openings = end.openings - before;
                    self.found.insert(
                        key,
                        End {
                            ty: end.ty,
                            openings,
                        },
                    )?;
                    here = next;
                }
            }
        }
        Ok(())
    }
}
