// What is wrong with a tree.

ghost use Rattle.std.specs.Prelude.{◌≡◌, ◌<◌, ◌^◌};
ghost use Rattle.ac_resolve_scopes.specs.Counts.{over};
ghost use Rattle.ac_resolve_signatures.specs.Joined.{flaws_joined, no_flaws, missing, repeats, counts};

use crate::least::least;

/// What is wrong with a tree, of each kind the first.
#[derive(Clone, Copy, PartialEq, Eq)]
pub struct Flaws {
    /// The least place of a name that isn't in scope.
    pub unbound: Option<u32>,
    /// The least place of a name that is repeated.
    pub repeated: Option<u32>,
    /// One more than the least limit that a count passes.
    pub count: Option<u32>,
}

impl Flaws {
    /// Nothing is wrong.
    pub fn none() -> Flaws
        ensures { result ≡ no_flaws }
    {
        Flaws {
            unbound: None,
            repeated: None,
            count: None,
        }
    }

    /// A name isn't in scope, where there is one.
    pub fn missing(at: Option<u32>) -> Flaws
        ensures { result ≡ missing at }
    {
        Flaws {
            unbound: at,
            repeated: None,
            count: None,
        }
    }

    /// The least place of a repetition, where there is one.
    pub fn repeated(at: Option<u32>) -> Flaws
        ensures { result ≡ repeats at }
    {
        Flaws {
            unbound: None,
            repeated: at,
            count: None,
        }
    }

    /// What is wrong with a count of so many.
    pub fn counted(limit: u32, count: usize) -> Flaws
        requires { limit < 2 ^ 31 }
        ensures { result ≡ counts (over limit count) }
    {
        Flaws {
            unbound: None,
            repeated: None,
            count: over(limit, count),
        }
    }

    /// What is wrong with two trees together.
    pub fn join(self, other: Flaws) -> Flaws
        ensures { result ≡ flaws_joined self other }
    {
        Flaws {
            unbound: least(self.unbound, other.unbound),
            repeated: least(self.repeated, other.repeated),
            count: least(self.count, other.count),
        }
    }
}

// One more than the limit, where a count passes it.
fn over(limit: u32, count: usize) -> Option<u32>
    requires { limit < 2 ^ 31 }
    ensures { result ≡ over limit count }
{
    if count <= limit as usize {
        None
    } else {
        Some(limit + 1)
    }
}
