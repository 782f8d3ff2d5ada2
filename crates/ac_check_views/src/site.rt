// Where a term stands.

use ac_terms::{Env, Home};

/// Where a term stands: the entries, its home, and how many of the home's fields and how many
/// entries it may refer to.
#[derive(Clone, Copy)]
pub struct Site<'a> {
    /// The entries.
    pub env: &'a Env,
    /// Whose code the term is.
    pub home: Home,
    /// The number of the home's fields that it may refer to, the first ones.
    pub own: usize,
    /// The number of the entries that it may refer to, the first ones.
    pub refs: usize,
}
