// Programs that are ready to run.

use ac_terms::{Env, Term};
use ac_types::Ty;

/// A program that is ready to run.
#[derive(Drop)]
pub struct Loaded {
    /// Its definitions, with those that it links to.
    pub env: Env,
    /// The term of its expression.
    pub main: Term,
    /// The type of that term.
    pub ty: Ty,
}
