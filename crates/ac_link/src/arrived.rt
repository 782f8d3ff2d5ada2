// The entries at the end that have arrived.

ghost use Rattle.std.specs.Prelude.{◌≡◌, ℕ, ◌≤◌};
ghost use Rattle.ac_terms.specs.Read.{environment_of};
ghost use Rattle.ac_link.specs.Fronts.{IsFront};
ghost use Rattle.ac_link.specs.inner.Candidates.{arrived_at};

use ac_terms::{Env, Seen};

/// How many entries stand in front of those at the end that have arrived: the least number behind
/// which all have.
pub fn front(env: &Env) -> usize
    ensures front { IsFront (environment_of env.now) result }
    ensures least { (k : ℕ) → IsFront (environment_of env.now) k → result ≤ k }
{
    let mut front = env.len();
    while front > 0 {
        if !arrived_at(env, front - 1) {
            return front;
        }
        front -= 1;
    }
    0
}

fn arrived_at(env: &Env, j: usize) -> bool
    ensures { result ≡ arrived_at (environment_of env.now) j }
{
    match env.entries().get(j) {
        None => false,
        Some(entry) => matches!(&entry.seen, Seen::Arrived),
    }
}
