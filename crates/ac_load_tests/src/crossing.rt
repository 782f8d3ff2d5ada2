// Shelves and refusals may cross threads.

use ac_load::{Refusal, Shelf};

fn crosses<T: Send + Sync>() {}

#[test]
fn shelves_and_refusals_cross(_rt: HostRuntime) {
    crosses::<Shelf>();
    crosses::<Refusal>();
}
