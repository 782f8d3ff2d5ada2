// The texts of modules that stand beside a program.

ghost use Rattle.std.specs.Prelude.{◌≡◌, []};
ghost use Rattle.ac_load_rules.specs.Accepting.{IsShelf};
ghost use Rattle.ac_load.specs.Loading.{shelf_of};

use ac_types::{Many, Text};
use std::alloc::Global;

/// A text of the shelf.
#[derive(Drop)]
pub struct ShelfEntry {
    /// The URI by which imports ask for it.
    pub uri: Text,
    /// The text of one module.
    pub text: Text,
}

/// The texts beside a program, in their order.
#[derive(Drop)]
pub struct Shelf(pub Many<ShelfEntry>);

impl Shelf {
    /// A shelf without texts. It takes no memory.
    pub fn empty(alloc: Global) -> Shelf
        ensures none { result.0 ≡ [] }
        ensures shelved { IsShelf (shelf_of result) }
    {
        Shelf(Many::new(alloc))
    }
}
