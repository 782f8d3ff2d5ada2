// What is shown of a program.
ghost use Rattle.std.specs.Prelude.{◌≡◌, ◌≤◌, ◌<◌, ◌^◌, IfOk, length};
ghost use Rattle.ac_types.specs.Limits.{most_shelf_entries};
ghost use Rattle.ac_terms.specs.Read.{environment_of, expr_of};
ghost use Rattle.ac_load_rules.specs.Accepting.{IsShelf};
ghost use Rattle.ac_load.specs.Loading.{shelf_of};
ghost use Rattle.acute_answers.specs.Answers.{answer_of};
ghost use Rattle.acute_answers.specs.Showing.{Shows, shown};

use crate::answer::Answer;
use crate::status::Status;
use ac_load::{Shelf, load};
use ac_rules::Loaded;
use ac_types::{Memory, Text};
use acute_listings::{code_text, names_text};
use std::alloc::Global;

/// What is shown of a program.
#[derive(Clone, Copy)]
pub enum Showing {
    /// The names of its definitions.
    Names,
    /// Its code.
    Code,
}

/// Shows that of the program of a text, beside a shelf of at most `MOST_SHELF_ENTRIES` texts, each
/// under a URI of its own. `Err` for want of memory.
pub fn show(alloc: Global, what: Showing, text: &[u8], shelf: &Shelf) -> Result<Answer, Memory>
    requires few { length shelf.now.0 ≤ most_shelf_entries }
    requires shelved { IsShelf (shelf_of shelf.now) }
    ensures { IfOk result (λ a. Shows what text.now (shelf_of shelf.now) (answer_of a)) }
{
    match load(alloc, text, shelf) {
        Ok(loaded) => {
            let shown = shown_text(alloc, what, &loaded);
            drop(loaded);
            Ok(Answer::printing(alloc, Status::FINISHED, shown?))
        }
        Err(refusal) => Answer::refused(alloc, refusal),
    }
}

// The text of what is shown of a program that is loaded.
fn shown_text(alloc: Global, what: Showing, loaded: &Loaded) -> Result<Text, Memory>
    requires { length loaded.now.env.entries < 2 ^ 32 }
    ensures { IfOk result (λ text. text.0 ≡
        shown what (environment_of loaded.now.env) (expr_of loaded.now.main)) }
{
    match what {
        Showing::Names => names_text(alloc, &loaded.env),
        Showing::Code => code_text(alloc, &loaded.env, &loaded.main),
    }
}
