// The code of a program.

ghost use Rattle.std.specs.Prelude.{◌≡◌, ◌<◌, ◌^◌, IfOk, length};
ghost use Rattle.ac_terms.specs.Read.{environment_of, expr_of};
ghost use Rattle.ac_generate.specs.Generated.{program_code};
ghost use Rattle.acute_listings.specs.Listing.{listing_of};

use crate::blocks::listing;
use ac_code::CodeTable;
use ac_generate::{generate, generate_entries};
use ac_terms::{Env, Home, Term};
use ac_types::{Memory, Text};
use std::alloc::Global;

/// The listing of a program's blocks: those of its entries in order, and then that of its term.
pub fn code_text(alloc: Global, env: &Env, main: &Term) -> Result<Text, Memory>
    requires { length env.now.entries < 2 ^ 32 }
    ensures { IfOk result (λ text. text.0 ≡
        listing_of (program_code (environment_of env.now) (expr_of main.now))) }
{
    let mut table = CodeTable::new(alloc);
    generate_entries(alloc, env, 0, &mut table)?;
    generate(alloc, env, Home::Main, main, &mut table)?;
    listing(alloc, &table)
}
