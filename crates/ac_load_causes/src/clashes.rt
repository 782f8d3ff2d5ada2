// Entries of one name with two texts.

ghost use Rattle.std.specs.Prelude.{◌≡◌, ◌<◌, ◌^◌, IsSome, length, option_map, IfOk};
ghost use Rattle.ac_terms.specs.Read.{environment_of};
ghost use Rattle.ac_terms.specs.Names.{text_of_entry};
ghost use Rattle.ac_load_rules.specs.Causes.{first_entry_clash};
ghost use Rattle.ac_types.specs.Partial.{differ};
ghost use Rattle.ac_load_causes.specs.inner.Named.{clash};

use crate::names::{Numbers, number_under, set_number};
use ac_canon::{def_text, told_name};
use ac_terms::Env;
use ac_types::Memory;
use std::alloc::Global;
use std::collections::BTreeMap;

/// The least entry, second here, that has the name of an earlier one and another text, and the
/// least of these. Texts are made only where a name comes again.
pub fn first_entry_clash(alloc: Global, env: &Env) -> Result<Option<(u32, u32)>, Memory>
    requires { length env.now.entries < 2 ^ 32 }
    ensures { IfOk result (λ o. option_map clash o ≡ first_entry_clash (environment_of env.now)) }
{
    let mut firsts: Numbers = BTreeMap::new(alloc);
    for second in 0..env.len() as u32 {
        if let Some(name) = told_name(env, second) {
            match number_under(&firsts, name) {
                None => set_number(&mut firsts, name, second)?,
                Some(first) => {
                    if differ(alloc, env, first, second)? {
                        return Ok(Some((first, second)));
                    }
                }
            }
        }
    }
    Ok(None)
}

// Whether two entries have two texts.
fn differ(alloc: Global, env: &Env, i: u32, j: u32) -> Result<bool, Memory>
    requires first { IsSome (text_of_entry (environment_of env.now) i) }
    requires second { IsSome (text_of_entry (environment_of env.now) j) }
    ensures { IfOk result (λ b. b ≡ differ (text_of_entry (environment_of env.now) i)
        (text_of_entry (environment_of env.now) j)) }
{
    let text = def_text(alloc, env, i)?;
    let other = def_text(alloc, env, j)?;
    Ok(text.as_slice() != other.as_slice())
}
