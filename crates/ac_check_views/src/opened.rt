// What an abstract type stands for in a home.

ghost use Rattle.std.specs.Prelude.{◌≡◌, ◌<◌, ◌^◌, length, unwrap_or, option_map};
ghost use Rattle.std.specs.Option.{option_copied};
ghost use Rattle.ac_types.specs.Types.{TAbs};
ghost use Rattle.ac_types.specs.ReadTypes.{typ_of};
ghost use Rattle.ac_terms.specs.Read.{environment_of, home_of};
ghost use Rattle.ac_rules.specs.Views.{has_name, opened_at_home};
ghost use Rattle.ac_check_views.specs.Sites.{entries_of};

use crate::site::Site;
use ac_rules::rep;
use ac_terms::{Env, Home};
use ac_types::{Name, Ty, Word};

fn has_name(env: &Env, home: Home, name: &Name) -> bool
    ensures { result ≡ has_name (environment_of env.now) (home_of home) name.now.0 }
{
    match home {
        Home::Main => false,
        Home::In(i) => match env.entry(i) {
            None => false,
            Some(entry) => entry.keeps(name),
        },
    }
}

/// What an abstract type of the site's own home stands for, where it stands for another type.
#[tactic(auto, using(ac_types::proofs::SizeLaws::type_laws))]
pub fn opened<'a>(site: &'a Site<'a>, name: &'a Name, word: &'a Word) -> Option<&'a Ty>
    requires { length site.now.env.now.entries < 2 ^ 32 }
    ensures { unwrap_or (option_map typ_of (option_copied result))
        (TAbs name.now.0 word.now) ≡ opened_at_home (entries_of site.now) (home_of site.now.home)
        name.now.0 word.now }
{
    if has_name(site.env, site.home, name) {
        rep(site.env, name, word)
    } else {
        None
    }
}
