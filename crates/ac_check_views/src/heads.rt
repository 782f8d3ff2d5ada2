// What a type is at the top.

ghost use Rattle.std.specs.Prelude.{◌≡◌, ◌<◌, ◌^◌, length, unwrap_or, option_map};
ghost use Rattle.std.specs.Option.{option_copied};
ghost use Rattle.ac_types.specs.ReadTypes.{typ_of};
ghost use Rattle.ac_terms.specs.Read.{environment_of};
ghost use Rattle.ac_rules.specs.Views.{head, unsealed};

use ac_rules::rep;
use ac_terms::Env;
use ac_types::Ty;

/// A type as it is at the top: its outermost abstract type opened, again and again. Nothing is
/// written out, and it takes no memory.
pub fn head<'a>(env: &'a Env, ty: &'a Ty) -> &'a Ty
    requires { length env.now.entries < 2 ^ 32 }
    ensures { typ_of result.now ≡ head (environment_of env.now) (typ_of ty.now) }
{
    let mut found = ty;
    for i in 0..env.len() {
        match unsealed(env, found) {
            None => return found,
            Some(next) => found = next,
        }
    }
    found
}

// What the outermost abstract type of a type stands for, where it stands for another type.
fn unsealed<'a>(env: &'a Env, ty: &'a Ty) -> Option<&'a Ty>
    requires { length env.now.entries < 2 ^ 32 }
    ensures { unwrap_or (option_map typ_of (option_copied result)) (typ_of ty.now) ≡
        unsealed (environment_of env.now) (typ_of ty.now) }
{
    match ty {
        Ty::Abs(name, word) => rep(env, name, word),
        _ => None,
    }
}
