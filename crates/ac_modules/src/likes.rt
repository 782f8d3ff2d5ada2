// Likespecs.

ghost use Rattle.std.specs.Prelude.{◌≡◌, ◌<◌, ◌^◌, length, map};
ghost use Rattle.ac_types.specs.Partial.{first_failing};
ghost use Rattle.ac_types.specs.ReadTypes.{typed_of, sig_type_of};
ghost use Rattle.ac_terms.specs.Read.{import_of_code};
ghost use Rattle.ac_rules.specs.Modules.{like_missing};
ghost use Rattle.ac_modules.specs.inner.Asked.{has_like};

use ac_terms::Import;
use ac_types::{SigType, TyField, type_named};

/// The first abstract type of an import's signature without a likespec, `None` exactly where each
/// has one.
pub fn like_missing(i: &Import) -> Option<u32>
    requires { length i.now.sig.types < 2 ^ 32 }
    ensures { result ≡ like_missing (import_of_code i.now) }
{
    let at = first_without(i.sig.types.as_slice(), i.like.as_slice())?;
    Some(at as u32)
}

fn first_without(types: &[SigType], like: &[TyField]) -> Option<usize>
    ensures { result ≡ first_failing (has_like (map typed_of like.now))
        (map sig_type_of types.now) }
{
    types.iter().position(|x| !has_like(x, like))
}

fn has_like(x: &SigType, like: &[TyField]) -> bool
    ensures { result ≡ has_like (map typed_of like.now) (sig_type_of x.now) }
{
    x.manifest.is_some() || type_named(like, &x.name).is_some()
}
