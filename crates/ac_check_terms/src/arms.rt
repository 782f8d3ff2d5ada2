// Arms, whose bodies have one type, choices and sequences.

ghost use Rattle.std.specs.Prelude.{◌≡◌, Option, Some, option_map, option_and_then};
ghost use Rattle.ac_types.specs.ReadTypes.{typ_of};
ghost use Rattle.ac_types.specs.Partial.{both_same, has, also, given};
ghost use Rattle.ac_rules.specs.Typing.{last_of};
ghost use Rattle.ac_types.specs.Types.{TBool, Typs};
ghost use Rattle.ac_check_views.specs.Sites.{typs_of};
ghost use Rattle.ac_check_terms.specs.inner.Parts.{arms_after, arms_from};

use ac_check_views::{Base, is_base};
use ac_types::{Many, Ty, same_types};

/// The type that both have.
pub fn both_same(a: Option<Ty>, b: Option<Ty>) -> Option<Ty>
    ensures { option_map typ_of result ≡ both_same (option_map typ_of a) (option_map typ_of b) }
{
    let Some(a) = a else {
        drop(b);
        return None;
    };
    let Some(b) = b else {
        drop(a);
        return None;
    };
    let same = same_types(&b, &a);
    drop(b);
    if same {
        Some(a)
    } else {
        drop(a);
        None
    }
}

/// Whether a test, where it has this type, is a bool.
pub fn is_test(test: Option<Ty>) -> bool
    ensures { result ≡ has (option_map typ_of test) TBool }
{
    let Some(test) = test else {
        return false;
    };
    let is_bool = is_base(&test, Base::Bool);
    drop(test);
    is_bool
}

/// The type of a choice, where its test is a bool and its sides have these types.
pub fn if_type(is_test: bool, so: Option<Ty>, otherwise: Option<Ty>) -> Option<Ty>
    ensures { option_map typ_of result ≡ given is_test
        (both_same (option_map typ_of so) (option_map typ_of otherwise)) }
{
    let side = both_same(so, otherwise);
    if is_test {
        side
    } else {
        drop(side);
        None
    }
}

/// The type of the arms up to one, from that of the arms before it and its own.
#[tactic(auto, using(crate::proofs::ArmLaws::go_laws))]
pub fn go_on(before: Option<Ty>, found: Ty) -> Option<Ty>
    ensures { (o : Option Typs) → arms_after (option_map typ_of before)
        (also (Some (typ_of found)) o) ≡ arms_from (option_map typ_of result) o }
{
    match before {
        None => Some(found),
        Some(first) => {
            let same = same_types(&found, &first);
            drop(found);
            if same {
                Some(first)
            } else {
                drop(first);
                None
            }
        }
    }
}

// The type of the last of a sequence's parts, where those before it are unit.
fn last_type(types: Many<Ty>) -> Option<Ty>
    ensures { option_map typ_of result ≡ last_of (typs_of types) }
{
    let mut types = types.into_vec();
    let last = types.pop()?;
    for ty in &types {
        if !is_base(ty, Base::Unit) {
            return None;
        }
    }
    Some(last)
}

/// The type of a sequence whose parts have these types.
pub fn sequence_type(types: Option<Many<Ty>>) -> Option<Ty>
    ensures { option_map typ_of result ≡ option_and_then last_of (option_map typs_of types) }
{
    match types {
        None => None,
        Some(types) => last_type(types),
    }
}
