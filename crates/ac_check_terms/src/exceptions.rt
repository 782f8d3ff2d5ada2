// Exceptions.

ghost use Rattle.std.specs.Prelude.{◌≡◌, Some, option_map};
ghost use Rattle.ac_types.specs.Partial.{given, has};
ghost use Rattle.ac_types.specs.Types.{TExn, TStr};
ghost use Rattle.ac_types.specs.ReadTypes.{typ_of};

use ac_check_views::{Base, is_base};
use ac_types::Ty;

/// The type of an exception whose text has this type.
#[tactic(auto, using(ac_types::proofs::SizeLaws::type_laws))]
pub fn text_exception_type(text: Option<Ty>) -> Option<Ty>
    ensures { option_map typ_of result ≡ given (has (option_map typ_of text) TStr) (Some TExn) }
{
    let text = text?;
    let is_text = is_base(&text, Base::Str);
    drop(text);
    if is_text { Some(Ty::Exn) } else { None }
}
