// Primitives.

ghost use Rattle.std.specs.Prelude.{◌≡◌, [], ◌∷◌, length, map, option_map, option_and_then, MatchOption};
ghost use Rattle.ac_types.specs.Types.{TInt, TStr, TTuple, no_types, typ, typs, same_all};
ghost use Rattle.ac_types.specs.ReadNumbers.{primitive_number};
ghost use Rattle.ac_types.specs.ReadTypes.{typ_of};
ghost use Rattle.ac_terms.specs.PrimitiveTypes.{primitive_type, by_rules, takes_one, takes_two, comparison};
ghost use Rattle.ac_check_views.specs.Sites.{base_typ, typs_of};

use ac_check_views::{Base, is_base, tuple_parts};
use ac_types::{Many, Primitive, Ty};

// Whether the types are these, in order.
fn are(args: &[Ty], bases: &[Base]) -> bool
    ensures { result ≡ same_all (typs (map base_typ bases.now)) (typs_of args.now) }
{
    if args.len() != bases.len() {
        return false;
    }
    for i in 0..args.len() {
        if !is_base(&args[i], bases[i]) {
            return false;
        }
    }
    true
}

// What a primitive of one argument gives.
#[tactic(auto, using(ac_types::proofs::SizeLaws::type_laws))]
fn of_one(args: &[Ty], base: Base, to: Ty) -> Option<Ty>
    ensures { option_map typ_of result ≡ by_rules (takes_one (base_typ base) (typ_of to) ∷ [])
        (typs_of args.now) }
{
    if are(args, &[base]) {
        Some(to)
    } else {
        drop(to);
        None
    }
}

// What a primitive of two arguments of one type gives.
#[tactic(auto, using(ac_types::proofs::SizeLaws::type_laws))]
fn of_two(args: &[Ty], base: Base, to: Ty) -> Option<Ty>
    ensures { option_map typ_of result ≡ by_rules (takes_two (base_typ base) (typ_of to) ∷ [])
        (typs_of args.now) }
{
    if are(args, &[base, base]) {
        Some(to)
    } else {
        drop(to);
        None
    }
}

// The type of an equation or a comparison.
#[tactic(auto, using(ac_types::proofs::SizeLaws::type_laws))]
fn comparison_type(args: &[Ty]) -> Option<Ty>
    ensures { option_map typ_of result ≡ by_rules comparison (typs_of args.now) }
{
    let numbers = are(args, &[Base::Int, Base::Int]);
    let truths = are(args, &[Base::Bool, Base::Bool]);
    let texts = are(args, &[Base::Str, Base::Str]);
    if numbers || truths || texts {
        Some(Ty::Bool)
    } else {
        None
    }
}

// The one type that there is.
fn only(args: &[Ty]) -> Option<&Ty>
    ensures { MatchOption result (length args.now ≡ 1 → ⊥) (λ t. args.now ≡ t.now ∷ []) }
{
    if args.len() == 1 {
        Some(&args[0])
    } else {
        None
    }
}

// The type of a part of a text.
#[tactic(auto, using(ac_types::proofs::SizeLaws::type_laws))]
fn slice_type(args: &[Ty]) -> Option<Ty>
    ensures { option_map typ_of result ≡ by_rules
        (takes_one (TTuple (typ TStr (typ TInt (typ TInt no_types)))) TStr ∷ [])
        (typs_of args.now) }
{
    let Some(arg) = only(args) else {
        return None;
    };
    let parts = tuple_parts(arg)?;
    if are(parts.as_slice(), &[Base::Str, Base::Int, Base::Int]) {
        Some(Ty::Str)
    } else {
        None
    }
}

// The type of a primitive at such arguments.
#[tactic(auto, using(ac_types::proofs::SizeLaws::type_laws))]
fn primitive_type(primitive: Primitive, args: &[Ty]) -> Option<Ty>
    ensures { option_map typ_of result ≡ primitive_type (primitive_number primitive)
        (typs_of args.now) }
{
    match primitive {
        Primitive::Add => of_two(args, Base::Int, Ty::Int),
        Primitive::Sub => of_two(args, Base::Int, Ty::Int),
        Primitive::Mul => of_two(args, Base::Int, Ty::Int),
        Primitive::Div => of_two(args, Base::Int, Ty::Int),
        Primitive::Rem => of_two(args, Base::Int, Ty::Int),
        Primitive::Neg => of_one(args, Base::Int, Ty::Int),
        Primitive::Eq => comparison_type(args),
        Primitive::Lt => comparison_type(args),
        Primitive::Concat => of_two(args, Base::Str, Ty::Str),
        Primitive::Not => of_one(args, Base::Bool, Ty::Bool),
        Primitive::PrintInt => of_one(args, Base::Int, Ty::Unit),
        Primitive::PrintString => of_one(args, Base::Str, Ty::Unit),
        Primitive::Send => of_one(args, Base::Str, Ty::Unit),
        Primitive::Receive => of_one(args, Base::Unit, Ty::Str),
        Primitive::Length => of_one(args, Base::Str, Ty::Int),
        Primitive::SubString => slice_type(args),
        Primitive::OfInt => of_one(args, Base::Int, Ty::Str),
    }
}

/// The type of a primitive's result, where its arguments have these types.
pub fn result_type(primitive: Primitive, args: Option<Many<Ty>>) -> Option<Ty>
    ensures { option_map typ_of result ≡ option_and_then
        (primitive_type (primitive_number primitive)) (option_map typs_of args) }
{
    match args {
        None => None,
        Some(args) => primitive_type(primitive, args.as_slice()),
    }
}
