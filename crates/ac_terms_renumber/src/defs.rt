// Whether the parts of definitions pass a test.

ghost use Rattle.std.specs.Prelude.{◌≡◌, ◌&&◌, true, map};
ghost use Rattle.std.specs.List.{list_all};
ghost use Rattle.std.specs.Option.{option_map_or};
ghost use Rattle.ac_types.specs.Sigs.{Typed_name, Sig_type};
ghost use Rattle.ac_types.specs.Types.{Typ};
ghost use Rattle.ac_types.specs.ReadTypes.{typed_of, sig_type_of, sig_of};
ghost use Rattle.ac_terms.specs.Defs.{Field as FieldOf, AModule, AnImport};
ghost use Rattle.ac_terms.specs.Parts.{OfType, sig_types, term_parts, def_parts};
ghost use Rattle.ac_terms.specs.Read.{field_of, module_of_code, import_of_code};

use crate::terms::term_passes;
use crate::test::Test;
use ac_terms::{Field, Import, Module};
use ac_types::{Sig, SigType, TyField};

/// Whether each part of a module passes.
pub fn module_passes<T: Test>(m: &Module, test: &T) -> bool
    ensures { result ≡ list_all (T.passes test.now) (def_parts (AModule (module_of_code m.now))) }
{
    // `&`, not `&&`: one branch fewer in the proof
    (sig_passes(&m.sig, test) & typed_pass(m.types.as_slice(), test))
        & fields_pass(m.fields.as_slice(), test)
}

/// Whether each part of an import passes.
pub fn import_passes<T: Test>(i: &Import, test: &T) -> bool
    ensures { result ≡ list_all (T.passes test.now) (def_parts (AnImport (import_of_code i.now))) }
{
    // `&`, not `&&`: one branch fewer in the proof
    sig_passes(&i.sig, test) & typed_pass(i.like.as_slice(), test)
}

// Whether each type that a signature writes passes.
fn sig_passes<T: Test>(sig: &Sig, test: &T) -> bool
    ensures { result ≡ list_all (T.passes test.now) (map OfType (sig_types (sig_of sig.now))) }
{
    // `&`, not `&&`: one branch fewer in the proof
    manifest_pass(sig.types.as_slice(), test) & typed_pass(sig.vals.as_slice(), test)
}

fn manifest_pass<T: Test>(types: &[SigType], test: &T) -> bool
    ensures { result ≡ list_all (λ (t : Sig_type). option_map_or (λ (U : Typ).
        T.passes test.now (OfType U)) t.manifest true) (map sig_type_of types.now) }
{
    for t in types {
        if !manifest_passes(t, test) {
            return false;
        }
    }
    true
}

fn manifest_passes<T: Test>(t: &SigType, test: &T) -> bool
    ensures { result ≡ option_map_or (λ (U : Typ). T.passes test.now (OfType U))
        (sig_type_of t.now).manifest true }
{
    match &t.manifest {
        None => true,
        Some(ty) => test.passes_type(ty),
    }
}

fn typed_pass<T: Test>(typed: &[TyField], test: &T) -> bool
    ensures { result ≡ list_all (λ (t : Typed_name). T.passes test.now (OfType t.ty))
        (map typed_of typed.now) }
{
    for t in typed {
        if !test.passes_type(&t.ty) {
            return false;
        }
    }
    true
}

fn fields_pass<T: Test>(fields: &[Field], test: &T) -> bool
    ensures { result ≡ list_all (λ (f : FieldOf). T.passes test.now (OfType f.ty) &&
        list_all (T.passes test.now) (term_parts f.term)) (map field_of fields.now) }
{
    for f in fields {
        if !field_passes(f, test) {
            return false;
        }
    }
    true
}

fn field_passes<T: Test>(f: &Field, test: &T) -> bool
    ensures { result ≡ (T.passes test.now (OfType (field_of f.now).ty) &&
        list_all (T.passes test.now) (term_parts (field_of f.now).term)) }
{
    // `&`, not `&&`: one branch fewer in the proof
    test.passes_type(&f.ty) & term_passes(&f.term, test)
}
