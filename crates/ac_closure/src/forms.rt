// What the packet forms of definitions speak of.

ghost use Rattle.std.specs.Prelude.{◌≡◌, map};
ghost use Rattle.ac_types.specs.ReadTypes.{typed_of, sig_type_of, sig_of};
ghost use Rattle.ac_terms.specs.Defs.{AModule, AnImport};
ghost use Rattle.ac_terms.specs.Parts.{sig_types, def_parts};
ghost use Rattle.ac_terms.specs.Read.{field_of, module_of_code, import_of_code, entry_of};
ghost use Rattle.ac_rules.specs.Needed.{form_of};
ghost use Rattle.ac_closure.specs.inner.Chosen.{with_types, with_parts};
ghost use Rattle.ac_closure.specs.inner.Forms.{manifest_types, types_beside, field_parts};
ghost use Rattle.ac_closure.specs.inner.Names.{entry_named};

use crate::names::Names;
use crate::terms::add_term;
use crate::types::add_type;
use ac_terms::{Def, Entry, Field, Import, Module};
use ac_types::{Sig, SigType, TyField};

/// Adds the entries that the packet form of an entry speaks of: a module before the mark is cut to
/// its signature.
#[tactic(auto, using(crate::proofs::FormLaws::form_laws))]
pub fn add_form(set: &mut [bool], names: &Names, entry: &Entry, before: bool)
    ensures { let e = entry_of entry.now in set.new ≡ with_parts (entry_named names.now) set.old
        (def_parts (form_of e.def e.name e.seen before)) }
{
    match &entry.def {
        Def::Module(m) => match &entry.name {
            None => add_module(set, names, m),
            Some(_) => {
                if before {
                    add_sig(set, names, &m.sig);
                } else {
                    add_module(set, names, m);
                }
            }
        },
        Def::Import(i) => add_import(set, names, i),
        Def::Mark(_) => {}
    }
}

// Adds those of a whole module.
fn add_module(set: &mut [bool], names: &Names, m: &Module)
    ensures { set.new ≡ with_parts (entry_named names.now) set.old
        (def_parts (AModule (module_of_code m.now))) }
{
    add_sig(set, names, &m.sig);
    add_typed(set, names, m.types.as_slice());
    add_fields(set, names, m.fields.as_slice());
}

// Adds those of an import.
fn add_import(set: &mut [bool], names: &Names, i: &Import)
    ensures { set.new ≡ with_parts (entry_named names.now) set.old
        (def_parts (AnImport (import_of_code i.now))) }
{
    add_sig(set, names, &i.sig);
    add_typed(set, names, i.like.as_slice());
}

// Adds what a signature mentions.
#[tactic(auto, using(crate::proofs::FormLaws::form_laws))]
fn add_sig(set: &mut [bool], names: &Names, sig: &Sig)
    ensures { set.new ≡ with_types (entry_named names.now) set.old (sig_types (sig_of sig.now)) }
{
    add_manifest(set, names, sig.types.as_slice());
    add_typed(set, names, sig.vals.as_slice());
}

// Adds what manifest types mention.
#[tactic(auto, using(crate::proofs::FormLaws::form_laws))]
fn add_manifest(set: &mut [bool], names: &Names, types: &[SigType])
    ensures { set.new ≡ with_types (entry_named names.now) set.old
        (manifest_types (map sig_type_of types.now)) }
{
    for spec in types {
        match &spec.manifest {
            None => {}
            Some(ty) => add_type(set, names, ty),
        }
    }
}

// Adds what the types beside names mention.
#[tactic(auto, using(crate::proofs::FormLaws::form_laws))]
fn add_typed(set: &mut [bool], names: &Names, typed: &[TyField])
    ensures { set.new ≡ with_types (entry_named names.now) set.old
        (types_beside (map typed_of typed.now)) }
{
    for one in typed {
        add_type(set, names, &one.ty);
    }
}

// Adds what fields speak of.
#[tactic(auto, using(crate::proofs::FormLaws::form_laws))]
fn add_fields(set: &mut [bool], names: &Names, fields: &[Field])
    ensures { set.new ≡ with_parts (entry_named names.now) set.old
        (field_parts (map field_of fields.now)) }
{
    for field in fields {
        add_type(set, names, &field.ty);
        add_term(set, names, &field.term);
    }
}
