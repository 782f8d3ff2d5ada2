// The definitions that trees become.

ghost use Rattle.std.specs.Prelude.{◌≡◌, ◌∷◌, [], ℕ, map, None, option_map, unwrap_or, IfOk};
ghost use Rattle.ac_types.specs.Sigs.{MyName};
ghost use Rattle.ac_types.specs.ReadTypes.{typed_of, constraint_of, resolve_of};
ghost use Rattle.ac_terms.specs.Defs.{AModule, AnImport};
ghost use Rattle.ac_terms.specs.Read.{module_of_code, import_of_code, def_of_code};
ghost use Rattle.ac_syntax.specs.Trees.{ModuleDef, ImportDef};
ghost use Rattle.ac_syntax.specs.ReadTrees.{name_of, sig_tree_of, version_of, wants_of, abbrevs_of, field_tree_of, def_tree_of};
ghost use Rattle.ac_resolve_scopes.specs.Unbound.{unbound_wants, unbound_demand};
ghost use Rattle.ac_resolve_scopes.specs.Scopes.{each_in};
ghost use Rattle.ac_resolve_scopes.specs.Definitions.{after_abbrev, abbrev_type, constraint_in, def_in};
ghost use Rattle.ac_resolve_names.specs.Fronts.{front_of};
ghost use Rattle.ac_resolve_terms.specs.inner.Bounds.{FieldsFit, DefFits};

use crate::structs::contents;
use crate::types::{like, signature};
use ac_resolve_names::Front;
use ac_syntax::{SAbbrev, SDef, SDefKind, SField, SName, SSig, SWants};
use ac_terms::{Def, Import, Module};
use ac_types::{Atom, Constraint, Many, Memory, Resolve, TyField, Version, both};
use std::alloc::Global;

/// The definition that a tree writes.
pub fn def(alloc: Global, front: &Front, tree: &SDef) -> Result<Def, Memory>
    requires bound { unbound_demand (front_of front.now) (def_tree_of tree.now) ≡ None }
    requires fits { DefFits (front_of front.now) (def_tree_of tree.now) }
    ensures { IfOk result (λ d. def_of_code d ≡ def_in (front_of front.now) (def_tree_of
        tree.now)) }
{
    match &tree.kind {
        SDefKind::Module {
            name,
            sig,
            version,
            fields,
        } => {
            let made = module(alloc, front, name, sig, version, fields.as_slice())?;
            Ok(Def::Module(made))
        }
        SDefKind::Import {
            name,
            sig,
            wants,
            like,
            by,
        } => {
            let made = import(alloc, front, name, sig, wants, like, by)?;
            Ok(Def::Import(made))
        }
        SDefKind::Mark { text_at: _, text } => text.copy(alloc).map(Def::Mark),
    }
}

fn module(
    alloc: Global,
    front: &Front,
    name: &SName,
    sig: &SSig,
    version: &Option<Version>,
    fields: &[SField],
) -> Result<Module, Memory>
    requires { FieldsFit (front_of front.now) (map field_tree_of fields.now) }
    ensures { IfOk result (λ m. (at : ℕ) → AModule (module_of_code m) ≡ def_in (front_of
        front.now)
        (ModuleDef at (name_of name.now) (sig_tree_of sig.now) (option_map version_of version.now)
        (map field_tree_of fields.now))) }
{
    let (types, fields) = contents(alloc, front, fields)?;
    let sig = signature(alloc, front, sig)?;
    let version = version_or_own(alloc, version)?;
    let name = name.word.copy(alloc)?;
    Ok(Module {
        name,
        version,
        sig,
        types,
        fields,
    })
}

// A version, `myname` where there is none.
fn version_or_own(alloc: Global, version: &Option<Version>) -> Result<Version, Memory>
    ensures { IfOk result (λ v. version_of v ≡
        unwrap_or (option_map version_of version.now) (MyName ∷ [])) }
{
    match version {
        Some(version) => version.copy(alloc),
        None => {
            let mut atoms = Many::new(alloc);
            atoms.push(Atom::MyName)?;
            Ok(Version { atoms })
        }
    }
}

fn import(
    alloc: Global,
    front: &Front,
    name: &SName,
    sig: &SSig,
    wants: &SWants,
    like: &Option<Many<SAbbrev>>,
    by: &Many<Resolve>,
) -> Result<Import, Memory>
    requires { unbound_wants (front_of front.now) (wants_of wants.now) ≡ None }
    ensures { IfOk result (λ i. (at : ℕ) → AnImport (import_of_code i) ≡ def_in (front_of
        front.now)
        (ImportDef at (name_of name.now) (sig_tree_of sig.now) (wants_of wants.now)
        (option_map abbrevs_of like.now) (map resolve_of by.now))) }
{
    let like = like_or_none(alloc, front, like)?;
    let sig = signature(alloc, front, sig)?;
    let (constraint, by) = both(constraint(alloc, front, wants), by.copy(alloc))?;
    let name = name.word.copy(alloc)?;
    Ok(Import {
        name,
        sig,
        constraint,
        like,
        by,
    })
}

// The types of a likespec, none where there is no likespec.
fn like_or_none(
    alloc: Global,
    front: &Front,
    abbrevs: &Option<Many<SAbbrev>>,
) -> Result<Many<TyField>, Memory>
    ensures { IfOk result (λ types. map typed_of types ≡ each_in after_abbrev abbrev_type
        (front_of front.now)
        (unwrap_or (option_map abbrevs_of abbrevs.now) [])) }
{
    match abbrevs {
        Some(abbrevs) => like(alloc, front, abbrevs.as_slice()),
        None => Ok(Many::new(alloc)),
    }
}

// What an import asks for: by exact name the name that the entry keeps which is called so.
fn constraint(alloc: Global, front: &Front, wants: &SWants) -> Result<Constraint, Memory>
    requires { unbound_wants (front_of front.now) (wants_of wants.now) ≡ None }
    ensures { IfOk result (λ c. constraint_of c ≡ constraint_in (front_of front.now) (wants_of
        wants.now)) }
{
    match wants {
        SWants::Ranges(constraint) => constraint.copy(alloc),
        SWants::NameOf(called) => match front.name_of(&called.word) {
            Some(name) => Ok(Constraint::Exact(name)),
            None => unreachable!(),
        },
    }
}
