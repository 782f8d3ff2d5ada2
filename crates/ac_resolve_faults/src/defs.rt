// Why definitions are refused for their names and counts.

ghost use Rattle.std.specs.Prelude.{◌≡◌, [], map, option_map, unwrap_or, IfOk, OnOk};
ghost use Rattle.ac_types.specs.ReadTypes.{resolve_of};
ghost use Rattle.ac_syntax.specs.ReadTrees.{name_of, abbrev_of, abbrevs_of, spec_of, field_tree_of, wants_of, def_tree_of};
ghost use Rattle.ac_resolve_signatures.specs.Joined.{flaws_joined};
ghost use Rattle.ac_resolve_signatures.specs.KnownScopes.{known_outside};
ghost use Rattle.ac_resolve_signatures.specs.SigFlaws.{past_abbrev, abbrev_flaws, flaws_in, spec_members, sig_flaws};
ghost use Rattle.ac_resolve_faults.specs.inner.DefFlaws.{past_field, field_flaws, struct_flaws, like_flaws, wants_flaws, demand_flaws, def_flaws, past_def};
ghost use Rattle.ac_resolve_signatures.specs.NameFlaws.{name_flaws};
ghost use Rattle.ac_resolve_signatures.specs.Reads.{known_in, members_of, externals_of};

use crate::atoms::atom_flaws;
use crate::exprs::flaws;
use crate::lists::{FieldTypes, FieldValues, LikeTypes};
use crate::scope::VariableScope;
use ac_resolve_signatures::{
    Externals, Flaws, Scan, Shown, list_flaws, name_flaws, outside_of, picked_names, put_outside,
    shown_sig, type_flaws, walk_abbrev,
};
use ac_syntax::{SAbbrev, SDef, SDefKind, SField, SName, SSpec, SWants};
use ac_types::{Many, Memory, Resolve};
use std::alloc::Global;

/// What is wrong with a definition, behind which it is called by its name.
pub fn def_flaws<'a>(
    alloc: Global,
    externals: &mut Externals<'a>,
    def: &'a SDef,
) -> Result<Flaws, Memory>
    ensures flaws { IfOk result (λ f. f ≡ def_flaws (externals_of externals.old)
        (def_tree_of def.now)) }
    ensures externals { OnOk result (externals_of externals.new
        ≡ past_def (externals_of externals.old) (def_tree_of def.now)) }
{
    match &def.kind {
        SDefKind::Module {
            name,
            sig,
            version: _,
            fields,
        } => {
            let specs = sig.specs.as_slice();
            let shown = module_flaws(alloc, externals, name, specs, fields.as_slice())?;
            put_outside(externals, &name.word, shown.outside)?;
            Ok(shown.flaws)
        }
        SDefKind::Import {
            name,
            sig,
            wants,
            like,
            by,
        } => {
            let demand = demand_flaws(externals, name, wants, by.as_slice());
            let specs = sig.specs.as_slice();
            let shown = import_flaws(alloc, externals, demand, specs, like)?;
            put_outside(externals, &name.word, shown.outside)?;
            Ok(shown.flaws)
        }
        SDefKind::Mark { .. } => Ok(Flaws::none()),
    }
}

fn module_flaws<'a>(
    alloc: Global,
    externals: &Externals<'a>,
    name: &SName,
    specs: &'a [SSpec],
    fields: &'a [SField],
) -> Result<Shown<'a>, Memory>
    ensures flaws { IfOk result (λ s. s.flaws ≡ flaws_joined (name_flaws (name_of name.now))
        (flaws_joined (sig_flaws (externals_of externals.now) (map spec_of specs.now))
        (struct_flaws (externals_of externals.now) (map field_tree_of fields.now)))) }
    ensures outside { IfOk result (λ s. members_of s.outside
        ≡ spec_members (known_outside (externals_of externals.now)) (map spec_of specs.now)) }
{
    let found = shown_sig(alloc, externals, specs)?;
    let body = struct_flaws(alloc, externals, fields)?;
    Ok(Shown {
        flaws: name_flaws(name).join(found.flaws.join(body)),
        outside: found.outside,
    })
}

fn import_flaws<'a>(
    alloc: Global,
    externals: &Externals<'a>,
    demand: Flaws,
    specs: &'a [SSpec],
    like: &'a Option<Many<SAbbrev>>,
) -> Result<Shown<'a>, Memory>
    ensures flaws { IfOk result (λ s. s.flaws ≡ flaws_joined demand
        (flaws_joined (sig_flaws (externals_of externals.now) (map spec_of specs.now))
        (like_flaws (externals_of externals.now)
        (unwrap_or (option_map abbrevs_of like.now) [])))) }
    ensures outside { IfOk result (λ s. members_of s.outside
        ≡ spec_members (known_outside (externals_of externals.now)) (map spec_of specs.now)) }
{
    let found = shown_sig(alloc, externals, specs)?;
    let like = match like {
        None => Flaws::none(),
        Some(like) => like_flaws(alloc, externals, like.as_slice())?,
    };
    Ok(Shown {
        flaws: demand.join(found.flaws.join(like)),
        outside: found.outside,
    })
}

// What is wrong with the name of an import, what it wants and where it looks for it.
fn demand_flaws<'a>(
    externals: &Externals<'a>,
    name: &SName,
    wants: &'a SWants,
    by: &[Resolve],
) -> Flaws
    ensures { result ≡ demand_flaws (externals_of externals.now) (name_of name.now)
        (wants_of wants.now) (map resolve_of by.now) }
{
    name_flaws(name).join(wants_flaws(externals, wants).join(atom_flaws(by)))
}

fn wants_flaws<'a>(externals: &Externals<'a>, wants: &'a SWants) -> Flaws
    ensures { result ≡ wants_flaws (externals_of externals.now) (wants_of wants.now) }
{
    match wants {
        SWants::Ranges(_) => Flaws::none(),
        SWants::NameOf(name) => match outside_of(externals, &name.word) {
            None => Flaws::missing(Some(name.at)),
            Some(_) => Flaws::none(),
        },
    }
}

// What is wrong with a struct.
fn struct_flaws<'a>(
    alloc: Global,
    externals: &Externals<'a>,
    fields: &'a [SField],
) -> Result<Flaws, Memory>
    ensures { IfOk result (λ f. f
        ≡ struct_flaws (externals_of externals.now) (map field_tree_of fields.now)) }
{
    let types = picked_names(alloc, fields, &FieldTypes)?;
    let type_list = list_flaws(alloc, types.as_slice())?;
    let values = picked_names(alloc, fields, &FieldValues)?;
    let value_list = list_flaws(alloc, values.as_slice())?;
    let walked = walk_fields(alloc, externals, fields)?;
    Ok(type_list.join(value_list).join(walked))
}

fn walk_fields<'a>(
    alloc: Global,
    externals: &Externals<'a>,
    fields: &'a [SField],
) -> Result<Flaws, Memory>
    ensures { IfOk result (λ f. f ≡ flaws_in past_field field_flaws
        (known_outside (externals_of externals.now)) (map field_tree_of fields.now)) }
{
    let mut scan = Scan::new(alloc, externals);
    let mut found = Flaws::none();
    for field in fields {
        let here = walk_field(alloc, &mut scan, field)?;
        found = found.join(here);
    }
    Ok(found)
}

#[tactic(auto, using(crate::proofs::Scoping::scope_laws))]
fn walk_field<'a>(
    alloc: Global,
    scan: &mut Scan<'_, 'a>,
    field: &'a SField,
) -> Result<Flaws, Memory>
    ensures flaws { IfOk result (λ f. f
        ≡ field_flaws (known_in scan.old) (field_tree_of field.now)) }
    ensures scan { OnOk result (known_in scan.new
        ≡ past_field (known_in scan.old) (field_tree_of field.now)) }
{
    match field {
        SField::Abbrev(alias) => walk_abbrev(scan, alias),
        SField::Val(name, ty, body) => {
            let scope = VariableScope::Empty;
            let ty = type_flaws(ty, scan);
            let body = flaws(alloc, body, scan, &scope)?;
            scan.put_field(&name.word)?;
            Ok(ty.join(body))
        }
    }
}

// What is wrong with a likespec.
#[tactic(auto, using(crate::proofs::Forms::like_names))]
fn like_flaws<'a>(
    alloc: Global,
    externals: &Externals<'a>,
    like: &'a [SAbbrev],
) -> Result<Flaws, Memory>
    ensures { IfOk result (λ f. f
        ≡ like_flaws (externals_of externals.now) (map abbrev_of like.now)) }
{
    let types = picked_names(alloc, like, &LikeTypes)?;
    let list = list_flaws(alloc, types.as_slice())?;
    let walked = walk_like(alloc, externals, like)?;
    Ok(list.join(walked))
}

fn walk_like<'a>(
    alloc: Global,
    externals: &Externals<'a>,
    like: &'a [SAbbrev],
) -> Result<Flaws, Memory>
    ensures { IfOk result (λ f. f ≡ flaws_in past_abbrev abbrev_flaws
        (known_outside (externals_of externals.now)) (map abbrev_of like.now)) }
{
    let mut scan = Scan::new(alloc, externals);
    let mut found = Flaws::none();
    for alias in like {
        let here = walk_abbrev(&mut scan, alias)?;
        found = found.join(here);
    }
    Ok(found)
}
