// What an import may link to.

ghost use Rattle.std.specs.Prelude.{◌≡◌, ◌+◌, ◌<◌, ◌^◌, length, map, option_map};
ghost use Rattle.std.specs.Result.{result_err};
ghost use Rattle.ac_types.specs.Partial.{first_failing, first_some};
ghost use Rattle.ac_types.specs.ReadTypes.{atom_of, range_of, sig_type_of, sig_of};
ghost use Rattle.ac_terms.specs.Read.{name_of_code, module_of_code, import_of_code, environment_of};
ghost use Rattle.ac_rules.specs.Links.{is_like, unlike, missing_spec, by_version, by_name, link_fault};
ghost use Rattle.ac_link.specs.LinkFaults.{fault_of};

use crate::fault::LinkFault;
use crate::signature::{missing_type, missing_val};
use ac_terms::{Def, Env, Import, Module};
use ac_types::{Constraint, Name, Range, Sig, SigType, same_types, type_named};
use ac_version::fit;

/// Whether an import may link to entry `j`; if not, the first condition that fails.
pub fn link_ok(env: &Env, import: &Import, j: u32) -> Result<(), LinkFault>
    requires { length import.now.sig.types + length import.now.sig.vals < 2 ^ 32 }
    ensures { option_map fault_of (result_err result) ≡ link_fault (environment_of env.now)
        (import_of_code import.now) j }
{
    match link_fault(env, import, j) {
        None => Ok(()),
        Some(fault) => Err(fault),
    }
}

#[tactic(auto, using(ac_terms::proofs::EnvLaws::env_laws))]
fn link_fault(env: &Env, import: &Import, j: u32) -> Option<LinkFault>
    requires { length import.now.sig.types + length import.now.sig.vals < 2 ^ 32 }
    ensures { option_map fault_of result ≡ link_fault (environment_of env.now)
        (import_of_code import.now) j }
{
    match env.entry(j) {
        None => Some(LinkFault::Kind),
        Some(entry) => match &entry.def {
            Def::Module(m) => match &import.constraint {
                Constraint::Ranges { atoms, star } => by_version(
                    m,
                    import,
                    atoms.as_slice(),
                    *star,
                ),
                Constraint::Exact(name) => by_name(m, import, &entry.name, name),
            },
            Def::Import(_) => Some(LinkFault::Kind),
            Def::Mark(_) => Some(LinkFault::Kind),
        },
    }
}

// The first condition that fails between a module and an import by version.
fn by_version(m: &Module, import: &Import, ranges: &[Range], star: bool) -> Option<LinkFault>
    requires { length import.now.sig.types + length import.now.sig.vals < 2 ^ 32 }
    ensures { option_map fault_of result ≡ first_some
        (by_version (module_of_code m.now) (import_of_code import.now) (map range_of ranges.now)
        star) }
{
    if !m.name.is(&import.name) {
        return Some(LinkFault::External);
    }
    if !fit(ranges, star, m.version.atoms.as_slice()) {
        return Some(LinkFault::Version);
    }
    if let Some(spec) = missing_spec(false, &m.sig, &import.sig) {
        return Some(LinkFault::Signature { spec });
    }
    match unlike(m, import) {
        None => None,
        Some(spec) => Some(LinkFault::Like { spec }),
    }
}

// The first condition that fails between a module and an import by exact name.
fn by_name(m: &Module, import: &Import, kept: &Option<Name>, name: &Name) -> Option<LinkFault>
    requires { length import.now.sig.types + length import.now.sig.vals < 2 ^ 32 }
    ensures { option_map fault_of result ≡ first_some
        (by_name (module_of_code m.now) (import_of_code import.now)
        (option_map name_of_code kept.now) name.now.0) }
{
    if !m.name.is(&import.name) {
        return Some(LinkFault::External);
    }
    if let Some(spec) = missing_spec(true, &m.sig, &import.sig) {
        return Some(LinkFault::Signature { spec });
    }
    match kept {
        None => Some(LinkFault::Name),
        Some(kept) if kept.0 == name.0 => None,
        Some(_) => Some(LinkFault::Name),
    }
}

// The first spec that a module's signature lacks, types first.
fn missing_spec(exact: bool, found: &Sig, wanted: &Sig) -> Option<u32>
    requires { length wanted.now.types + length wanted.now.vals < 2 ^ 32 }
    ensures { result ≡ missing_spec exact (sig_of found.now) (sig_of wanted.now) }
{
    if let Some(k) = missing_type(exact, found, wanted) {
        return Some(k as u32);
    }
    match missing_val(exact, found, wanted) {
        None => None,
        Some(k) => Some((wanted.types.len() + k) as u32),
    }
}

// The first abstract type of an import whose representation in the module isn't the likespec's
// type.
fn unlike(m: &Module, import: &Import) -> Option<u32>
    requires { length import.now.sig.types + length import.now.sig.vals < 2 ^ 32 }
    ensures { result ≡ unlike (module_of_code m.now) (import_of_code import.now) }
{
    match first_unlike(m, import) {
        None => None,
        Some(k) => Some(k as u32),
    }
}

fn first_unlike(m: &Module, import: &Import) -> Option<usize>
    ensures { result ≡ first_failing (is_like (module_of_code m.now) (import_of_code import.now))
        (map sig_type_of import.now.sig.types) }
{
    import
        .sig
        .types
        .as_slice()
        .iter()
        .position(|spec| !is_like(m, import, spec))
}

fn is_like(m: &Module, import: &Import, spec: &SigType) -> bool
    ensures { result ≡ is_like (module_of_code m.now) (import_of_code import.now)
        (sig_type_of spec.now) }
{
    if spec.manifest.is_some() {
        return true;
    }
    match type_named(m.types.as_slice(), &spec.name) {
        None => false,
        Some(ty) => match type_named(import.like.as_slice(), &spec.name) {
            None => false,
            Some(other) => same_types(ty, other),
        },
    }
}
