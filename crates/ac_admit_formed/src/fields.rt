// Whether the fields of a module compute nothing, have their types, and cover its signature.

ghost use Rattle.std.specs.Prelude.{◌≡◌, ◌<◌, ◌+◌, ◌^◌, IfOk, length, map};
ghost use Rattle.std.specs.List.{list_all};
ghost use Rattle.ac_terms.specs.Defs.{Field as FieldOf, AModule};
ghost use Rattle.ac_terms.specs.Read.{environment_of, field_of, module_of_code};
ghost use Rattle.ac_rules.specs.Modules.{is_valuable};
ghost use Rattle.ac_admit_formed.specs.inner.Fields.{is_seen_typed, are_seen_typed, has_seen_fields};

use ac_check::{CheckFault, type_of};
use ac_check_views::{Site, is_seen_as};
use ac_modules::{covers, valuable};
use ac_terms::{Env, Field, Home, Module};
use ac_types::{Many, Memory};
use std::alloc::Global;

// Whether field `g` of entry `i` has the type that it writes.
fn is_typed(alloc: Global, env: &Env, i: u32, g: u32, f: &Field) -> Result<bool, Memory>
    requires { length env.now.entries < 2 ^ 32 }
    ensures { IfOk result (λ b. b ≡ is_seen_typed (environment_of env.now) i g (field_of f.now)) }
{
    let vars = Many::new(alloc);
    match type_of(alloc, env, Home::In(i), g, i, &vars, &f.term) {
        Err(CheckFault::IllTyped) => Ok(false),
        Err(CheckFault::Memory) => Err(Memory),
        Ok(found) => {
            let site = Site {
                env,
                home: Home::In(i),
                own: g as usize,
                refs: i as usize,
            };
            let fits = is_seen_as(&f.ty, &found, &site);
            drop(found);
            Ok(fits)
        }
    }
}

fn are_typed(alloc: Global, env: &Env, i: u32, fields: &[Field]) -> Result<bool, Memory>
    requires entries { length env.now.entries < 2 ^ 32 }
    requires fields { length fields.now < 2 ^ 32 }
    ensures { IfOk result (λ b. b ≡ are_seen_typed (environment_of env.now) i 0
        (map field_of fields.now)) }
{
    for g in 0..fields.len() {
        if !is_typed(alloc, env, i, g as u32, &fields[g])? {
            return Ok(false);
        }
    }
    Ok(true)
}

fn are_valuable(fields: &[Field]) -> bool
    ensures { result ≡ list_all (λ (f : FieldOf). is_valuable f.term) (map field_of fields.now) }
{
    for f in fields {
        if !valuable(&f.term) {
            return false;
        }
    }
    true
}

/// Whether the fields of module `i` compute nothing, have the types that they write, whose names
/// are known, and cover the signature.
pub fn has_sound_fields(alloc: Global, env: &Env, i: u32, m: &Module) -> Result<bool, Memory>
    requires entries { length env.now.entries < 2 ^ 32 }
    requires fields { length m.now.fields < 2 ^ 32 }
    requires specs { length m.now.sig.types + length m.now.sig.vals < 2 ^ 32 }
    ensures { IfOk result (λ b. b ≡ has_seen_fields (environment_of env.now) i
        (AModule (module_of_code m.now))) }
{
    // `&`, not `&&`: one branch fewer in the proof
    if !(are_valuable(m.fields.as_slice()) & covers(m).is_ok()) {
        return Ok(false);
    }
    are_typed(alloc, env, i, m.fields.as_slice())
}
