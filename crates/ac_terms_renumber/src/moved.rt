// Copies of modules with other numbers.

ghost use Rattle.std.specs.Prelude.{◌≡◌, IfOk, map};
ghost use Rattle.ac_terms.specs.Defs.{AModule};
ghost use Rattle.ac_terms.specs.Read.{field_of, module_of_code};
ghost use Rattle.ac_terms.specs.Renumbered.{field_renumbered, def_renumbered};
ghost use Rattle.ac_terms_renumber.specs.Numbers.{number_for};

use crate::renumber::term_renumbered;
use ac_terms::{Field, Module};
use ac_types::{Many, Memory, both};
use std::alloc::Global;

/// A copy of a module, in which each reference has the number that the list has at its place.
pub fn module_renumbered(alloc: Global, m: &Module, numbers: &[u32]) -> Result<Module, Memory>
    ensures { IfOk result (λ c. AModule (module_of_code c) ≡ def_renumbered (number_for numbers.now)
        (AModule (module_of_code m.now))) }
{
    let (name, version) = both(m.name.copy(alloc), m.version.copy(alloc))?;
    let (sig, types) = both(m.sig.copy(alloc), m.types.copy(alloc))?;
    let fields = fields(alloc, m.fields.as_slice(), numbers)?;
    Ok(Module {
        name,
        version,
        sig,
        types,
        fields,
    })
}

fn fields(alloc: Global, all: &[Field], numbers: &[u32]) -> Result<Many<Field>, Memory>
    ensures { IfOk result (λ fs. map field_of fs ≡ map (field_renumbered (number_for numbers.now))
        (map field_of all.now)) }
{
    let mut found = Many::new(alloc);
    for one in all {
        let made = field(alloc, one, numbers)?;
        found.push(made)?;
    }
    Ok(found)
}

fn field(alloc: Global, one: &Field, numbers: &[u32]) -> Result<Field, Memory>
    ensures { IfOk result (λ f. field_of f ≡ field_renumbered (number_for numbers.now)
        (field_of one.now)) }
{
    let (name, ty) = both(one.name.copy(alloc), one.ty.copy(alloc))?;
    let term = term_renumbered(alloc, &one.term, numbers)?;
    Ok(Field { name, ty, term })
}
