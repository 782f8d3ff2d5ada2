// Values that leave.

ghost use Rattle.ac_types.specs.ReadTypes.{typ_of};
ghost use Rattle.ac_terms.specs.Read.{environment_of};
ghost use Rattle.ac_code.specs.ReadCode.{table_code};
ghost use Rattle.ac_values.specs.Values.{stands_as};
ghost use Rattle.ac_rules.specs.Coherent.{IsCoherent};
ghost use Rattle.ac_rules.specs.Faults.{marshalled};
ghost use Rattle.ac_meaning.specs.Packing.{answer};
ghost use Rattle.ac_meaning.specs.BarePacking.{bare_packed};
ghost use Rattle.ac_machine_meaning.specs.Stands.{stands};
ghost use Rattle.ac_pack.specs.Crossing.{Departs};

use crate::fault::CrossFault;
use crate::packing::pack;
use crate::raising::of_packing;
use ac_code::CodeTable;
use ac_terms::Env;
use ac_types::{Text, Ty};
use ac_values::{Store, Value};
use std::alloc::Global;

/// The string that holds the value of this node, of this type, as cut by the mark of this name. An
/// `Err` has the exception of why there is none, or tells that memory ran out.
pub fn marshal(
    alloc: Global,
    env: &Env,
    table: &CodeTable,
    store: &Store,
    mark: &Text,
    value: &Value,
    ty: &Ty,
) -> Result<Text, CrossFault>
    requires { IsCoherent (environment_of env.now) }
    ensures { Departs (answer (marshalled (environment_of env.now) mark.now.0 (typ_of ty.now)
        (bare_packed (environment_of env.now)
        (stands (table_code table.now) (stands_as store.now value.now.0)) (typ_of ty.now))))
        result }
{
    match pack(alloc, env, table, store, mark, value, ty) {
        Ok(text) => Ok(text),
        Err(fault) => Err(of_packing(alloc, fault)),
    }
}
