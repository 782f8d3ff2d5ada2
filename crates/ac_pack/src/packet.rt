// The bytes of a packet.

ghost use Rattle.std.specs.Prelude.{◌++◌, length};
ghost use Rattle.ac_types.specs.ReadTypes.{typ_of};
ghost use Rattle.ac_terms.specs.Read.{environment_of};
ghost use Rattle.ac_terms.specs.Spelling.{packet_bytes};
ghost use Rattle.ac_code.specs.ReadCode.{table_code};
ghost use Rattle.ac_values.specs.Values.{stands_as};
ghost use Rattle.ac_rules.specs.Needed.{packet_of_entries};
ghost use Rattle.ac_meaning.specs.BarePacking.{bare_packed};
ghost use Rattle.ac_machine_meaning.specs.Stands.{stands};
ghost use Rattle.ac_pack.specs.inner.Ready.{IsReady};
ghost use Rattle.ac_pack.specs.inner.Wholes.{IsWhole};

use ac_code::CodeTable;
use ac_pack_definitions::{packet_front, places, put};
use ac_pack_heads::Stop;
use ac_pack_values::write;
use ac_terms::Env;
use ac_types::{Text, Ty};
use ac_values::{Store, Value};
use std::alloc::Global;

/// The bytes of the packet of the chosen entries, a type and a value at it, of which no part fails.
/// Stops as soon as they are too many.
pub fn bytes(
    alloc: Global,
    env: &Env,
    table: &CodeTable,
    store: &Store,
    mark: usize,
    chosen: &[u32],
    value: Value,
    ty: &Ty,
) -> Result<Text, Stop>
    requires { IsReady (length env.now.entries) chosen.now (typ_of ty.now)
        (bare_packed (environment_of env.now)
        (stands (table_code table.now) (stands_as store.now value.0)) (typ_of ty.now)) }
    ensures { IsWhole result (packet_bytes (packet_of_entries (environment_of env.now) mark
        chosen.now (typ_of ty.now) (bare_packed (environment_of env.now)
        (stands (table_code table.now) (stands_as store.now value.0)) (typ_of ty.now)))) }
{
    let places = places(alloc, env.len(), chosen)?;
    let numbers = places.as_slice();
    match packet_front(alloc, env, mark, chosen, numbers) {
        Err(stop) => Err(stop),
        Ok(text) => match write(alloc, env, table, store, numbers, value, ty) {
            Err(stop) => Err(stop),
            Ok(written) => joined(text, &written.text),
        },
    }
}

// A text with another behind it.
fn joined(mut text: Text, more: &Text) -> Result<Text, Stop>
    ensures { IsWhole result (text.0 ++ more.now.0) }
{
    put(&mut text, more.as_slice())?;
    Ok(text)
}
