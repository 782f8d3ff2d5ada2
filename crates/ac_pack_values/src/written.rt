// What is written of a type and a value.

ghost use Rattle.std.specs.Prelude.{◌≡◌, ◌∷◌, ◌++◌, ◌<◌, ◌^◌, [], MatchResult, Some, None, length, get_or};
ghost use Rattle.ac_types.specs.Limits.{longest_packet, deepest_nesting};
ghost use Rattle.ac_types.specs.Types.{TInt};
ghost use Rattle.ac_types.specs.ReadTypes.{typ_of};
ghost use Rattle.ac_terms.specs.Terms.{PValue};
ghost use Rattle.ac_terms.specs.Read.{environment_of};
ghost use Rattle.ac_terms.specs.Heads.{type_heads, packed_heads};
ghost use Rattle.ac_terms.specs.Parts.{OfType, value_parts};
ghost use Rattle.ac_terms.specs.Spelling.{two_written, type_bytes, value_bytes};
ghost use Rattle.ac_terms.specs.Renumbered.{value_renumbered};
ghost use Rattle.ac_rules.specs.Faults.{Fault, first_fault};
ghost use Rattle.ac_code.specs.ReadCode.{table_code};
ghost use Rattle.ac_values.specs.Values.{stands_as};
ghost use Rattle.ac_meaning.specs.BarePacking.{bare_packed};
ghost use Rattle.ac_machine_meaning.specs.Stands.{stands};
ghost use Rattle.ac_pack_heads.specs.Outcomes.{On, Stopped, walk_end, fault_in};
ghost use Rattle.ac_pack_terms.specs.Spoken.{spoken_by_all};
ghost use Rattle.ac_pack_terms.specs.Pieces.{held_at, value_written, spoken_at};

use crate::visit::visit_pending;
use ac_code::CodeTable;
use ac_pack_heads::Stop;
use ac_pack_terms::{PackContext, Piece, Walk};
use ac_terms::Env;
use ac_types::{Many, Text, Ty};
use ac_values::{Store, Value};
use std::alloc::Global;

/// What a walk has written.
#[derive(Drop)]
pub struct Written {
    /// The bytes.
    pub text: Text,
    /// The definitions that they speak of.
    pub roots: Many<u32>,
}

/// The bytes of a type and of a value at it, where each definition is written by its number, and the
/// definitions that they speak of. Stops at the first part that fails.
#[tactic(auto, using(ac_types::proofs::SizeLaws::type_laws))]
pub fn write(
    alloc: Global,
    env: &Env,
    table: &CodeTable,
    store: &Store,
    numbers: &[u16],
    value: Value,
    ty: &Ty,
) -> Result<Written, Stop>
    requires { length env.now.entries < 2 ^ 32 }
    ensures { let v : PValue = bare_packed (environment_of env.now)
        (stands (table_code table.now) (stands_as store.now value.0)) (typ_of ty.now) in
        MatchResult result
        (λ w. (first_fault deepest_nesting longest_packet 0 (packed_heads (typ_of ty.now) v) ≡
        None) × (w.text.0 ≡ type_bytes (typ_of ty.now) ++ value_bytes two_written
        (value_renumbered (λ k. get_or numbers.now k 0) v)) × (w.roots ≡
        spoken_by_all (environment_of env.now) (OfType (typ_of ty.now) ∷ value_parts v)))
        (λ e. (f : Fault) → fault_in e ≡ Some f →
        first_fault deepest_nesting longest_packet 0 (packed_heads (typ_of ty.now) v) ≡ Some f) }
{
    let int = Ty::Int;
    let site = PackContext {
        env,
        table,
        store,
        numbers,
        int: &int,
    };
    let written = walked(alloc, site, value, ty);
    drop(int);
    written
}

// Visits a type and a value at it.
#[tactic(auto, using(crate::proofs::WrittenLaws::written_laws))]
fn walked<'a>(
    alloc: Global,
    site: PackContext<'a>,
    value: Value,
    ty: &'a Ty,
) -> Result<Written, Stop>
    requires entries { length site.env.now.entries < 2 ^ 32 }
    requires int { typ_of site.int.now ≡ TInt }
    ensures { MatchResult result
        (λ w. (walk_end [] (type_heads (typ_of ty.now) ++ value_written site.entry 1
        (held_at site.entry value (typ_of ty.now))) ≡ On w.text.0) × (w.roots ≡
        spoken_at site.entry (OfType (typ_of ty.now) ∷
        value_parts (held_at site.entry value (typ_of ty.now)))))
        (λ e. (f : Fault) → fault_in e ≡ Some f → walk_end [] (type_heads (typ_of ty.now) ++
        value_written site.entry 1 (held_at site.entry value (typ_of ty.now))) ≡ Stopped f) }
{
    let mut walk = Walk::new(alloc, site);
    walk.both(Piece::Type(ty), Piece::Held(value, ty, 0))?;
    visit_pending(&mut walk, alloc)?;
    let Walk {
        site: _,
        text,
        roots,
        pieces,
    } = walk;
    drop(pieces);
    Ok(Written { text, roots })
}
