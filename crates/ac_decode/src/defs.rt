// Definitions of packets.

ghost use Rattle.std.specs.Prelude.{List, [], ◌∷◌, map, option_and_then, slice_get};
ghost use Rattle.ac_terms.specs.Defs.{Def, AModule, AnImport};
ghost use Rattle.ac_terms.specs.Read.{field_of, module_of_code, import_of_code, pdef_of};
ghost use Rattle.ac_terms.specs.PacketReading.{ReadsPart, times};
ghost use Rattle.ac_decode_pieces.specs.Readers.{ReadsAs};
ghost use Rattle.ac_decode.specs.inner.ExactPackets.{exact_field, exact_fields, exact_module, exact_import, def_table, exact_def, exact_defs};

use crate::terms::take_term;
use ac_bytes::Cursor;
use ac_decode_pieces::{
    PieceFault, Types, all_typed, joined, take_byte, take_constraint, take_long_count, take_lower,
    take_resolves, take_sig, take_two, take_upper, take_version,
};
use ac_terms::{Field, Import, Module, PDef, tags};
use ac_types::Many;
use ac_types::limits::{DEEPEST_NESTING, MOST_ITEMS};
use std::alloc::Global;

// A field.
#[tactic(auto, unfolding(crate::specs::inner::ExactPackets::exact_field))]
fn field<T: Types>(alloc: Global, cursor: &mut Cursor<'_>, types: &T) -> Result<Field, PieceFault>
    ensures { ReadsAs field_of result (exact_field (T.reads_type types.now) cursor.old.left)
        cursor.new.left }
{
    let name = take_lower(alloc, cursor)?;
    let head = joined(name, types.read_type(alloc, cursor, false))?;
    let ((name, ty), term) = joined(
        head,
        take_term(alloc, cursor, types, false, DEEPEST_NESTING),
    )?;
    Ok(Field { name, ty, term })
}

// So many of them.
fn some_fields<T: Types>(
    alloc: Global,
    cursor: &mut Cursor<'_>,
    types: &T,
    count: u16,
) -> Result<Many<Field>, PieceFault>
    ensures { ReadsAs (map field_of) result (times [] (λ x xs. x ∷ xs)
        (exact_field (T.reads_type types.now)) count cursor.old.left) cursor.new.left }
{
    let mut items = Many::new(alloc);
    for _ in 0..count {
        let item = field(alloc, cursor, types)?;
        items.push(item)?;
    }
    Ok(items)
}

// The fields of a module.
#[tactic(auto, unfolding(crate::specs::inner::ExactPackets::exact_fields))]
fn fields<T: Types>(
    alloc: Global,
    cursor: &mut Cursor<'_>,
    types: &T,
) -> Result<Many<Field>, PieceFault>
    ensures { ReadsAs (map field_of) result
        (exact_fields (T.reads_type types.now) cursor.old.left) cursor.new.left }
{
    let count = take_long_count(cursor, 0, MOST_ITEMS)?;
    some_fields(alloc, cursor, types, count)
}

// A module behind its tag.
#[tactic(auto, unfolding(crate::specs::inner::ExactPackets::exact_module))]
fn module<T: Types>(alloc: Global, cursor: &mut Cursor<'_>, types: &T) -> Result<Module, PieceFault>
    ensures { ReadsAs (λ m. AModule (module_of_code m)) result
        (exact_module (T.reads_type types.now) cursor.old.left) cursor.new.left }
{
    let name = take_upper(alloc, cursor)?;
    let head = joined(name, take_version(alloc, cursor))?;
    let head = joined(head, take_sig(alloc, cursor, types))?;
    let head = joined(head, all_typed(alloc, cursor, types, false))?;
    let ((((name, version), sig), types), fields) = joined(head, fields(alloc, cursor, types))?;
    Ok(Module {
        name,
        version,
        sig,
        types,
        fields,
    })
}

// An import behind its tag.
#[tactic(auto, unfolding(crate::specs::inner::ExactPackets::exact_import))]
fn import<T: Types>(alloc: Global, cursor: &mut Cursor<'_>, types: &T) -> Result<Import, PieceFault>
    ensures { ReadsAs (λ i. AnImport (import_of_code i)) result
        (exact_import (T.reads_type types.now) cursor.old.left) cursor.new.left }
{
    let name = take_upper(alloc, cursor)?;
    let head = joined(name, take_sig(alloc, cursor, types))?;
    let head = joined(head, take_constraint(alloc, cursor))?;
    let head = joined(head, all_typed(alloc, cursor, types, false))?;
    let ((((name, sig), constraint), like), by) = joined(head, take_resolves(alloc, cursor))?;
    Ok(Import {
        name,
        sig,
        constraint,
        like,
        by,
    })
}

// A definition.
fn def<T: Types>(alloc: Global, cursor: &mut Cursor<'_>, types: &T) -> Result<PDef, PieceFault>
    ensures { ReadsAs pdef_of result (exact_def (T.reads_type types.now) cursor.old.left)
        cursor.new.left }
{
    let at = cursor.place();
    let tag = take_byte(cursor)?;
    def_behind(alloc, cursor, types, at, tag)
}

// The same behind its tag, which stands at that place.
fn def_behind<T: Types>(
    alloc: Global,
    cursor: &mut Cursor<'_>,
    types: &T,
    at: usize,
    tag: u8,
) -> Result<PDef, PieceFault>
    ensures { ReadsAs pdef_of result (option_and_then (λ (g : ReadsPart Def). g cursor.old.left)
        (slice_get (def_table (T.reads_type types.now)) tag)) cursor.new.left }
{
    match tag {
        tags::DEF_MODULE => Ok(PDef::Module(module(alloc, cursor, types)?)),
        tags::DEF_IMPORT => Ok(PDef::Import(import(alloc, cursor, types)?)),
        _ => Err(PieceFault::Misfit { at }),
    }
}

// So many of them.
fn some_defs<T: Types>(
    alloc: Global,
    cursor: &mut Cursor<'_>,
    types: &T,
    count: u16,
) -> Result<Many<PDef>, PieceFault>
    ensures { ReadsAs (map pdef_of) result (times [] (λ x xs. x ∷ xs)
        (exact_def (T.reads_type types.now)) count cursor.old.left) cursor.new.left }
{
    let mut items = Many::new(alloc);
    for _ in 0..count {
        let item = def(alloc, cursor, types)?;
        items.push(item)?;
    }
    Ok(items)
}

/// The definitions of a packet.
#[tactic(auto, unfolding(crate::specs::inner::ExactPackets::exact_defs))]
pub fn defs<T: Types>(
    alloc: Global,
    cursor: &mut Cursor<'_>,
    types: &T,
) -> Result<Many<PDef>, PieceFault>
    ensures { ReadsAs (map pdef_of) result (exact_defs (T.reads_type types.now) cursor.old.left)
        cursor.new.left }
{
    let count = take_two(cursor)?;
    some_defs(alloc, cursor, types, count)
}
