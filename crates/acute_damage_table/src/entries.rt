// Definitions, written one after the other.

use ac_table_text::{Leaves, Sheet, write_import, write_module};
use ac_terms::{Def, Entry, Env, Seen};
use ac_text::Page;
use std::alloc::Global;

fn write_definition(sheet: &mut Sheet, def: &Def) {
    match def {
        Def::Module(module) => write_module(sheet, module),
        Def::Import(import) => write_import(sheet, import),
        Def::Mark(text) => sheet.string(text),
    }
}

fn write_origin(sheet: &mut Sheet, seen: &Seen) {
    match seen {
        Seen::Own => sheet.leaf(b"own"),
        Seen::Shelf(uri) => sheet.string(uri),
        Seen::Arrived => sheet.leaf(b"arrived"),
    }
}

fn write_entry(sheet: &mut Sheet, entry: &Entry) {
    sheet.open(b"entry");
    write_definition(sheet, &entry.def);
    if let Some(name) = &entry.name {
        sheet.name(name);
    }
    write_origin(sheet, &entry.seen);
    if let Some(link) = entry.link {
        sheet.number(i64::from(link));
    }
    sheet.close();
}

fn write_entries(sheet: &mut Sheet, env: &Env) {
    for entry in env.entries() {
        write_entry(sheet, entry);
    }
}

/// All that the entries of a program keep.
pub fn written(alloc: Global, env: &Env) -> Page {
    let mut page = Page::new(alloc);
    write_entries(&mut Sheet::on(&mut page, Leaves::Digits), env);
    page
}
