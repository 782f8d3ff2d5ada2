// Definitions.

use ac_table_text::{Sheet, write_import, write_module};
use ac_terms::{Def, Entry};

fn definition(sheet: &mut Sheet, def: &Def) {
    match def {
        Def::Module(def) => write_module(sheet, def),
        Def::Import(def) => write_import(sheet, def),
        Def::Mark(text) => {
            sheet.open(b"mark");
            sheet.string(text);
            sheet.close();
        }
    }
}

/// Adds the definitions of entries behind the first `front` of them.
pub fn write_added(sheet: &mut Sheet, entries: &[Entry], front: usize) {
    for (number, entry) in entries.iter().enumerate() {
        if number >= front {
            definition(sheet, &entry.def);
        }
    }
}
