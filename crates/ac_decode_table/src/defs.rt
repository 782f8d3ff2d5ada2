// Packets.

use ac_table_text::{Sheet, write_import, write_module, write_type, write_value};
use ac_terms::{PDef, Packet};

fn definition(sheet: &mut Sheet, def: &PDef) {
    match def {
        PDef::Module(def) => write_module(sheet, def),
        PDef::Import(def) => write_import(sheet, def),
    }
}

/// Adds a packet: its definitions, its type and its value.
pub fn write_packet(sheet: &mut Sheet, packet: &Packet) {
    for def in packet.defs.as_slice() {
        definition(sheet, def);
    }
    write_type(sheet, &packet.ty);
    write_value(sheet, &packet.value);
}
