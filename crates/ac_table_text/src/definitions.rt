// Modules and imports, written on the sheet.

use crate::sheet::Sheet;
use crate::terms::write_term;
use crate::types::write_type;
use ac_terms::{Field, Import, Module};
use ac_types::{Atom, Constraint, Range, Resolve, Sig, SigType, TyField, Version};

fn typed(sheet: &mut Sheet, form: &[u8], item: &TyField) {
    sheet.open(form);
    sheet.word(&item.name);
    write_type(sheet, &item.ty);
    sheet.close();
}

fn all_typed(sheet: &mut Sheet, form: &[u8], items: &[TyField]) {
    for item in items {
        typed(sheet, form, item);
    }
}

fn sig_type(sheet: &mut Sheet, item: &SigType) {
    sheet.open(b"type");
    sheet.word(&item.name);
    if let Some(ty) = &item.manifest {
        write_type(sheet, ty);
    }
    sheet.close();
}

fn signature(sheet: &mut Sheet, sig: &Sig) {
    sheet.open(b"sig");
    for item in sig.types.as_slice() {
        sig_type(sheet, item);
    }
    all_typed(sheet, b"val", sig.vals.as_slice());
    sheet.close();
}

fn field(sheet: &mut Sheet, field: &Field) {
    sheet.open(b"val");
    sheet.word(&field.name);
    write_type(sheet, &field.ty);
    write_term(sheet, &field.term);
    sheet.close();
}

fn version(sheet: &mut Sheet, version: &Version) {
    sheet.open(b"version");
    for atom in version.atoms.as_slice() {
        match atom {
            Atom::Number(number) => sheet.number(i64::from(*number)),
            Atom::MyName => sheet.leaf(b"myname"),
        }
    }
    sheet.close();
}

fn range(sheet: &mut Sheet, range: Range) {
    match range {
        Range::One(number) => sheet.number(i64::from(number)),
        Range::Between(least, most) => {
            sheet.number(i64::from(least));
            sheet.leaf(b"to");
            sheet.number(i64::from(most));
        }
        Range::UpTo(most) => {
            sheet.leaf(b"to");
            sheet.number(i64::from(most));
        }
        Range::From(least) => {
            sheet.number(i64::from(least));
            sheet.leaf(b"on");
        }
    }
}

fn ranges(sheet: &mut Sheet, ranges: &[Range], star: bool) {
    sheet.open(b"version");
    for part in ranges {
        range(sheet, *part);
    }
    if star {
        sheet.leaf(b"*");
    }
    sheet.close();
}

fn constraint(sheet: &mut Sheet, constraint: &Constraint) {
    match constraint {
        Constraint::Ranges { atoms, star } => ranges(sheet, atoms.as_slice(), *star),
        Constraint::Exact(name) => {
            sheet.open(b"name");
            sheet.name(name);
            sheet.close();
        }
    }
}

fn places(sheet: &mut Sheet, places: &[Resolve]) {
    sheet.open(b"by");
    for place in places {
        match place {
            Resolve::StaticLink => sheet.leaf(b"Static_Link"),
            Resolve::HereAlready => sheet.leaf(b"Here_Already"),
            Resolve::Uri(uri) => sheet.string(uri),
        }
    }
    sheet.close();
}

/// Adds a module.
pub fn write_module(sheet: &mut Sheet, module: &Module) {
    sheet.open(b"module");
    sheet.word(&module.name);
    version(sheet, &module.version);
    signature(sheet, &module.sig);
    all_typed(sheet, b"type", module.types.as_slice());
    for item in module.fields.as_slice() {
        field(sheet, item);
    }
    sheet.close();
}

/// Adds an import.
pub fn write_import(sheet: &mut Sheet, import: &Import) {
    sheet.open(b"import");
    sheet.word(&import.name);
    signature(sheet, &import.sig);
    constraint(sheet, &import.constraint);
    all_typed(sheet, b"like", import.like.as_slice());
    places(sheet, import.by.as_slice());
    sheet.close();
}
