// Definitions and whole programs.

use crate::expressions::write_tree;
use crate::page::TreePage;
use crate::types::write_type;
use crate::versions::{write_version, write_wants};
use ac_syntax::{SAbbrev, SDef, SDefKind, SField, SName, SSig, SSpec, SType, Surface};
use ac_types::{Many, Resolve, Version};

fn abbreviation(page: &mut TreePage, item: &SAbbrev) {
    page.put(b" (type");
    page.name(&item.name);
    write_type(page, &item.ty);
    page.close();
}

// The front of a value, whose parenthesis is left open.
fn value(page: &mut TreePage, name: &SName, ty: &SType) {
    page.put(b" (val");
    page.name(name);
    write_type(page, ty);
}

fn spec(page: &mut TreePage, spec: &SSpec) {
    match spec {
        SSpec::Abstract(name) => {
            page.put(b" (type");
            page.name(name);
            page.close();
        }
        SSpec::Manifest(item) => abbreviation(page, item),
        SSpec::Val(name, ty) => {
            value(page, name, ty);
            page.close();
        }
    }
}

fn signature(page: &mut TreePage, sig: &SSig) {
    page.open(b"sig", sig.at);
    for item in sig.specs.as_slice() {
        spec(page, item);
    }
    page.close();
}

fn field(page: &mut TreePage, field: &SField) {
    match field {
        SField::Abbrev(item) => abbreviation(page, item),
        SField::Val(name, ty, tree) => {
            value(page, name, ty);
            write_tree(page, tree);
            page.close();
        }
    }
}

fn resolve(page: &mut TreePage, resolve: &Resolve) {
    match resolve {
        Resolve::StaticLink => page.put(b" Static_Link"),
        Resolve::HereAlready => page.put(b" Here_Already"),
        Resolve::Uri(text) => page.literal(text),
    }
}

fn module(page: &mut TreePage, version: &Option<Version>, fields: &[SField]) {
    if let Some(version) = version {
        write_version(page, version);
    }
    for item in fields {
        field(page, item);
    }
}

fn like(page: &mut TreePage, like: &Option<Many<SAbbrev>>) {
    if let Some(items) = like {
        page.put(b" (like");
        for item in items.as_slice() {
            abbreviation(page, item);
        }
        page.close();
    }
}

fn by(page: &mut TreePage, by: &[Resolve]) {
    page.put(b" (by");
    for item in by {
        resolve(page, item);
    }
    page.close();
}

fn head(page: &mut TreePage, name: &SName, sig: &SSig) {
    page.name(name);
    signature(page, sig);
}

fn definition(page: &mut TreePage, def: &SDef) {
    match &def.kind {
        SDefKind::Module {
            name,
            sig,
            version,
            fields,
        } => {
            page.open(b"module", def.at);
            head(page, name, sig);
            module(page, version, fields.as_slice());
        }
        SDefKind::Import {
            name,
            sig,
            wants,
            like: items,
            by: places,
        } => {
            page.open(b"import", def.at);
            head(page, name, sig);
            write_wants(page, wants);
            like(page, items);
            by(page, places.as_slice());
        }
        SDefKind::Mark { text_at, text } => {
            page.open(b"mark", def.at);
            page.string(text, *text_at);
        }
    }
    page.close();
}

/// Adds the definitions, and then the expression.
pub fn write_program(page: &mut TreePage, program: &Surface) {
    for def in program.defs.as_slice() {
        definition(page, def);
    }
    if let Some(tree) = &program.expr {
        write_tree(page, tree);
    }
}
