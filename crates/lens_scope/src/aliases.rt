// The abbreviation in which a place is.

use ac_syntax::{SAbbrev, SDef, SDefKind, SField, SSpec};

// The last abbreviation of a struct or of a likespec in which a place may be.
fn last_field(fields: &[SField], at: u32) -> Option<&SAbbrev> {
    let mut last = None;
    for field in fields {
        match field {
            SField::Abbrev(alias) if alias.name.at <= at => last = Some(alias),
            SField::Val(name, _, _) if name.at <= at => last = None,
            _ => {}
        }
    }
    last
}

fn last_spec(specs: &[SSpec], at: u32) -> Option<&SAbbrev> {
    let mut last = None;
    for spec in specs {
        match spec {
            SSpec::Manifest(alias) if alias.name.at <= at => last = Some(alias),
            SSpec::Abstract(name) | SSpec::Val(name, _) if name.at <= at => last = None,
            _ => {}
        }
    }
    last
}

fn last_alias(like: &[SAbbrev], at: u32) -> Option<&SAbbrev> {
    let mut last = None;
    for alias in like {
        if alias.name.at <= at {
            last = Some(alias);
        }
    }
    last
}

/// The abbreviation in which a place of a definition is.
pub fn alias_at(def: &SDef, at: u32) -> Option<&SAbbrev> {
    match &def.kind {
        SDefKind::Module {
            name: _,
            sig,
            version: _,
            fields,
        } => {
            let inner = last_field(fields.as_slice(), at);
            inner.or(last_spec(sig.specs.as_slice(), at))
        }
        SDefKind::Import {
            name: _,
            sig,
            wants: _,
            like: Some(like),
            by: _,
        } => {
            let inner = last_alias(like.as_slice(), at);
            inner.or(last_spec(sig.specs.as_slice(), at))
        }
        SDefKind::Import {
            name: _,
            sig,
            wants: _,
            like: None,
            by: _,
        } => last_spec(sig.specs.as_slice(), at),
        SDefKind::Mark {
            text_at: _,
            text: _,
        } => None,
    }
}
