// Definitions and their items, as they are written.

use ac_load::ShelfEntry;
use ac_syntax::{SDef, SDefKind, SField, SName, SSig, SSpec, Surface};
use ac_terms::{Entry, Env};
use ac_types::Text;

/// The tree of a text, and its entries, behind those of the texts of a shelf that stand in front of
/// it, one of each.
#[derive(Clone, Copy)]
pub struct ExplainedPart<'a> {
    /// The text.
    pub text: &'a [u8],
    /// Its tree.
    pub surface: &'a Surface,
    /// The entries.
    pub env: &'a Env,
    /// The texts of the shelf.
    pub shelf: &'a [ShelfEntry],
    /// How many entries stand in front.
    pub front: u32,
}

impl<'a> ExplainedPart<'a> {
    /// The number of the entry of definition `def`.
    pub fn number(&self, def: u32) -> u32 {
        self.front.saturating_add(def)
    }

    /// Definition `def` as it is written.
    pub fn tree(&self, def: u32) -> Option<&'a SDef> {
        self.surface.defs.get(def as usize)
    }

    /// The entry of definition `def`.
    pub fn entry(&self, def: u32) -> Option<&'a Entry> {
        self.env.entry(self.number(def))
    }

    /// The definition of the text that is entry `i`.
    pub fn tree_of_entry(&self, i: u32) -> Option<&'a SDef> {
        self.tree(i.checked_sub(self.front)?)
    }

    /// The URI under which entry `i` stands on the shelf.
    pub fn uri(&self, i: u32) -> Option<&'a Text> {
        if i >= self.front {
            return None;
        }
        match self.shelf.get(i as usize) {
            Some(entry) => Some(&entry.uri),
            None => None,
        }
    }
}

/// The UPPER name of a definition, which a mark has none of.
pub fn name_of_tree(def: &SDef) -> Option<&SName> {
    match &def.kind {
        SDefKind::Module {
            name,
            sig: _,
            version: _,
            fields: _,
        } => Some(name),
        SDefKind::Import {
            name,
            sig: _,
            wants: _,
            like: _,
            by: _,
        } => Some(name),
        SDefKind::Mark {
            text_at: _,
            text: _,
        } => None,
    }
}

/// The place of a definition: that of its name, if it has one.
pub fn place_of(def: &SDef) -> u32 {
    match name_of_tree(def) {
        Some(name) => name.at,
        None => def.at,
    }
}

/// The signature of a definition.
pub fn signature_of_tree(def: &SDef) -> Option<&SSig> {
    match &def.kind {
        SDefKind::Module {
            name: _,
            sig,
            version: _,
            fields: _,
        } => Some(sig),
        SDefKind::Import {
            name: _,
            sig,
            wants: _,
            like: _,
            by: _,
        } => Some(sig),
        SDefKind::Mark {
            text_at: _,
            text: _,
        } => None,
    }
}

// Type number `k` of a signature, or how many types it has less.
fn type_at(specs: &[SSpec], k: usize) -> Result<&SName, usize> {
    let mut left = k;
    for spec in specs {
        let name = match spec {
            SSpec::Abstract(name) => name,
            SSpec::Manifest(alias) => &alias.name,
            SSpec::Val(_, _) => continue,
        };
        if left == 0 {
            return Ok(name);
        }
        left -= 1;
    }
    Err(left)
}

// Value number `k` of a signature.
fn value_at(specs: &[SSpec], k: usize) -> Option<&SName> {
    let mut left = k;
    for spec in specs {
        if let SSpec::Val(name, _) = spec {
            if left == 0 {
                return Some(name);
            }
            left -= 1;
        }
    }
    None
}

/// The name of spec `k` of a definition's signature, of which the types are counted first.
pub fn spec_at(def: &SDef, k: u32) -> Option<&SName> {
    let specs = signature_of_tree(def)?.specs.as_slice();
    match type_at(specs, k as usize) {
        Ok(name) => Some(name),
        Err(left) => value_at(specs, left),
    }
}

/// Value number `k` of a struct: its name and its expression.
pub fn field_at(fields: &[SField], k: u32) -> Option<&SField> {
    let mut left = k;
    for field in fields {
        if let SField::Val(_, _, _) = field {
            if left == 0 {
                return Some(field);
            }
            left -= 1;
        }
    }
    None
}
