// What is in sight at a place of a text.

use crate::members::{Members, bytes_of};
use crate::variables::{NamesInSight, add_variables};
use ac_syntax::{SAbbrev, SDef, SDefKind, SField, SName, SSpec, Surface};
use ac_terms::{Def, Entry};
use ac_types::{Many, Memory};
use std::alloc::Global;

/// A text's tree, and the entries of the shelf in front of it, which a module by itself sees by their
/// names and a program doesn't.
#[derive(Clone, Copy)]
pub struct Ground<'a> {
    surface: &'a Surface,
    shelf: &'a [Entry],
}

// The name of a definition of a text.
fn name_of(def: &SDef) -> Option<&[u8]> {
    match &def.kind {
        SDefKind::Module {
            name,
            sig: _,
            version: _,
            fields: _,
        } => Some(bytes_of(&name.word)),
        SDefKind::Import {
            name,
            sig: _,
            wants: _,
            like: _,
            by: _,
        } => Some(bytes_of(&name.word)),
        SDefKind::Mark {
            text_at: _,
            text: _,
        } => None,
    }
}

// The external name of an entry.
fn name_of_entry(entry: &Entry) -> Option<&[u8]> {
    match &entry.def {
        Def::Module(module) => Some(bytes_of(&module.name)),
        Def::Import(import) => Some(bytes_of(&import.name)),
        Def::Mark(_) => None,
    }
}

fn place_of(field: &SField) -> u32 {
    match field {
        SField::Abbrev(alias) => alias.name.at,
        SField::Val(name, _, _) => name.at,
    }
}

impl<'a> Ground<'a> {
    /// The ground of a text.
    pub fn new(surface: &'a Surface, shelf: &'a [Entry]) -> Ground<'a> {
        match &surface.expr {
            None => Ground { surface, shelf },
            Some(_) => Ground {
                surface,
                shelf: &[],
            },
        }
    }

    // Whether a place is in the expression behind the definitions.
    fn is_behind(&self, at: u32) -> bool {
        match &self.surface.expr {
            None => false,
            Some(tree) => tree.at <= at,
        }
    }

    // How many definitions begin at a place or in front of it.
    fn begun(&self, at: u32) -> usize {
        let mut count = 0usize;
        for def in self.surface.defs.as_slice() {
            if def.at <= at {
                count = count.saturating_add(1);
            }
        }
        count
    }

    // The definitions that stand whole in front of a place.
    fn defs_in_front(&self, at: u32) -> &'a [SDef] {
        let count = self.begun(at);
        let count = if self.is_behind(at) {
            count
        } else {
            count.saturating_sub(1)
        };
        self.surface.defs.as_slice().get(..count).unwrap_or(&[])
    }

    /// The definition in which a place is, `None` where it is in the expression behind all.
    pub fn def_at(&self, at: u32) -> Option<&'a SDef> {
        if self.is_behind(at) {
            return None;
        }
        self.surface.defs.get(self.begun(at).saturating_sub(1))
    }

    /// Whether a place is in the definition of this name.
    pub fn is_in(&self, at: u32, name: &[u8]) -> bool {
        match self.def_at(at) {
            None => false,
            Some(def) => name_of(def) == Some(name),
        }
    }

    /// The names of modules and imports that a place sees, the latest first.
    pub fn modules(&self, alloc: Global, at: u32) -> Result<NamesInSight<'a>, Memory> {
        let mut names = Many::new(alloc);
        for def in self.defs_in_front(at).iter().rev() {
            if let Some(name) = name_of(def) {
                names.push(name)?;
            }
        }
        for entry in self.shelf.iter().rev() {
            if let Some(name) = name_of_entry(entry) {
                names.push(name)?;
            }
        }
        names.push(b"IO")?;
        names.push(b"Str")?;
        Ok(names)
    }

    /// What stands behind a module's name and a dot at a place, `None` where no module is called so.
    pub fn members(
        &self,
        alloc: Global,
        at: u32,
        owner: &[u8],
    ) -> Result<Option<Members<'a>>, Memory> {
        for def in self.defs_in_front(at).iter().rev() {
            if name_of(def) == Some(owner) {
                return Members::written(alloc, def).map(Some);
            }
        }
        for entry in self.shelf.iter().rev() {
            if name_of_entry(entry) == Some(owner) {
                return Members::entered(alloc, entry).map(Some);
            }
        }
        match owner {
            b"IO" | b"Str" => Members::standard(alloc, owner).map(Some),
            _ => Ok(None),
        }
    }

    /// The variables and the fields that a place sees, the nearest first.
    pub fn values(&self, alloc: Global, at: u32) -> Result<NamesInSight<'a>, Memory> {
        let mut names = Many::new(alloc);
        match (self.def_at(at), &self.surface.expr) {
            (Some(def), _) => add_inner_values(&mut names, def, at)?,
            (None, Some(tree)) => add_variables(&mut names, tree, at)?,
            (None, None) => {}
        }
        turned(alloc, &names)
    }

    /// The types with a plain name that a place sees, the nearest first.
    pub fn types(&self, alloc: Global, at: u32) -> Result<NamesInSight<'a>, Memory> {
        let mut names = Many::new(alloc);
        if let Some(def) = self.def_at(at) {
            add_inner_types(&mut names, def, at)?;
        }
        turned(alloc, &names)
    }

    // Whether the module that is called so at a place shows a value of this name.
    fn shows(&self, alloc: Global, at: u32, owner: &[u8], name: &[u8]) -> Result<bool, Memory> {
        match self.members(alloc, at, owner)? {
            None => Ok(false),
            Some(members) => Ok(has(members.values.as_slice(), name)),
        }
    }

    /// The modules that a place sees and that have a value of this name, the latest first.
    pub fn owners(&self, alloc: Global, at: u32, name: &[u8]) -> Result<NamesInSight<'a>, Memory> {
        let modules = self.modules(alloc, at)?;
        let mut owners = Many::new(alloc);
        for owner in modules.as_slice() {
            if self.shows(alloc, at, owner, name)? {
                owners.push(*owner)?;
            }
        }
        Ok(owners)
    }
}

fn has(names: &[&[u8]], name: &[u8]) -> bool {
    for other in names {
        if *other == name {
            return true;
        }
    }
    false
}

// The same names, the last first.
fn turned<'a>(alloc: Global, names: &NamesInSight<'a>) -> Result<NamesInSight<'a>, Memory> {
    let mut turned = Many::new(alloc);
    for name in names.as_slice().iter().rev() {
        turned.push(*name)?;
    }
    Ok(turned)
}

// Adds the fields in front of a place of a definition, and the variables around it.
fn add_inner_values<'a>(
    names: &mut NamesInSight<'a>,
    def: &'a SDef,
    at: u32,
) -> Result<(), Memory> {
    let SDefKind::Module {
        name: _,
        sig: _,
        version: _,
        fields,
    } = &def.kind
    else {
        return Ok(());
    };
    let fields = fields.as_slice();
    for i in 0..fields.len() {
        let ends = match fields.get(i.saturating_add(1)) {
            Some(next) => place_of(next) <= at,
            None => false,
        };
        if let SField::Val(name, _, body) = &fields[i] {
            if ends {
                names.push(bytes_of(&name.word))?;
            } else if body.at <= at {
                return add_variables(names, body, at);
            }
        }
        if !ends {
            return Ok(());
        }
    }
    Ok(())
}

// Adds a name that begins in front of a place.
fn add_in_front<'a>(names: &mut NamesInSight<'a>, name: &'a SName, at: u32) -> Result<(), Memory> {
    if name.at < at {
        names.push(bytes_of(&name.word))?;
    }
    Ok(())
}

// Adds the types of a struct or a likespec that begin in front of a place.
fn add_alias<'a>(names: &mut NamesInSight<'a>, alias: &'a SAbbrev, at: u32) -> Result<(), Memory> {
    add_in_front(names, &alias.name, at)
}

fn add_specs<'a>(names: &mut NamesInSight<'a>, specs: &'a [SSpec], at: u32) -> Result<(), Memory> {
    for spec in specs {
        match spec {
            SSpec::Abstract(name) => add_in_front(names, name, at)?,
            SSpec::Manifest(alias) => add_alias(names, alias, at)?,
            SSpec::Val(_, _) => {}
        }
    }
    Ok(())
}

// Adds the types of a definition that a place in it sees: those of its signature, or of its struct.
fn add_inner_types<'a>(names: &mut NamesInSight<'a>, def: &'a SDef, at: u32) -> Result<(), Memory> {
    match &def.kind {
        SDefKind::Module {
            name: _,
            sig,
            version: _,
            fields,
        } => match fields.get(0) {
            Some(first) if place_of(first) <= at => {
                for field in fields.as_slice() {
                    if let SField::Abbrev(alias) = field {
                        add_alias(names, alias, at)?;
                    }
                }
                Ok(())
            }
            _ => add_specs(names, sig.specs.as_slice(), at),
        },
        SDefKind::Import {
            name: _,
            sig,
            wants: _,
            like,
            by: _,
        } => match like {
            Some(like) if begins(like.as_slice(), at) => {
                for alias in like.as_slice() {
                    add_alias(names, alias, at)?;
                }
                Ok(())
            }
            _ => add_specs(names, sig.specs.as_slice(), at),
        },
        SDefKind::Mark {
            text_at: _,
            text: _,
        } => Ok(()),
    }
}

// Whether a likespec begins at a place or in front of it.
fn begins(like: &[SAbbrev], at: u32) -> bool {
    match like.first() {
        Some(first) => first.name.at <= at,
        None => false,
    }
}
