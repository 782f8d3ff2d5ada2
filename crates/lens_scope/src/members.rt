// What stands behind a module's name and a dot.

use ac_syntax::{SDef, SDefKind, SField, SSpec};
use ac_terms::{Def, Entry, Module};
use ac_types::{Many, Memory, Sig, Word};
use std::alloc::Global;

const OF_IO: &[&[u8]] = &[b"print_int", b"print_string", b"send", b"receive"];

const OF_STR: &[&[u8]] = &[b"length", b"sub", b"of_int"];

/// What stands behind a module's name and a dot, and what only its struct has.
#[derive(Drop)]
pub struct Members<'a> {
    /// The values that its signature shows.
    pub values: Many<&'a [u8]>,
    /// The types that its signature shows.
    pub types: Many<&'a [u8]>,
    /// The values of its struct.
    pub inner_values: Many<&'a [u8]>,
    /// The types of its struct.
    pub inner_types: Many<&'a [u8]>,
}

// The bytes of a name.
pub fn bytes_of(word: &Word) -> &[u8] {
    word.text().as_slice()
}

impl<'a> Members<'a> {
    /// Nothing.
    pub fn none(alloc: Global) -> Members<'a> {
        Members {
            values: Many::new(alloc),
            types: Many::new(alloc),
            inner_values: Many::new(alloc),
            inner_types: Many::new(alloc),
        }
    }

    /// What stands behind `IO.` and `Str.`; nothing behind another name.
    pub fn standard(alloc: Global, owner: &[u8]) -> Result<Members<'a>, Memory> {
        let mut members = Members::none(alloc);
        let names: &'static [&'static [u8]] = match owner {
            b"IO" => OF_IO,
            b"Str" => OF_STR,
            _ => &[],
        };
        for name in names {
            members.values.push(*name)?;
        }
        Ok(members)
    }

    /// What a definition of a text has.
    pub fn written(alloc: Global, def: &'a SDef) -> Result<Members<'a>, Memory> {
        let mut members = Members::none(alloc);
        match &def.kind {
            SDefKind::Module {
                name: _,
                sig,
                version: _,
                fields,
            } => {
                members.add_specs(sig.specs.as_slice())?;
                members.add_fields(fields.as_slice())?;
            }
            SDefKind::Import {
                name: _,
                sig,
                wants: _,
                like: _,
                by: _,
            } => members.add_specs(sig.specs.as_slice())?,
            SDefKind::Mark {
                text_at: _,
                text: _,
            } => {}
        }
        Ok(members)
    }

    fn add_specs(&mut self, specs: &'a [SSpec]) -> Result<(), Memory> {
        for spec in specs {
            match spec {
                SSpec::Abstract(name) => self.types.push(bytes_of(&name.word))?,
                SSpec::Manifest(alias) => self.types.push(bytes_of(&alias.name.word))?,
                SSpec::Val(name, _) => self.values.push(bytes_of(&name.word))?,
            }
        }
        Ok(())
    }

    fn add_fields(&mut self, fields: &'a [SField]) -> Result<(), Memory> {
        for field in fields {
            match field {
                SField::Abbrev(alias) => self.inner_types.push(bytes_of(&alias.name.word))?,
                SField::Val(name, _, _) => self.inner_values.push(bytes_of(&name.word))?,
            }
        }
        Ok(())
    }

    /// What an entry has.
    pub fn entered(alloc: Global, entry: &'a Entry) -> Result<Members<'a>, Memory> {
        let mut members = Members::none(alloc);
        match &entry.def {
            Def::Module(module) => {
                members.add_sig(&module.sig)?;
                members.add_struct(module)?;
            }
            Def::Import(import) => members.add_sig(&import.sig)?,
            Def::Mark(_) => {}
        }
        Ok(members)
    }

    fn add_sig(&mut self, sig: &'a Sig) -> Result<(), Memory> {
        for item in sig.types.as_slice() {
            self.types.push(bytes_of(&item.name))?;
        }
        for item in sig.vals.as_slice() {
            self.values.push(bytes_of(&item.name))?;
        }
        Ok(())
    }

    fn add_struct(&mut self, module: &'a Module) -> Result<(), Memory> {
        for item in module.types.as_slice() {
            self.inner_types.push(bytes_of(&item.name))?;
        }
        for item in module.fields.as_slice() {
            self.inner_values.push(bytes_of(&item.name))?;
        }
        Ok(())
    }
}
