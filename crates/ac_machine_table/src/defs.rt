// The definitions of the table: a module, and an import that is linked to it.

use ac_terms::{Def, Entry, Env, Field, Import, Module, Seen, Term};
use ac_types::{Constraint, Many, Memory, Name, Sig, Text, Ty, Version, Word, both};
use std::alloc::Global;

/// The word of these bytes; an error also where they are no word.
pub fn word(alloc: Global, bytes: &[u8]) -> Result<Word, Memory> {
    match Word::new(Text::from_slice(alloc, bytes)?) {
        None => Err(Memory),
        Some(word) => Ok(word),
    }
}

fn field(alloc: Global, name: &[u8]) -> Result<Field, Memory> {
    word(alloc, name).map(|name| Field {
        name,
        ty: Ty::Int,
        term: Term::Unit,
    })
}

fn fields(alloc: Global) -> Result<Many<Field>, Memory> {
    let mut fields = Many::new(alloc);
    fields.push(field(alloc, b"f")?)?;
    fields.push(field(alloc, b"g")?)?;
    Ok(fields)
}

fn no_sig(alloc: Global) -> Sig {
    Sig {
        types: Many::new(alloc),
        vals: Many::new(alloc),
    }
}

// A module with the fields f and g.
fn module(alloc: Global) -> Result<Def, Memory> {
    both(word(alloc, b"M"), fields(alloc)).map(|(name, fields)| {
        Def::Module(Module {
            name,
            version: Version {
                atoms: Many::new(alloc),
            },
            sig: no_sig(alloc),
            types: Many::new(alloc),
            fields,
        })
    })
}

fn import(alloc: Global) -> Result<Def, Memory> {
    word(alloc, b"M").map(|name| {
        Def::Import(Import {
            name,
            sig: no_sig(alloc),
            constraint: Constraint::Exact(Name([7; 32])),
            like: Many::new(alloc),
            by: Many::new(alloc),
        })
    })
}

fn entry(def: Def, link: Option<u32>) -> Entry {
    Entry {
        def,
        name: None,
        seen: Seen::Own,
        link,
    }
}

/// The module, and an import that is linked to it.
pub fn entries(alloc: Global) -> Result<Env, Memory> {
    let mut env = Env::new(alloc);
    env.push(entry(module(alloc)?, None))?;
    env.push(entry(import(alloc)?, Some(0)))?;
    Ok(env)
}
