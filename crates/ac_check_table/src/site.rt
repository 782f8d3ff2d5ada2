// Where a term stands.

use crate::types::{NAME, OTHER};
use ac_check::{CheckFault, check_value, type_of};
use ac_terms::{Def, Entry, Env, Field, Home, Import, Module, PVal, Seen, Term};
use ac_types::{
    Constraint, Many, Memory, Name, Sig, SigType, Text, Ty, TyField, Version, Word, both,
};
use std::alloc::Global;

/// The text `s`.
pub fn text(alloc: Global) -> Result<Text, Memory> {
    Text::from_slice(alloc, b"s")
}

/// The identifier `t`.
pub fn word(alloc: Global) -> Result<Word, Memory> {
    match Word::new(Text::from_slice(alloc, b"t")?) {
        None => Err(Memory),
        Some(word) => Ok(word),
    }
}

/// The definitions in front of a term, its home, and the types of its variables.
#[derive(Drop)]
pub struct Site {
    env: Env,
    home: Home,
    own: u32,
    refs: u32,
    vars: Many<Ty>,
}

impl Site {
    /// The main program behind no definition. Variable 0 is an int, variable 1 a bool.
    pub fn alone(alloc: Global) -> Result<Site, Memory> {
        let mut vars = Many::new(alloc);
        vars.push(Ty::Int)?;
        vars.push(Ty::Bool)?;
        Ok(Site {
            env: Env::new(alloc),
            home: Home::Main,
            own: 0,
            refs: 0,
            vars,
        })
    }

    /// That home behind `module t : sig type t val t : t end = struct type t = int let t : t = 1
    /// end`, an import of it by version, like `int`, and one by its exact name.
    pub fn behind_module(alloc: Global, home: Home) -> Result<Site, Memory> {
        let mut env = Env::new(alloc);
        env.push(entry(NAME, module(alloc).map(Def::Module)?, None))?;
        let ranges = Constraint::Ranges {
            atoms: Many::new(alloc),
            star: true,
        };
        let by_version = import(alloc, ranges, only(alloc, own(alloc)));
        env.push(entry(OTHER, by_version.map(Def::Import)?, Some(0)))?;
        let by_name = import(alloc, Constraint::Exact(NAME), Ok(Many::new(alloc)));
        env.push(entry(NAME, by_name.map(Def::Import)?, Some(0)))?;
        Ok(Site {
            env,
            home,
            own: if home == Home::In(0) { 1 } else { 0 },
            refs: 3,
            vars: Many::new(alloc),
        })
    }

    /// The type of a term here, `None` where there are many definitions.
    pub fn type_of(&self, alloc: Global, term: &Term) -> Option<Result<Ty, CheckFault>> {
        if self.env.len() < 10 {
            Some(type_of(
                alloc, &self.env, self.home, self.own, self.refs, &self.vars, term,
            ))
        } else {
            None
        }
    }

    /// Whether a packed value is of a type here, `None` where there are many definitions.
    pub fn check_value(&self, alloc: Global, ty: &Ty, v: &PVal) -> Option<Result<(), CheckFault>> {
        if self.env.len() < 10 {
            Some(check_value(alloc, &self.env, ty, v))
        } else {
            None
        }
    }
}

fn only<T: Drop>(alloc: Global, item: Result<T, Memory>) -> Result<Many<T>, Memory> {
    let item = item?;
    let mut items = Many::new(alloc);
    items.push(item)?;
    Ok(items)
}

fn shown(alloc: Global) -> Result<SigType, Memory> {
    word(alloc).map(|name| SigType {
        name,
        manifest: None,
    })
}

fn own(alloc: Global) -> Result<TyField, Memory> {
    word(alloc).map(|name| TyField { name, ty: Ty::Int })
}

fn shown_value(alloc: Global) -> Result<TyField, Memory> {
    let (name, own) = both(word(alloc), word(alloc))?;
    Ok(TyField {
        name,
        ty: Ty::Mine(own),
    })
}

fn sig(alloc: Global) -> Result<Sig, Memory> {
    let types = only(alloc, shown(alloc));
    both(types, only(alloc, shown_value(alloc))).map(|(types, vals)| Sig { types, vals })
}

fn field(alloc: Global) -> Result<Field, Memory> {
    word(alloc).map(|name| Field {
        name,
        ty: Ty::Int,
        term: Term::Int(1),
    })
}

fn module(alloc: Global) -> Result<Module, Memory> {
    let inside = both(only(alloc, own(alloc)), only(alloc, field(alloc)));
    let (name, (sig, (types, fields))) = both(word(alloc), both(sig(alloc), inside))?;
    Ok(Module {
        name,
        version: Version {
            atoms: Many::new(alloc),
        },
        sig,
        types,
        fields,
    })
}

fn import(
    alloc: Global,
    constraint: Constraint,
    like: Result<Many<TyField>, Memory>,
) -> Result<Import, Memory> {
    let (name, (sig, like)) = both(word(alloc), both(sig(alloc), like))?;
    Ok(Import {
        name,
        sig,
        constraint,
        like,
        by: Many::new(alloc),
    })
}

fn entry(name: Name, def: Def, link: Option<u32>) -> Entry {
    Entry {
        def,
        name: Some(name),
        seen: Seen::Own,
        link,
    }
}
