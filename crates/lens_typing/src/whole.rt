// The definition or the expression that has no type.

ghost use Rattle.std.specs.Prelude.{◌<◌, ◌^◌, length};

use crate::fields::{why_field, why_untyped};
use crate::untyped::Standing;
use ac_syntax::{SDefKind, SField, Surface};
use ac_terms::{Def, Env, Field, Home, Term};
use ac_types::Memory;
use lens_say::{Message, Owners};
use std::alloc::Global;

// What is said of the first ill-typed field of entry `i`.
fn why_fields(
    alloc: Global,
    env: &Env,
    i: u32,
    trees: &[SField],
    fields: &[Field],
) -> Result<Option<Message>, Memory>
    requires { length env.now.entries < 2 ^ 32 }
{
    let owners = Owners::new(alloc, env);
    let mut own = 0u32;
    for tree in trees {
        if let SField::Val(_, _, body) = tree
            && let Some(field) = fields.get(own as usize)
        {
            let standing = Standing {
                env,
                home: Home::In(i),
                own,
                refs: i,
            };
            if let Some(message) = why_field(alloc, &standing, &owners, body, field)? {
                return Ok(Some(message));
            }
            own = own.saturating_add(1);
        }
    }
    Ok(None)
}

// What is said of the expression behind all entries.
fn why_main(
    alloc: Global,
    env: &Env,
    surface: &Surface,
    main: &Term,
) -> Result<Option<Message>, Memory>
    requires { length env.now.entries < 2 ^ 32 }
{
    let Some(tree) = &surface.expr else {
        return Ok(None);
    };
    let standing = Standing {
        env,
        home: Home::Main,
        own: 0,
        refs: env.len() as u32,
    };
    why_untyped(alloc, &standing, &Owners::new(alloc, env), tree, main)
}

/// What is said of definition `def` of a text, or of the expression behind all, which is ill-typed.
/// The entries are those in front of the text's, so many, and the text's; `main` is the term of its
/// expression.
pub fn why_ill_typed(
    alloc: Global,
    env: &Env,
    front: u32,
    surface: &Surface,
    main: &Term,
    def: u32,
) -> Result<Option<Message>, Memory>
    requires { length env.now.entries < 2 ^ 32 }
{
    let i = front.saturating_add(def);
    let Some(tree) = surface.defs.get(def as usize) else {
        return why_main(alloc, env, surface, main);
    };
    let (SDefKind::Module { fields: trees, .. }, Some(entry)) = (&tree.kind, env.entry(i)) else {
        return Ok(None);
    };
    match &entry.def {
        Def::Module(module) => {
            why_fields(alloc, env, i, trees.as_slice(), module.fields.as_slice())
        }
        _ => Ok(None),
    }
}
