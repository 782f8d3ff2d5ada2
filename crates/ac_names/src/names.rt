// The name of a definition, and its digits.

ghost use Rattle.std.specs.Prelude.{◌≡◌, Some, is_some, option_map, IfOk, IsSome};
ghost use Rattle.sha2.specs.Sha256.{sha256};
ghost use Rattle.hex.specs.Hex.{encode_lower};
ghost use Rattle.ac_terms.specs.Read.{environment_of, name_of_code};
ghost use Rattle.ac_terms.specs.Names.{name_of_entry};
ghost use Rattle.ac_names.specs.inner.Demanded.{demanded_at};

use ac_canon::def_text;
use ac_terms::{Def, Env};
use ac_types::{Constraint, Memory, Name, Text};
use sha2::{Digest, Sha256};
use std::alloc::Global;

/// Whether entry `i` is a module or an import, which have a name.
#[tactic(auto, using(ac_terms::proofs::EnvLaws::env_laws))]
pub fn has_name(env: &Env, i: u32) -> bool
    ensures { result ≡ is_some (name_of_entry (environment_of env.now) i) }
{
    match env.entry(i) {
        None => false,
        Some(entry) => match &entry.def {
            Def::Module(_) => true,
            Def::Import(_) => true,
            Def::Mark(_) => false,
        },
    }
}

/// The name of entry `i`: an import by exact name has the name that it demands, a module or an
/// import by version the SHA-256 of its canonical text.
pub fn name_of(alloc: Global, env: &Env, i: u32) -> Result<Name, Memory>
    requires { IsSome (name_of_entry (environment_of env.now) i) }
    ensures { IfOk result (λ n. name_of_entry (environment_of env.now) i ≡ Some n.0) }
{
    match demanded_name(env, i) {
        Some(name) => Ok(name),
        None => {
            let text = def_text(alloc, env, i)?;
            Ok(digest(&text))
        }
    }
}

// The name that entry `i` demands, where it is an import by exact name.
#[tactic(auto, using(ac_terms::proofs::EnvLaws::env_laws))]
fn demanded_name(env: &Env, i: u32) -> Option<Name>
    ensures { option_map name_of_code result ≡ demanded_at (environment_of env.now) i }
{
    match &env.entry(i)?.def {
        Def::Import(import) => match &import.constraint {
            Constraint::Exact(name) => Some(*name),
            Constraint::Ranges { atoms: _, star: _ } => None,
        },
        Def::Module(_) => None,
        Def::Mark(_) => None,
    }
}

fn digest(text: &Text) -> Name
    ensures { result.0 ≡ sha256 text.now.0 }
{
    Name(Sha256::digest(text.as_slice()))
}

/// The 64 lower-case digits of a name.
pub fn name_hex(alloc: Global, n: &Name) -> Result<Text, Memory>
    ensures { IfOk result (λ text. text.0 ≡ encode_lower n.now.0) }
{
    let digits = hex::encode(alloc, n.0.as_slice())?;
    Text::from_slice(alloc, digits.as_bytes())
}
