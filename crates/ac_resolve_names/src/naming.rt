// The name of a definition.

ghost use Rattle.std.specs.Prelude.{◌≡◌, option_map, IfOk};
ghost use Rattle.sha2.specs.Sha256.{sha256};
ghost use Rattle.ac_terms.specs.Read.{environment_of, def_of_code, name_of_code};
ghost use Rattle.ac_terms.specs.Names.{name_by};

use ac_bytes::Out;
use ac_canon::{ByName, put_import, put_module};
use ac_terms::{Def, Env};
use ac_types::{Constraint, Memory, Name, Text};
use sha2::{Digest, Sha256};
use std::alloc::Global;

/// The name of a definition behind these entries, `None` for a mark: an import by exact name has
/// the name that it demands, a module or an import by version the SHA-256 of its canonical text.
pub fn name_of_def(alloc: Global, env: &Env, def: &Def) -> Result<Option<Name>, Memory>
    ensures { IfOk result (λ n. option_map name_of_code n ≡
        name_by sha256 (environment_of env.now) (def_of_code def.now)) }
{
    match def {
        Def::Module(module) => {
            let mut out = Out::new(alloc);
            put_module(&mut out, &ByName { env }, module)?;
            Ok(Some(digest(&out.into_text())))
        }
        Def::Import(import) => match &import.constraint {
            Constraint::Exact(name) => Ok(Some(*name)),
            Constraint::Ranges { atoms: _, star: _ } => {
                let mut out = Out::new(alloc);
                put_import(&mut out, &ByName { env }, import)?;
                Ok(Some(digest(&out.into_text())))
            }
        },
        Def::Mark(_) => Ok(None),
    }
}

fn digest(text: &Text) -> Name
    ensures { result.0 ≡ sha256 text.now.0 }
{
    Name(Sha256::digest(text.as_slice()))
}
