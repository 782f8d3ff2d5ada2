// The type that a text is behind a program's last definition.

ghost use Rattle.std.specs.Prelude.{IfErr, IfOk};
ghost use Rattle.ac_types.specs.ReadTypes.{typ_of};
ghost use Rattle.ac_terms.specs.Read.{environment_of};
ghost use Rattle.ac_rules.specs.Coherent.{IsCoherent};
ghost use Rattle.ac_load.specs.Kinds.{Says};
ghost use Rattle.ac_audit.specs.TypeTexts.{IsTypeText, RefusesType};

use crate::scope::elaborate_type;
use crate::tree::type_tree;
use ac_load::Kind;
use ac_rules::Loaded;
use ac_types::Ty;
use std::alloc::Global;

/// The type that a text is in the scope behind the last definition of a program that is loaded. `Err`
/// is the first kind of cause that applies, or want of memory.
pub fn load_type(alloc: Global, loaded: &Loaded, text: &[u8]) -> Result<Ty, Kind>
    requires { IsCoherent (environment_of loaded.now.env) }
    ensures ty { IfOk result (λ ty. IsTypeText (environment_of loaded.now.env) text.now
        (typ_of ty)) }
    ensures refused { IfErr result (λ kind. Says kind (RefusesType (environment_of loaded.now.env)
        text.now kind)) }
{
    let tree = type_tree(alloc, text)?;
    match elaborate_type(alloc, &tree, &loaded.env) {
        Ok(ty) => Ok(ty),
        Err(fault) => Err(Kind::from(fault)),
    }
}
