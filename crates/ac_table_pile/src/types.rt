// Types, made of the parts that were read.

use crate::pile::{Pile, boxed, several, two_boxed};
use ac_types::Ty;

impl Pile {
    /// The type of that form, whose parts are on top.
    pub fn ty(&mut self, form: &str) -> Option<Ty> {
        Some(match form {
            "int" => Ty::Int,
            "bool" => Ty::Bool,
            "string" => Ty::Str,
            "unit" => Ty::Unit,
            "exn" => Ty::Exn,
            "tuple" => Ty::Tuple(several(self.alloc, self.long(), &mut self.types)?),
            "list" => Ty::List(boxed(self.alloc, &mut self.types)?),
            "option" => Ty::Opt(boxed(self.alloc, &mut self.types)?),
            "fun" => {
                let (from, to) = two_boxed(self.alloc, &mut self.types)?;
                Ty::Fun(from, to)
            }
            "abs" => Ty::Abs(self.names.pop()?, self.words.pop()?),
            "mine" => Ty::Mine(self.words.pop()?),
            _ => return None,
        })
    }
}
