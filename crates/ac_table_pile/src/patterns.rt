// Patterns, made of the parts that were read.

use crate::pile::{Pile, boxed, several, two_boxed};
use ac_terms::Pat;

impl Pile {
    /// The pattern of that form, whose parts are on top.
    pub fn pat(&mut self, form: &str) -> Option<Pat> {
        Some(match form {
            "pwild" => Pat::Wild,
            "pvar" => Pat::Var(self.top_type()),
            "pint" => Pat::Int(self.number()),
            "pbool" => Pat::Bool(self.truth()),
            "pstr" => Pat::Str(self.string()),
            "punit" => Pat::Unit,
            "ptuple" => Pat::Tuple(several(self.alloc, self.long(), &mut self.pats)?),
            "pnil" => Pat::Nil,
            "pcons" => {
                let (head, tail) = two_boxed(self.alloc, &mut self.pats)?;
                Pat::Cons(head, tail)
            }
            "pabsent" => Pat::Absent,
            "ppresent" => Pat::Present(boxed(self.alloc, &mut self.pats)?),
            "pexn" => Pat::Exn(self.bare_exn()?),
            "pexnof" => Pat::ExnOf(self.text_exn()?, boxed(self.alloc, &mut self.pats)?),
            _ => return None,
        })
    }
}
