// Packed values.

use crate::pile::{Pile, boxed, several};
use ac_terms::{Home, PVal};
use ac_types::Exn;

impl Pile {
    /// The packed value of that form, whose parts are on top.
    pub fn value(&mut self, form: &str) -> Option<PVal> {
        Some(match form {
            "vint" => PVal::Int(self.number()),
            "vbool" => PVal::Bool(self.truth()),
            "vstr" => PVal::Str(self.string()),
            "vunit" => PVal::Unit,
            "vexn" => PVal::Exn(Exn::Bare(self.bare_exn()?)),
            "vexnof" => PVal::Exn(Exn::Text(self.text_exn()?, self.string())),
            "vtuple" => PVal::Tuple(several(self.alloc, self.long(), &mut self.values)?),
            "vlist" => PVal::List(several(self.alloc, self.long(), &mut self.values)?),
            "vabsent" => PVal::Absent,
            "vpresent" => PVal::Present(boxed(self.alloc, &mut self.values)?),
            "vmain" => PVal::Fun(Home::Main, boxed(self.alloc, &mut self.terms)?),
            "vin" => PVal::Fun(Home::In(self.long()), boxed(self.alloc, &mut self.terms)?),
            _ => return None,
        })
    }
}
