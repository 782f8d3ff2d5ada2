// Signatures, versions, constraints and definitions.

use crate::parts::Parts;
use ac_table_pile::several;
use ac_terms::{Def, Field, Import, Module};
use ac_types::{Atom, Constraint, Many, Range, Resolve, Sig, SigType, TyField, Version};

impl Parts {
    /// Puts the part of a definition of that form onto the parts, made of those that are on top;
    /// `None` where there is no such form, or a part is missing.
    pub fn take_part(&mut self, form: &str) -> Option<()> {
        match form {
            "abstract" => {
                let name = self.pile.words.pop()?;
                let manifest = None;
                self.sig_types.push(SigType { name, manifest }).ok()
            }
            "manifest" => {
                let name = self.pile.words.pop()?;
                let manifest = Some(self.pile.top_type());
                self.sig_types.push(SigType { name, manifest }).ok()
            }
            "of" => {
                let name = self.pile.words.pop()?;
                let ty = self.pile.top_type();
                self.typed.push(TyField { name, ty }).ok()
            }
            "sig" => {
                let alloc = self.pile.alloc;
                let types = several(alloc, self.pile.long(), &mut self.sig_types)?;
                let vals = self.all_typed()?;
                self.sigs.push(Sig { types, vals }).ok()
            }
            "static" => self.resolves.push(Resolve::StaticLink).ok(),
            "here" => self.resolves.push(Resolve::HereAlready).ok(),
            "uri" => self.resolves.push(Resolve::Uri(self.pile.string())).ok(),
            "field" => {
                let name = self.pile.words.pop()?;
                let ty = self.pile.top_type();
                let term = self.pile.terms.pop()?;
                self.fields.push(Field { name, ty, term }).ok()
            }
            _ => self.take_range(form),
        }
    }

    // The same of a version or a constraint, or of a part of one.
    fn take_range(&mut self, form: &str) -> Option<()> {
        match form {
            "number" => self.atoms.push(Atom::Number(self.pile.long())).ok(),
            "myname" => self.atoms.push(Atom::MyName).ok(),
            "version" => {
                let alloc = self.pile.alloc;
                let atoms = several(alloc, self.pile.long(), &mut self.atoms)?;
                self.versions.push(Version { atoms }).ok()
            }
            "one" => self.ranges.push(Range::One(self.pile.long())).ok(),
            "between" => {
                let low = self.pile.long();
                let high = self.pile.long();
                self.ranges.push(Range::Between(low, high)).ok()
            }
            "upto" => self.ranges.push(Range::UpTo(self.pile.long())).ok(),
            "from" => self.ranges.push(Range::From(self.pile.long())).ok(),
            "exact" => {
                let name = self.pile.names.pop()?;
                self.constraints.push(Constraint::Exact(name)).ok()
            }
            "ranges" => self.take_ranges(false),
            "starred" => self.take_ranges(true),
            _ => None,
        }
    }

    // Ranges as a constraint, with a star or without.
    fn take_ranges(&mut self, star: bool) -> Option<()> {
        let atoms = several(self.pile.alloc, self.pile.long(), &mut self.ranges)?;
        self.constraints
            .push(Constraint::Ranges { atoms, star })
            .ok()
    }

    fn all_typed(&mut self) -> Option<Many<TyField>> {
        several(self.pile.alloc, self.pile.long(), &mut self.typed)
    }

    fn module(&mut self) -> Option<Module> {
        let name = self.pile.words.pop()?;
        let version = self.versions.pop()?;
        let sig = self.sigs.pop()?;
        let types = self.all_typed()?;
        let fields = several(self.pile.alloc, self.pile.long(), &mut self.fields)?;
        Some(Module {
            name,
            version,
            sig,
            types,
            fields,
        })
    }

    fn import(&mut self) -> Option<Import> {
        let name = self.pile.words.pop()?;
        let sig = self.sigs.pop()?;
        let constraint = self.constraints.pop()?;
        let like = self.all_typed()?;
        let by = several(self.pile.alloc, self.pile.long(), &mut self.resolves)?;
        Some(Import {
            name,
            sig,
            constraint,
            like,
            by,
        })
    }

    /// The definition of that form, whose parts are on top.
    pub fn def(&mut self, form: &str) -> Option<Def> {
        Some(match form {
            "module" => Def::Module(self.module()?),
            "import" => Def::Import(self.import()?),
            "mark" => Def::Mark(self.pile.string()),
            _ => return None,
        })
    }
}
