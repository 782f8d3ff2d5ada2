// Entries of letters.

use ac_terms::{Def, Entry, Field, Import, Module, Seen, Term};
use ac_types::{
    Boxed, Constraint, Many, Memory, Name, Sig, SigType, Text, Ty, TyField, Version, Word,
};
use std::alloc::Global;

pub type Made<T> = Result<T, Memory>;

/// What makes entries.
#[derive(Clone, Copy)]
pub struct Make(pub Global);

impl Make {
    /// The entry that a word spells.
    pub fn entry(self, word: &[u8]) -> Made<Entry> {
        match word {
            [kind, letter, rest @ ..] => self.of_kind(*kind, *letter, rest),
            _ => Err(Memory),
        }
    }

    fn of_kind(self, kind: u8, letter: u8, rest: &[u8]) -> Made<Entry> {
        let (sig, own) = parts(rest);
        match kind {
            b'm' => {
                let module = self.module(letter, sig, own)?;
                Ok(entry(Def::Module(module), Some(letter), None))
            }
            b'i' => {
                let import = self.import(letter, sig, own)?;
                Ok(entry(Def::Import(import), Some(letter), Some(0)))
            }
            _ => Ok(entry(Def::Mark(self.text(letter)?), None, None)),
        }
    }

    fn module(self, letter: u8, sig: &[u8], own: &[u8]) -> Made<Module> {
        Ok(Module {
            name: self.word(letter)?,
            version: Version {
                atoms: Many::new(self.0),
            },
            sig: self.sig(sig)?,
            types: self.typed(own)?,
            fields: self.fields(own)?,
        })
    }

    fn import(self, letter: u8, sig: &[u8], own: &[u8]) -> Made<Import> {
        Ok(Import {
            name: self.word(letter)?,
            sig: self.sig(sig)?,
            constraint: Constraint::Exact(name(letter)),
            like: self.typed(own)?,
            by: Many::new(self.0),
        })
    }

    fn sig(self, letters: &[u8]) -> Made<Sig> {
        let mut types = Many::new(self.0);
        for letter in letters {
            if letter.is_ascii_lowercase() {
                types.push(SigType {
                    name: self.word(b'm')?,
                    manifest: Some(self.of(letter.to_ascii_uppercase())?),
                })?;
            }
        }
        let vals = self.typed(letters)?;
        Ok(Sig { types, vals })
    }

    // The types of the definitions of these capitals, each beside a name.
    fn typed(self, letters: &[u8]) -> Made<Many<TyField>> {
        let mut all = Many::new(self.0);
        for letter in letters {
            if letter.is_ascii_uppercase() {
                all.push(TyField {
                    name: self.word(b'v')?,
                    ty: self.of(*letter)?,
                })?;
            }
        }
        Ok(all)
    }

    fn fields(self, letters: &[u8]) -> Made<Many<Field>> {
        let mut all = Many::new(self.0);
        for letter in letters {
            let name = self.word(b'f')?;
            match self.term(*letter)? {
                Some(term) => all.push(Field {
                    name,
                    ty: Ty::Unit,
                    term,
                })?,
                None => drop(name),
            }
        }
        Ok(all)
    }

    // A reference to an entry, or a function from a definition's type.
    fn term(self, letter: u8) -> Made<Option<Term>> {
        if letter.is_ascii_digit() {
            let word = self.word(b'x')?;
            return Ok(Some(Term::Ref(u32::from(letter - b'0'), word)));
        }
        if !letter.is_ascii_lowercase() {
            return Ok(None);
        }
        let ty = self.of(letter.to_ascii_uppercase())?;
        let body = Boxed::new(self.0, Term::Unit)?;
        Ok(Some(Term::Lam(ty, body)))
    }

    // The type `t` of the definition of that name.
    fn of(self, letter: u8) -> Made<Ty> {
        let word = self.word(b't')?;
        Ok(Ty::Abs(name(letter), word))
    }

    fn word(self, letter: u8) -> Made<Word> {
        Word::new(self.text(letter)?).ok_or(Memory)
    }

    fn text(self, letter: u8) -> Made<Text> {
        let bytes = [letter];
        Text::from_slice(self.0, bytes.as_slice())
    }
}

fn name(letter: u8) -> Name {
    Name([letter; 32])
}

fn entry(def: Def, letter: Option<u8>, link: Option<u32>) -> Entry {
    Entry {
        def,
        name: letter.map(name),
        seen: Seen::Own,
        link,
    }
}

// The signature's letters, and those of what stands behind it.
fn parts(letters: &[u8]) -> (&[u8], &[u8]) {
    match letters.iter().position(|letter| *letter == b'=') {
        None => (letters, &[]),
        Some(at) => (&letters[..at], &letters[at..]),
    }
}
