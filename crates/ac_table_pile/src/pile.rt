// The parts that were read, from the end of a line on: of each kind the leftmost on top.

use ac_terms::{Arm, PVal, Pat, Term};
use ac_types::{BareExn, Boxed, ExnKind, Many, Name, Primitive, Text, TextExn, Ty, Word};
use std::alloc::Global;

/// What is still to be taken by a form to the left. Where a number, a type or a string that a form
/// wants isn't there, another stands for it, and the pile is no longer whole.
pub struct Pile {
    /// What memory is taken from.
    pub alloc: Global,
    /// Whether all that forms wanted was there.
    pub whole: bool,
    /// Numbers.
    pub numbers: Vec<i64>,
    /// Identifiers.
    pub words: Vec<Word>,
    /// Strings.
    pub texts: Vec<Text>,
    /// Names of definitions.
    pub names: Vec<Name>,
    /// Types.
    pub types: Vec<Ty>,
    /// Patterns.
    pub pats: Vec<Pat>,
    /// Terms.
    pub terms: Vec<Term>,
    /// Arms.
    pub arms: Vec<Arm>,
    /// Packed values.
    pub values: Vec<PVal>,
}

impl Pile {
    /// An empty pile.
    pub fn new(alloc: Global) -> Pile {
        Pile {
            alloc,
            whole: true,
            numbers: Vec::new(alloc),
            words: Vec::new(alloc),
            texts: Vec::new(alloc),
            names: Vec::new(alloc),
            types: Vec::new(alloc),
            pats: Vec::new(alloc),
            terms: Vec::new(alloc),
            arms: Vec::new(alloc),
            values: Vec::new(alloc),
        }
    }

    /// Puts the type, pattern, term, arm or value of that form onto the pile, made of the parts that
    /// are on top; `None` where there is no such form, or a part is missing.
    pub fn take(&mut self, form: &str) -> Option<()> {
        self.put(form)?;
        if self.whole { Some(()) } else { None }
    }

    fn put(&mut self, form: &str) -> Option<()> {
        if let Some(ty) = self.ty(form) {
            return self.types.push(ty).ok();
        }
        if let Some(pat) = self.pat(form) {
            return self.pats.push(pat).ok();
        }
        if let Some(term) = self.term(form) {
            return self.terms.push(term).ok();
        }
        if let Some(arm) = self.arm(form) {
            return self.arms.push(arm).ok();
        }
        let value = self.value(form)?;
        self.values.push(value).ok()
    }

    /// The top number.
    pub fn number(&mut self) -> i64 {
        match self.numbers.pop() {
            Some(number) => number,
            None => {
                self.whole = false;
                0
            }
        }
    }

    /// The top number, in one byte.
    pub fn small(&mut self) -> u8 {
        match u8::try_from(self.number()) {
            Ok(number) => number,
            Err(_) => {
                self.whole = false;
                0
            }
        }
    }

    /// The exception without a text of the top number; `None` where there is none.
    pub fn bare_exn(&mut self) -> Option<BareExn> {
        match ExnKind::from_number(self.small())? {
            ExnKind::Bare(exn) => Some(exn),
            ExnKind::Text(_) => None,
        }
    }

    /// The exception with a text of the top number; `None` where there is none.
    pub fn text_exn(&mut self) -> Option<TextExn> {
        match ExnKind::from_number(self.small())? {
            ExnKind::Bare(_) => None,
            ExnKind::Text(exn) => Some(exn),
        }
    }

    /// The primitive of the top number; `None` where there is none.
    pub fn primitive(&mut self) -> Option<Primitive> {
        Primitive::from_number(self.small())
    }

    /// The top number, in two bytes.
    pub fn short(&mut self) -> u16 {
        match u16::try_from(self.number()) {
            Ok(number) => number,
            Err(_) => {
                self.whole = false;
                0
            }
        }
    }

    /// The top number, in four bytes.
    pub fn long(&mut self) -> u32 {
        match u32::try_from(self.number()) {
            Ok(number) => number,
            Err(_) => {
                self.whole = false;
                0
            }
        }
    }

    /// Whether the top number is 1.
    pub fn truth(&mut self) -> bool {
        self.number() == 1
    }

    /// The top type.
    pub fn top_type(&mut self) -> Ty {
        match self.types.pop() {
            Some(ty) => ty,
            None => {
                self.whole = false;
                Ty::Unit
            }
        }
    }

    /// The top string.
    pub fn string(&mut self) -> Text {
        match self.texts.pop() {
            Some(text) => text,
            None => {
                self.whole = false;
                Text::new(self.alloc)
            }
        }
    }

    /// The top term, in a box.
    pub fn boxed_term(&mut self) -> Option<Boxed<Term>> {
        boxed(self.alloc, &mut self.terms)
    }
}

impl Drop for Pile {
    fn drop(self) {
        let Pile {
            alloc: _,
            whole: _,
            numbers: _,
            words: _,
            texts: _,
            names: _,
            types: _,
            pats: _,
            terms: _,
            arms: _,
            values: _,
        } = self;
    }
}

/// The top of a pile, in a box.
pub fn boxed<T: Drop>(alloc: Global, pile: &mut Vec<T>) -> Option<Boxed<T>> {
    Boxed::new(alloc, pile.pop()?).ok()
}

/// The two on top of a pile, each in a box.
pub fn two_boxed<T: Drop>(alloc: Global, pile: &mut Vec<T>) -> Option<(Boxed<T>, Boxed<T>)> {
    let first = boxed(alloc, pile)?;
    Some((first, boxed(alloc, pile)?))
}

/// That many from the top of a pile, in their order.
pub fn several<T: Drop>(alloc: Global, count: u32, pile: &mut Vec<T>) -> Option<Many<T>> {
    let mut items = Many::new(alloc);
    for _ in 0..count {
        items.push(pile.pop()?).ok()?;
    }
    Some(items)
}
