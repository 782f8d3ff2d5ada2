// A walk: what it has written, which definitions that speaks of, and what is still to be visited.

ghost use Rattle.std.specs.Prelude.{suc, ◌≡◌, ◌++◌, ◌∷◌, [], ℕ, List, OnOk, MatchOption};
ghost use Rattle.ac_terms.specs.Spelling.{truth, str, word, one_written, two_written, four_written, eight_written, home_bytes};
ghost use Rattle.ac_terms.specs.Read.{home_of};
ghost use Rattle.ac_terms.specs.Renumbered.{home_by};
ghost use Rattle.ac_terms.specs.Heads.{Head, next_head, before, value_heads};
ghost use Rattle.ac_terms.specs.Tags.{value_list, term_ref, value_fun};
ghost use Rattle.ac_rules.specs.Plain.{stays};
ghost use Rattle.ac_pack_heads.specs.Outcomes.{On};
ghost use Rattle.ac_pack_terms.specs.Spoken.{spoken_by_home};
ghost use Rattle.ac_pack_terms.specs.Pieces.{heads_at, roots_at, number_at};
ghost use Rattle.ac_pack_terms.specs.inner.Goes.{comes, Visits};

use crate::piece::{PackContext, Piece};
use ac_pack_heads as heads;
use ac_pack_heads::Stop;
use ac_terms::{Home, tags};
use ac_types::{Many, Memory, Text, Word};
use std::alloc::Global;

/// A walk on its way.
#[derive(Drop)]
pub struct Walk<'a> {
    /// Where it goes.
    pub site: PackContext<'a>,
    /// The bytes so far.
    pub text: Text,
    /// The definitions that they speak of.
    pub roots: Many<u32>,
    /// What is still to be visited, the next one last.
    pub pieces: Vec<Piece<'a>>,
}

impl<'a> Walk<'a> {
    /// A walk that has nothing to visit.
    pub fn new(alloc: Global, site: PackContext<'a>) -> Walk<'a>
        ensures site { result.site ≡ site.entry }
        ensures text { result.text.0 ≡ [] }
        ensures roots { result.roots ≡ [] }
        ensures pieces { result.pieces.items ≡ [] }
    {
        Walk {
            site,
            text: Text::new(alloc),
            roots: Many::new(alloc),
            pieces: Vec::new(alloc),
        }
    }

    // One more piece, which is visited next.
    fn add(&mut self, piece: Piece<'a>) -> Result<(), Memory>
        ensures site { OnOk result (self.new.site ≡ self.old.site) }
        ensures text { OnOk result (self.new.text ≡ self.old.text) }
        ensures roots { OnOk result (self.new.roots ≡ self.old.roots) }
        ensures pieces { OnOk result (self.new.pieces.items ≡ self.old.pieces.items ++
            piece.entry ∷ []) }
    {
        self.pieces.push(piece)?;
        Ok(())
    }

    /// Writes the head of a part that nests so deep. Stops where it nests too far, or where too
    /// much is written then.
    pub fn head(&mut self, d: u32, bytes: &[u8]) -> Result<(), Stop>
        ensures { Visits result (next_head d bytes.now ∷ []) [] self.old self.new }
    {
        heads::write_head(&mut self.text, d, bytes)
    }

    /// A head that holds a number of eight bytes.
    pub fn int(&mut self, d: u32, tag: u8, n: i64) -> Result<(), Stop>
        ensures { Visits result (next_head d (tag ∷ eight_written n) ∷ []) [] self.old self.new }
    {
        heads::int_head(&mut self.text, d, tag, n)
    }

    /// A head that holds a number of two bytes.
    pub fn short(&mut self, d: u32, tag: u8, n: u16) -> Result<(), Stop>
        ensures { Visits result (next_head d (tag ∷ two_written n) ∷ []) [] self.old self.new }
    {
        heads::short_head(&mut self.text, d, tag, n)
    }

    /// A head that holds a truth value.
    pub fn truth(&mut self, d: u32, tag: u8, b: bool) -> Result<(), Stop>
        ensures { Visits result (next_head d (tag ∷ truth b) ∷ []) [] self.old self.new }
    {
        heads::truth_head(&mut self.text, d, tag, b)
    }

    /// A head that holds a string behind these bytes.
    pub fn string(&mut self, d: u32, front: &[u8], text: &[u8]) -> Result<(), Stop>
        ensures { Visits result (next_head d (front.now ++ str text.now) ∷ []) [] self.old
            self.new }
    {
        heads::string_head(&mut self.text, d, front, text)
    }

    /// The head of a list without items.
    pub fn nil(&mut self, d: u32) -> Result<(), Stop>
        ensures { Visits result (next_head d (value_list ∷ four_written 0) ∷ []) [] self.old
            self.new }
    {
        heads::count_head(&mut self.text, d, tags::VALUE_LIST, 0)
    }

    /// A reference to a value of a definition, which is written by this number.
    #[tactic(auto, using(crate::proofs::WalkLaws::stop_laws), unfolding(crate::specs::inner::Goes::Visits))]
    pub fn reference(&mut self, d: u32, entry: u32, number: u16, name: &Word) -> Result<(), Stop>
        ensures { Visits result (next_head d (term_ref ∷ two_written number ++ word name.now) ∷
            []) (entry ∷ []) self.old self.new }
    {
        heads::named_head(&mut self.text, d, tags::TERM_REF, number, name)?;
        self.roots.push(entry)?;
        Ok(())
    }

    /// A head, and then one piece.
    #[tactic(auto, using(crate::proofs::WalkLaws::stop_laws), unfolding(crate::specs::inner::Goes::Visits))]
    pub fn one(&mut self, d: u32, bytes: &[u8], first: Piece<'a>) -> Result<(), Stop>
        ensures { Visits result (next_head d bytes.now ∷ heads_at self.old.site first.entry)
            (roots_at self.old.site first.entry) self.old self.new }
    {
        heads::write_head(&mut self.text, d, bytes)?;
        self.add(first)?;
        Ok(())
    }

    /// A head, and then two pieces.
    #[tactic(auto, using(crate::proofs::WalkLaws::stop_laws), unfolding(crate::specs::inner::Goes::Visits))]
    pub fn two(
        &mut self,
        d: u32,
        bytes: &[u8],
        first: Piece<'a>,
        second: Piece<'a>,
    ) -> Result<(), Stop>
        ensures { Visits result (next_head d bytes.now ∷ heads_at self.old.site first.entry ++
            heads_at self.old.site second.entry) (roots_at self.old.site first.entry ++
            roots_at self.old.site second.entry) self.old self.new }
    {
        heads::write_head(&mut self.text, d, bytes)?;
        self.add(second)?;
        self.add(first)?;
        Ok(())
    }

    /// A head, and then three pieces.
    #[tactic(auto, using(crate::proofs::WalkLaws::stop_laws), unfolding(crate::specs::inner::Goes::Visits))]
    pub fn three(
        &mut self,
        d: u32,
        bytes: &[u8],
        first: Piece<'a>,
        second: Piece<'a>,
        third: Piece<'a>,
    ) -> Result<(), Stop>
        ensures { Visits result (next_head d bytes.now ∷ heads_at self.old.site first.entry ++
            heads_at self.old.site second.entry ++ heads_at self.old.site third.entry)
            (roots_at self.old.site first.entry ++ roots_at self.old.site second.entry ++
            roots_at self.old.site third.entry) self.old self.new }
    {
        heads::write_head(&mut self.text, d, bytes)?;
        self.add(third)?;
        self.add(second)?;
        self.add(first)?;
        Ok(())
    }

    /// A head that holds a count of one byte, and then the piece that is counted.
    #[tactic(auto, using(crate::proofs::WalkLaws::stop_laws), unfolding(crate::specs::inner::Goes::Visits))]
    pub fn few(&mut self, d: u32, tag: u8, count: usize, all: Piece<'a>) -> Result<(), Stop>
        ensures { Visits result (next_head d (tag ∷ one_written count) ∷
            heads_at self.old.site all.entry)
            (roots_at self.old.site all.entry) self.old self.new }
    {
        heads::few_head(&mut self.text, d, tag, count)?;
        self.add(all)?;
        Ok(())
    }

    /// A head that holds a count of four bytes, and then the piece that is counted.
    #[tactic(auto, using(crate::proofs::WalkLaws::stop_laws), unfolding(crate::specs::inner::Goes::Visits))]
    pub fn many(&mut self, d: u32, tag: u8, count: usize, all: Piece<'a>) -> Result<(), Stop>
        ensures { Visits result (next_head d (tag ∷ four_written count) ∷
            heads_at self.old.site all.entry) (roots_at self.old.site all.entry) self.old
            self.new }
    {
        heads::count_head(&mut self.text, d, tag, count)?;
        self.add(all)?;
        Ok(())
    }

    /// The head of a function, which says its home, and then its lambda.
    #[tactic(auto, using(crate::proofs::WalkLaws::step_laws))]
    pub fn function_head(&mut self, d: u32, home: Home, lambda: Piece<'a>) -> Result<(), Stop>
        ensures { Visits result (next_head d
            (value_fun ∷ home_bytes (home_by (number_at self.old.site) (home_of home))) ∷
            heads_at self.old.site lambda.entry)
            (spoken_by_home (home_of home) ++ roots_at self.old.site lambda.entry) self.old
            self.new }
    {
        match home {
            Home::Main => self.one(d, &[tags::VALUE_FUN, 0, 0], lambda),
            Home::In(k) => {
                let number = self.site.home_number(k)?;
                self.function_in(d, k, number, lambda)
            }
        }
    }

    // The same for a home that is written by this number.
    #[tactic(auto, using(crate::proofs::WalkLaws::stop_laws), unfolding(crate::specs::inner::Goes::Visits))]
    fn function_in(&mut self, d: u32, k: u32, number: u16, lambda: Piece<'a>) -> Result<(), Stop>
        ensures { Visits result (next_head d (value_fun ∷ two_written number) ∷
            heads_at self.old.site lambda.entry) (k ∷ roots_at self.old.site lambda.entry) self.old
            self.new }
    {
        heads::short_head(&mut self.text, d, tags::VALUE_FUN, number)?;
        self.roots.push(k)?;
        self.add(lambda)?;
        Ok(())
    }

    /// The piece that is visited next, which is pending no more.
    pub fn next(&mut self) -> Option<Piece<'a>>
        ensures site { self.new.site ≡ self.old.site }
        ensures next { MatchOption result
            (comes [] [] self.old ≡ (On self.new.text.0, self.new.roots))
            (λ p. comes [] [] self.old ≡ comes (heads_at self.old.site p)
            (roots_at self.old.site p) self.new) }
    {
        self.pieces.pop()
    }

    /// Bytes that belong to the first head of a piece, and then the piece.
    #[tactic(auto, using(crate::proofs::WalkLaws::stop_laws), unfolding(crate::specs::inner::Goes::Visits))]
    pub fn before(&mut self, bytes: &[u8], all: Piece<'a>) -> Result<(), Stop>
        ensures { (h : Head) (hs : List Head) → heads_at self.old.site all.entry ≡ h ∷ hs →
            Visits result (before bytes.now (h ∷ hs)) (roots_at self.old.site all.entry) self.old
            self.new }
    {
        self.text.extend(bytes)?;
        self.add(all)?;
        Ok(())
    }

    /// Nothing more.
    pub fn nothing(&mut self) -> Result<(), Stop>
        ensures { Visits result [] [] self.old self.new }
    {
        Ok(())
    }

    /// Two pieces.
    #[tactic(auto, using(crate::proofs::WalkLaws::stop_laws), unfolding(crate::specs::inner::Goes::Visits))]
    pub fn both(&mut self, first: Piece<'a>, second: Piece<'a>) -> Result<(), Stop>
        ensures { Visits result (heads_at self.old.site first.entry ++
            heads_at self.old.site second.entry) (roots_at self.old.site first.entry ++
            roots_at self.old.site second.entry) self.old self.new }
    {
        self.add(second)?;
        self.add(first)?;
        Ok(())
    }

    /// Three pieces.
    #[tactic(auto, using(crate::proofs::WalkLaws::stop_laws), unfolding(crate::specs::inner::Goes::Visits))]
    pub fn each(
        &mut self,
        first: Piece<'a>,
        second: Piece<'a>,
        third: Piece<'a>,
    ) -> Result<(), Stop>
        ensures { Visits result (heads_at self.old.site first.entry ++
            heads_at self.old.site second.entry ++ heads_at self.old.site third.entry)
            (roots_at self.old.site first.entry ++ roots_at self.old.site second.entry ++
            roots_at self.old.site third.entry) self.old self.new }
    {
        self.add(third)?;
        self.add(second)?;
        self.add(first)?;
        Ok(())
    }

    /// Stops at what can't travel.
    pub fn stay(&mut self, d: u32) -> Result<(), Stop>
        ensures { Visits result (value_heads two_written d stays) [] self.old self.new }
    {
        Err(heads::stays(d))
    }

    /// Stops at a list of so many items, the first of which can't travel.
    pub fn lost(&mut self, d: u32, items: usize) -> Result<(), Stop>
        ensures { (ks : List Head) (ns : List ℕ) →
            Visits result (next_head d (value_list ∷ four_written items) ∷
            value_heads two_written (suc d) stays ++ ks) ns self.old self.new }
    {
        Err(heads::lost(&mut self.text, d, items))
    }
}
