// A block that is being written, and the blocks that are finished.

ghost use Rattle.std.specs.Prelude.{◌≡◌, ◌+◌, ◌++◌, ◌∷◌, [], map, set, replicate, OnOk, IfOk};
ghost use Rattle.ac_types.specs.ReadNumbers.{exn_number, exn_text};
ghost use Rattle.ac_terms.specs.Terms.{KExn};
ghost use Rattle.ac_types.specs.ReadTypes.{typ_of};
ghost use Rattle.ac_terms.specs.Read.{home_of, expr_of, pattern_of, bytes_of};
ghost use Rattle.ac_code.specs.Code.{PushStr, Ref, Marshal, Unmarshal, Test, Jump, MakeCons, Return};
ghost use Rattle.ac_code.specs.Contexts.{context_of};
ghost use Rattle.ac_code.specs.ReadCode.{instr_of, block_of};
ghost use Rattle.ac_generate.specs.Sizes.{unbind};
ghost use Rattle.ac_generate.specs.Generate.{lambda_block};
ghost use Rattle.ac_generate.specs.inner.Drafts.{draft_of, address, count, put, put_all, set_at, jumps_at, block_begun, block_ended, wrote_value};

use ac_code::{Block, CodeId, Context, Instr};
use ac_terms::{Home, Pat, Term};
use ac_types::{Exn, ExnKind, Many, Memory, Text, Ty, Word};
use std::alloc::Global;
use std::mem;

/// What is written so far.
#[derive(Drop)]
pub struct Writer {
    /// Where memory comes from.
    pub alloc: Global,
    /// The number of the first finished block.
    pub first: usize,
    /// The blocks that are finished, in order.
    pub finished: Vec<Block>,
    /// The instructions of the block that is being written.
    pub instrs: Vec<Instr>,
}

impl Writer {
    /// Nothing is written yet.
    pub fn new(alloc: Global, first: usize) -> Writer
        ensures first { result.first ≡ first }
        ensures finished { result.finished.items ≡ [] }
        ensures instrs { result.instrs.items ≡ [] }
    {
        Writer {
            alloc,
            first,
            finished: Vec::new(alloc),
            instrs: Vec::new(alloc),
        }
    }

    /// Where the next instruction stands.
    #[tactic(auto, unfolding(crate::specs::inner::Drafts::draft_of))]
    pub fn address(&self) -> usize
        ensures { result ≡ address (draft_of self.now) }
    {
        self.instrs.len()
    }

    /// Writes an instruction.
    #[tactic(auto, using(crate::proofs::WriterLaws::writer_laws), unfolding(crate::specs::inner::Drafts::draft_of, crate::specs::inner::Drafts::put))]
    pub fn put(&mut self, instr: Instr) -> Result<(), Memory>
        ensures { OnOk result (draft_of self.new ≡ put (instr_of instr) (draft_of self.old)) }
    {
        self.instrs.push(instr)?;
        Ok(())
    }

    /// Writes a jump that is still open, and gives its address.
    pub fn hold(&mut self) -> Result<usize, Memory>
        ensures address { IfOk result (λ at. at ≡ address (draft_of self.old)) }
        ensures ok { OnOk result (draft_of self.new ≡ put (Jump 0) (draft_of self.old)) }
    {
        let at = self.address();
        self.put(Instr::Jump(0))?;
        Ok(at)
    }

    /// Puts another instruction at an address that is written.
    #[tactic(auto, using(crate::proofs::WriterLaws::writer_laws), unfolding(crate::specs::inner::Drafts::draft_of, crate::specs::inner::Drafts::set_at))]
    pub fn set(&mut self, at: usize, instr: Instr)
        ensures { draft_of self.new ≡ set_at at (instr_of instr) (draft_of self.old) }
    {
        put_at(&mut self.instrs, at, instr);
    }

    /// Lets open jumps go to the next instruction.
    pub fn land(&mut self, jumps: &[usize])
        ensures { draft_of self.new ≡ jumps_at jumps.now (address (draft_of self.old))
            (draft_of self.old) }
    {
        let to = self.address();
        for at in jumps {
            self.set(*at, Instr::Jump(to));
        }
    }

    /// Writes what drops some variables.
    #[tactic(auto, using(crate::proofs::WriterLaws::unbind_laws))]
    pub fn unbind(&mut self, variables: usize) -> Result<(), Memory>
        ensures { OnOk result (draft_of self.new ≡ put_all (unbind variables) (draft_of self.old)) }
    {
        if variables == 0 {
            return Ok(());
        }
        self.put(Instr::Unbind(variables))
    }

    /// Writes a string.
    pub fn text(&mut self, text: &Text) -> Result<(), Memory>
        ensures { OnOk result (draft_of self.new ≡ put (PushStr (bytes_of text.now))
            (draft_of self.old)) }
    {
        let text = text.copy(self.alloc)?;
        self.put(Instr::PushStr(text))
    }

    /// Writes a reference to a field of an entry.
    pub fn reference(&mut self, entry: u32, field: &Word) -> Result<(), Memory>
        ensures { OnOk result (draft_of self.new ≡ put (Ref entry field.now) (draft_of self.old)) }
    {
        let field = field.copy(self.alloc)?;
        self.put(Instr::Ref(entry, field))
    }

    /// Writes a marshal at a type.
    pub fn marshal(&mut self, ty: &Ty) -> Result<(), Memory>
        ensures { OnOk result (draft_of self.new ≡ put (Marshal (typ_of ty.now))
            (draft_of self.old)) }
    {
        let ty = ty.copy(self.alloc)?;
        self.put(Instr::Marshal(ty))
    }

    /// Writes an unmarshal as a type.
    pub fn unmarshal(&mut self, ty: &Ty) -> Result<(), Memory>
        ensures { OnOk result (draft_of self.new ≡ put (Unmarshal (typ_of ty.now))
            (draft_of self.old)) }
    {
        let ty = ty.copy(self.alloc)?;
        self.put(Instr::Unmarshal(ty))
    }

    /// Puts the test of a pattern at an address that is written. Where the pattern doesn't fit, the
    /// next instruction follows.
    pub fn test(&mut self, at: usize, pat: &Pat) -> Result<(), Memory>
        ensures { OnOk result (draft_of self.new ≡ set_at at
            (Test (pattern_of pat.now) (address (draft_of self.old))) (draft_of self.old)) }
    {
        let next = self.address();
        let pat = pat.copy(self.alloc)?;
        self.set(at, Instr::Test(pat, next));
        Ok(())
    }

    /// Writes the text of an exception, where it has one, and what makes the exception.
    #[tactic(auto, using(crate::proofs::DraftLaws::value_laws))]
    pub fn exception(&mut self, exn: &Exn) -> Result<(), Memory>
        ensures { OnOk result (draft_of self.new ≡ wrote_value
            (KExn (exn_number exn.now) (exn_text exn.now)) (draft_of self.old)) }
    {
        match exn {
            Exn::Bare(exn) => self.put(Instr::MakeExn(ExnKind::Bare(*exn))),
            Exn::Text(exn, text) => {
                self.text(text)?;
                self.put(Instr::MakeExn(ExnKind::Text(*exn)))
            }
        }
    }

    /// Writes what puts some values before a list.
    #[tactic(auto, using(crate::proofs::WriterLaws::again_laws))]
    pub fn conses(&mut self, values: usize) -> Result<(), Memory>
        ensures { OnOk result (draft_of self.new ≡ put_all (replicate values MakeCons)
            (draft_of self.old)) }
    {
        for _ in 0..values {
            self.put(Instr::MakeCons)?;
        }
        Ok(())
    }

    /// Begins another block, and gives the instructions of the one before.
    #[tactic(auto, unfolding(crate::specs::inner::Drafts::draft_of, crate::specs::inner::Drafts::block_begun))]
    pub fn begin(&mut self) -> Vec<Instr>
        ensures before { map instr_of result.items ≡ (draft_of self.old).instrs }
        ensures after { draft_of self.new ≡ block_begun (draft_of self.old) }
    {
        mem::replace(&mut self.instrs, Vec::new(self.alloc))
    }

    /// Ends the block of a lambda, goes on with the one before, and gives the number of the block.
    #[tactic(auto, using(crate::proofs::WriterLaws::writer_laws), unfolding(crate::specs::inner::Drafts::draft_of, crate::specs::inner::Drafts::block_ended))]
    pub fn end(
        &mut self,
        before: Vec<Instr>,
        home: Home,
        scope: &Context,
        lambda: &Term,
    ) -> Result<CodeId, Memory>
        ensures number { IfOk result (λ id. id.0 ≡ count (draft_of self.old)) }
        ensures ok { OnOk result (draft_of self.new ≡ block_ended (home_of home)
            (expr_of lambda.now) (context_of scope.now) (map instr_of before.items) (draft_of self.old)) }
    {
        let number = self.number()?;
        let written = mem::replace(&mut self.instrs, before);
        let block = lambda_block(self.alloc, home, scope, lambda, written)?;
        self.finished.push(block)?;
        Ok(number)
    }

    // The number of the next finished block.
    #[tactic(auto, unfolding(crate::specs::inner::Drafts::draft_of))]
    fn number(&self) -> Result<CodeId, Memory>
        ensures { IfOk result (λ id. id.0 ≡ count (draft_of self.now)) }
    {
        match self.first.checked_add(self.finished.len()) {
            None => Err(Memory),
            Some(number) => Ok(CodeId(number)),
        }
    }
}

// Puts an item at an address of a list, where the list has that address.
#[tactic(auto, using(crate::proofs::WriterLaws::writer_laws))]
fn put_at<T: Drop>(items: &mut Vec<T>, at: usize, item: T)
    ensures { items.new.items ≡ set items.old.items at item }
{
    if at < items.len() {
        items[at] = item;
    }
}

// The block of a lambda, of the code of its body.
#[tactic(auto, using(crate::proofs::WriterLaws::writer_laws))]
fn lambda_block(
    alloc: Global,
    home: Home,
    scope: &Context,
    lambda: &Term,
    body: Vec<Instr>,
) -> Result<Block, Memory>
    ensures { IfOk result (λ b. block_of b ≡ lambda_block (home_of home) (expr_of lambda.now)
        (context_of scope.now) (map instr_of body.items)) }
{
    let instrs = returning(body)?;
    let context = scope.share()?;
    let lambda = lambda.copy(alloc)?;
    Ok(Block {
        home,
        lambda: Some(lambda),
        context,
        instrs,
    })
}

// These instructions, and a return behind them.
#[tactic(auto, using(crate::proofs::WriterLaws::writer_laws))]
fn returning(body: Vec<Instr>) -> Result<Many<Instr>, Memory>
    ensures { IfOk result (λ is. map instr_of is ≡ map instr_of body.items ++ Return ∷ []) }
{
    let mut instrs = body;
    instrs.push(Instr::Return)?;
    Ok(Many::from_vec(instrs))
}
