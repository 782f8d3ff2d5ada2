// Lists that nothing can reach any more are given back.

ghost use Rattle.std.specs.Prelude.{ℕ, ◌+◌, ◌≤◌, length};
ghost use Rattle.ac_machine_engine.specs.Held.{Sound};
ghost use Rattle.ac_machine_engine.specs.Steps.{GivesBack};

use crate::engine::{Engine, Floor};

impl Engine {
    /// Gives back the handlers, the stacks and the frames above those that stand and those that
    /// handlers keep.
    #[inline(always)]
    #[tactic(auto, using(crate::proofs::GivingLaws::giving_laws))]
    pub fn give_back(&mut self)
        requires sound { Sound self.old }
        ensures { GivesBack self.old self.new }
    {
        self.cut_handlers();
        self.cut_stacks();
        self.cut_frames();
    }

    #[inline(always)]
    #[tactic(auto, using(crate::proofs::GivingLaws::giving_laws))]
    fn cut_handlers(&mut self)
        requires sound { Sound self.old }
        ensures { GivesBack self.old self.new }
    {
        let count = self.handlers.len();
        if self.at.handlers + 1 < count {
            self.handlers.truncate(self.at.handlers + 1);
        }
    }

    /// Gives back the stacks above those that stand and those that handlers keep.
    #[inline(always)]
    #[tactic(auto, using(crate::proofs::GivingLaws::giving_laws))]
    pub fn cut_stacks(&mut self)
        requires sound { Sound self.old }
        ensures { GivesBack self.old self.new }
    {
        let least = self.floor_here().stacks;
        if least < self.stacks.len() {
            self.stacks.truncate(least);
        }
    }

    #[inline(always)]
    #[tactic(auto, using(crate::proofs::GivingLaws::giving_laws))]
    fn cut_frames(&mut self)
        requires sound { Sound self.old }
        ensures { GivesBack self.old self.new }
    {
        let least = self.floor_here().frames;
        if least < self.frames.len() {
            self.frames.truncate(least);
        }
    }

    /// So many of the first stacks and frames the handlers keep, or stand now.
    #[inline(always)]
    pub fn floor_here(&self) -> Floor
        requires sound { Sound self.now }
        ensures stacks { (self.now.at.stack + 1 ≤ result.stacks) ×
            (self.now.floor.stacks ≤ result.stacks) × (result.stacks ≤ length self.now.stacks) }
        ensures frames { (self.now.at.frames + 1 ≤ result.frames) ×
            (self.now.floor.frames ≤ result.frames) × (result.frames ≤ length self.now.frames) }
    {
        let stacks = self.stacks.len();
        let frames = self.frames.len();
        prove!(self.at.stack < stacks && self.at.frames < frames);
        Floor {
            stacks: larger(self.floor.stacks, self.at.stack + 1),
            frames: larger(self.floor.frames, self.at.frames + 1),
        }
    }
}

#[inline(always)]
fn larger(a: usize, b: usize) -> usize
    ensures least { (a ≤ result) × (b ≤ result) }
    ensures within { (n : ℕ) → a ≤ n → b ≤ n → result ≤ n }
{
    if a < b { b } else { a }
}
