// What a session reads.
ghost use Rattle.std.specs.Prelude.{◌≡◌, ◌≤◌, IsTrue};
ghost use Rattle.ac_outside.specs.Outside.{Rose};
ghost use Rattle.ac_run.specs.inner.Inboxes.{Comes, Heard, NoneLeft};

use ac_outside::{FrameGot, Frames, World};
use ac_types::Text;
use std::alloc::Global;

/// What a session's input has come to.
#[derive(Clone, Copy)]
pub enum Inbox {
    /// Frames may come.
    Open,
    /// Bytes have come that are no frame.
    Broken,
    /// The end has come.
    Closed,
}

/// What comes next.
#[derive(Drop)]
pub enum Incoming {
    /// The bytes of a frame.
    Frame(Text),
    /// Nothing, since the input has ended.
    End,
    /// No frame.
    Bad,
    /// A read failed.
    Failed,
    /// Memory ran out.
    Memory,
}

impl Inbox {
    /// Takes what comes next. Once there was no frame or the end, there is no other, and nothing is
    /// read.
    pub fn next<W: World>(&mut self, alloc: Global, world: &mut W) -> Incoming
        ensures heard { Comes W.Source.told self.old (W.Source.left world.old) self.new
            (W.Source.left world.new) (Heard W.Source.told result self.new) }
        ensures quiet { IsTrue W.Source.told → (W.console world.new ≡ W.console world.old) ×
            (W.channel world.new ≡ W.channel world.old) }
        ensures cause { result ≡ Incoming.Failed →
            Rose (W.Source.read_faults world.old) (W.Source.read_faults world.new) }
        ensures later { W.Source.read_faults world.old ≤ W.Source.read_faults world.new }
        ensures later_writes { W.write_faults world.old ≤ W.write_faults world.new }
        ensures empty { NoneLeft W.Source.told self.old (W.Source.left world.old) →
            NoneLeft W.Source.told self.new (W.Source.left world.new) }
        ensures passes { W.Source.passes world.old world.new }
        // Once it is closed it stays so, and nothing is read; nor is it once no frame has come.
        ensures closed { self.old ≡ Inbox.Closed → self.new ≡ Inbox.Closed }
        ensures idle { self.old ≡ Inbox.Closed → world.new ≡ world.old }
        ensures still { self.old ≡ Inbox.Broken → world.new ≡ world.old }
        ensures ended { self.old ≡ Inbox.Closed → result ≡ Incoming.End }
    {
        match self {
            Inbox::Open => {}
            Inbox::Broken => return Incoming::Bad,
            Inbox::Closed => return Incoming::End,
        }
        match Frames::new(alloc).next(world) {
            FrameGot::Frame(text) => Incoming::Frame(text),
            FrameGot::End => {
                *self = Inbox::Closed;
                Incoming::End
            }
            FrameGot::Bad { .. } => {
                *self = Inbox::Broken;
                Incoming::Bad
            }
            FrameGot::Failed => Incoming::Failed,
            FrameGot::Memory => Incoming::Memory,
        }
    }
}
