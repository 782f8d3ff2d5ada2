// What a child gives behind the end of its receiver.
ghost use Rattle.std.specs.Prelude.{◌≡◌, ◌≤◌, true, false, IsTrue, length};
ghost use Rattle.ac_outside.specs.Outside.{Rose};
ghost use Rattle.ac_pipe.specs.Draining.{IsDrained};

use ac_outside::Got;
use ac_spawn::Spawner;

/// How many bytes are dropped at most.
const MOST_DROPPED: usize = 67_108_864;

/// How many bytes are read at a time.
const PIECE: usize = 4096;

/// Reads what the child gives and drops it: all of it, or so many bytes. Whether a read failed.
pub fn drain<P: Spawner>(spawner: &mut P) -> bool
    requires { (P.child spawner.old).running ≡ true }
    ensures running { (P.child spawner.new).running ≡ true }
    ensures drained { IsTrue P.told → result ≡ false →
        IsDrained (P.child spawner.old).left (P.child spawner.new).left }
    ensures shorter { IsTrue P.told →
        length (P.child spawner.new).left ≤ length (P.child spawner.old).left }
    ensures started { IsTrue P.told →
        (P.child spawner.new).started ≡ (P.child spawner.old).started }
    ensures status { IsTrue P.told → (P.child spawner.new).status ≡ (P.child spawner.old).status }
    ensures cause { result ≡ true →
        Rose (P.child spawner.old).read_faults (P.child spawner.new).read_faults }
    ensures later { (P.child spawner.old).start_faults ≤ (P.child spawner.new).start_faults }
    ensures later_reads { (P.child spawner.old).read_faults ≤ (P.child spawner.new).read_faults }
{
    let mut buffer = [0; PIECE];
    let mut dropped = 0;
    while dropped < MOST_DROPPED {
        let room = buffer.len().min(MOST_DROPPED - dropped);
        match spawner.read(&mut buffer[..room]) {
            Got::Bytes(count) => dropped += count,
            Got::End => return false,
            Got::Failed => return true,
        }
    }
    false
}
