// The line that says how a sender ended.
ghost use Rattle.std.specs.Prelude.{◌≡◌, ◌++◌, IfOk};
ghost use Rattle.acute_pipe.specs.Senders.{ended_with, sender_line, status_in};

use ac_spawn::Ended;
use ac_text::put_integer;
use ac_types::{Memory, Text};
use std::alloc::Global;

/// A line, and behind it that of the sender, where it has ended with another status than 0. `Err` for
/// want of memory.
#[tactic(auto, using(crate::proofs::SenderLaws::line_behind))]
pub fn with_sender(alloc: Global, line: &[u8], sender: Ended) -> Result<Text, Memory>
    ensures { IfOk result (λ text. text.0 ≡ line.now ++ sender_line (status_in sender)) }
{
    match sender {
        Ended::Failed | Ended::Status(0) => Text::from_slice(alloc, line),
        Ended::Status(status) => {
            let mut text = Text::from_slice(alloc, line)?;
            text.extend(ended_line(alloc, status)?.as_slice())?;
            Ok(text)
        }
    }
}

// The line of a sender that has ended with this status.
fn ended_line(alloc: Global, status: i32) -> Result<Text, Memory>
    ensures { IfOk result (λ text. text.0 ≡ ended_with status) }
{
    let mut text = Text::from_slice(alloc, b"acute: sender ended with ")?;
    put_integer(alloc, &mut text, i64::from(status))?;
    text.extend(b"\n")?;
    Ok(text)
}
