// The words of the process.

ghost use Rattle.std.specs.Prelude.{◌≡◌, IfOk, option_map};
ghost use Rattle.acute_words.specs.Commands.{command_of};
ghost use Rattle.acute_top.specs.Endings.{texts};
ghost use Rattle.acute_top.specs.Requests.{channel_read};
ghost use Rattle.acute_top_system.specs.Received.{file_received};

use ac_types::Memory;
use acute_words::{Channel, Command, read_words};
use std::alloc::Global;
use std::env;
use std::io::ErrorKind;

// The name of standard input among the files of the system.
const STANDARD_INPUT: &str = "/dev/stdin";

/// The words after the program's own name. Words that are no text count as none.
pub fn words_given(alloc: Global, rt: &HostRuntime) -> Result<Vec<String>, Memory> {
    let mut words = Vec::new(alloc);
    match env::args(rt) {
        Ok(args) => {
            for (i, word) in args.enumerate() {
                if i > 0 && words.push(word).is_err() {
                    return Err(Memory);
                }
            }
        }
        Err(fault) if fault.kind() == ErrorKind::OutOfMemory => return Err(Memory),
        Err(_) => {}
    }
    Ok(words)
}

/// The file that a run receives from, which is opened by its first receive.
pub fn received_from<'a>(alloc: Global, words: &'a [String]) -> Result<Option<&'a str>, Memory>
    ensures { IfOk result (λ o. option_map (λ s. s.now) o ≡
        option_map file_received (channel_read (command_of (texts words.now)))) }
{
    let channel = match read_words(alloc, words)? {
        Some(Command::Run(run)) => run.input,
        _ => None,
    };
    Ok(match channel {
        Some(Channel::Standard) => Some(STANDARD_INPUT),
        Some(Channel::File(name)) => Some(name),
        None => None,
    })
}
