//! What a command reads of files: the text of a program or those of several, and those of their
//! shelf, whose list says which file has the text of which URI; and the frames of a channel.
#![tactic(auto)]

mod channel;
mod line;
mod list;
mod program;
mod shelf;
mod text;
mod texts;

pub use channel::read_frames;
pub use list::{ShelfFault, ShelfLine, shelf_list};
pub use program::{ProgramTexts, read_program};
pub use shelf::TextsFault;
pub use texts::{ManyTexts, read_texts};
