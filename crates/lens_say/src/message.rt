// What is said of a refused text.

use ac_text::Page;
use std::alloc::Global;

/// What is said of a refused text.
#[derive(Drop)]
pub struct Message {
    /// The place that is meant, in bytes from 0.
    pub at: u32,
    /// Why, in one line without its line feed.
    pub why: Page,
    /// What there is to say besides, in whole lines.
    pub more: Page,
}

impl Message {
    /// Nothing is said yet of this place.
    pub fn new(alloc: Global, at: u32) -> Message {
        Message {
            at,
            why: Page::new(alloc),
            more: Page::new(alloc),
        }
    }

    /// This is said of a place, and nothing besides.
    pub fn saying(alloc: Global, at: u32, why: &[u8]) -> Message {
        let mut message = Message::new(alloc, at);
        message.why.put(why);
        message
    }
}
