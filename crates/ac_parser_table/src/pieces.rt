// Texts that are written by their pieces.

use ac_types::{Memory, Text};
use std::alloc::Global;

// How often a piece is to stand, and the piece: `3 x` is three times `x`.
fn repeated(written: &str) -> (u32, &str) {
    match written.split_once(' ') {
        Some((times, piece)) => (times.parse::<u32>().unwrap_or(0), piece),
        None => (0, ""),
    }
}

/// The text in which each `{N PIECE}` stands for N times that piece.
pub fn expanded(alloc: Global, written: &str) -> Result<Text, Memory> {
    let mut text = Text::new(alloc);
    for part in written.split('{') {
        let (times, piece, rest) = match part.split_once('}') {
            Some((inside, rest)) => {
                let (times, piece) = repeated(inside);
                (times, piece, rest)
            }
            None => (0, "", part),
        };
        for _ in 0..times {
            text.extend(piece.as_bytes())?;
        }
        text.extend(rest.as_bytes())?;
    }
    Ok(text)
}
