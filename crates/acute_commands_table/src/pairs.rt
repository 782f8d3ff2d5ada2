// Processes of this program, and how they end.

use crate::call::{put_status, put_stream};
use crate::children::{Ended, alone, joined};
use ac_text::Page;

/// Joins the processes of a line, and prints how both ended and what they wrote.
pub fn join_pair(rt: &HostRuntime, page: &mut Page, line: &str) {
    let (writer, reader) = line.split_once(" | ").unwrap_or((line, ""));
    match joined(rt, writer, reader) {
        Ok((writer, reader)) => {
            put_ended(page, b"writer ", &writer);
            put_ended(page, b"reader ", &reader);
        }
        Err(_) => page.put(b"no processes\n"),
    }
}

/// Starts the process of a line, and prints how it ended and what it wrote.
pub fn start_alone(rt: &HostRuntime, page: &mut Page, line: &str) {
    match alone(rt, line) {
        Ok(ended) => put_ended(page, b"", &ended),
        Err(_) => page.put(b"no process\n"),
    }
}

fn put_ended(page: &mut Page, who: &[u8], ended: &Ended) {
    page.put(who);
    match ended.status {
        Some(status) => put_status(page, status),
        None => page.put(b"stopped\n"),
    }
    put_stream(page, b"output", &ended.output);
    put_stream(page, b"errors", &ended.errors);
}
