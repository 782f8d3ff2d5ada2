// What comes of the damaged strings of a packet, in each way in which they are taken.

ghost use Rattle.std.specs.Prelude.{◌<◌, length};

use crate::Subject;
use crate::damaged::{changes, fronts};
use crate::frames::received;
use crate::packets::taken_in;
use crate::statuses::{of_lists, of_programs};
use ac_table_ranges::{Places, put_answers, put_hex, put_lines};
use ac_text::Page;
use ac_types::{Memory, Text};
use std::alloc::Global;
use std::thread::Threads;

// What strings are taken for.
#[derive(Clone, Copy)]
enum Taken {
    Packets,
    Frames,
    Programs,
    Lists,
}

impl Taken {
    fn heading(self) -> &'static [u8] {
        match self {
            Taken::Packets => b"as packets\n",
            Taken::Frames => b"as frames\n",
            Taken::Programs => b"as programs\n",
            Taken::Lists => b"as lists\n",
        }
    }

    // The answer of each string.
    fn answers<R: Threads + Sync>(
        self,
        rt: &R,
        alloc: Global,
        subject: &Subject,
        strings: &[Text],
    ) -> Result<Vec<Text>, Memory> {
        match self {
            Taken::Packets => taken_in(alloc, subject, strings),
            Taken::Frames => received(alloc, subject.receiver.as_slice(), strings),
            Taken::Programs => of_programs(rt, alloc, strings),
            Taken::Lists => of_lists(rt, alloc, strings),
        }
    }

    // Adds the answers of the fronts, and of the changes at each place.
    fn put<R: Threads + Sync>(
        self,
        rt: &R,
        alloc: Global,
        page: &mut Page,
        subject: &Subject,
    ) -> Result<(), Memory> {
        page.put(self.heading());
        page.put(b"fronts: ");
        let strings = fronts(alloc, subject.packet.as_slice())?;
        let answers = self.answers(rt, alloc, subject, &strings)?;
        put_answers(page, &answers, Places::Lengths);
        page.put(b"\n");
        let mut lines = Vec::new(alloc);
        for at in 0..subject.packet.as_slice().len() {
            lines.push(self.line(rt, alloc, subject, at)?)?;
        }
        put_lines(page, &lines);
        Ok(())
    }

    // The answers of the changes at one place.
    fn line<R: Threads + Sync>(
        self,
        rt: &R,
        alloc: Global,
        subject: &Subject,
        at: usize,
    ) -> Result<Page, Memory>
        requires { at < length subject.now.packet.0 }
    {
        let mut line = Page::new(alloc);
        let strings = changes(alloc, subject.packet.as_slice(), at)?;
        let answers = self.answers(rt, alloc, subject, &strings)?;
        put_answers(&mut line, &answers, Places::Bytes);
        Ok(line)
    }
}

/// Adds the packet, and what comes of its damaged strings.
pub fn put_sections<R: Threads + Sync>(
    rt: &R,
    alloc: Global,
    page: &mut Page,
    subject: &Subject,
) -> Result<(), Memory> {
    for byte in subject.packet.as_slice() {
        put_hex(page, *byte);
    }
    page.put(b"\n");
    for taken in [Taken::Packets, Taken::Frames, Taken::Programs, Taken::Lists] {
        taken.put(rt, alloc, page, subject)?;
    }
    Ok(())
}
