// The top call over an input that comes in pieces.

use crate::make::{finish, text};
use ac_outside::{Got, Source, SureSink, SureSource};

// A source that gives a byte a read.
#[derive(Drop)]
struct Slow {
    source: SureSource,
}

impl Source for Slow {
    ghost use Rattle.std.specs.Prelude.{false, [], ⊤};

    ghost told = { false };

    ghost left = { λ _. [] };

    ghost read_faults = { λ _. 0 };

    ghost passes = { λ _ _. ⊤ };

    fn read(&mut self, buf: &mut [u8]) -> Got {
        self.source.read(&mut buf[..1])
    }

    ghost passes_none = { λ _. tt };

    ghost passes_on = { λ _ _ _ _ _. tt };
}

// It receives two strings, and sends and prints each.
const TWO: &[u8] =
    b"let rec pass (n : int) : unit = if n = 0 then () else (let s : string = IO.receive () in IO.send s; IO.print_string s; pass (n - 1)) in pass 2";

// The frames of them.
const FRAMES: &[u8] = b"\0\0\0\x01a\0\0\0\x02bc";

#[test]
fn frames_come_byte_by_byte(rt: HostRuntime) {
    let alloc = rt.alloc();
    let mut input = Slow {
        source: SureSource::new(text(&rt, alloc, FRAMES)),
    };
    let mut output = SureSink::new(alloc);
    let mut errors = SureSink::new(alloc);
    let line = "run a --in - --out -";
    finish(&rt, alloc, line, TWO, &mut input, &mut output, &mut errors);
    assert!(rt; output.bytes().as_slice() == FRAMES);
    assert!(rt; errors.bytes().as_slice() == b"abc".as_slice());
}
