// No input at all, for the runs that read from none or from a file.
ghost use Rattle.std.specs.Prelude.{true, [], ⊤};

use ac_outside::{Got, Source};

/// No input. Nothing is left in it.
#[derive(Clone, Copy)]
pub struct NoInput;

impl Source for NoInput {
    ghost told = { true };

    ghost left = { λ _. [] };

    ghost read_faults = { λ _. 0 };

    ghost passes = { λ _ _. ⊤ };

    fn read(&mut self, _buf: &mut [u8]) -> Got {
        Got::End
    }

    ghost passes_none = { λ _. tt };

    ghost passes_on = { λ _ _ _ _ _. tt };
}
