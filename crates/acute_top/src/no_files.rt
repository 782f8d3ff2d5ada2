// Files of which there is none.
ghost use Rattle.std.specs.Prelude.{true, None, ⊤};

use ac_outside::{Files, Got, Put};

/// No files: each call fails, as its count, which stands at the last value of a counter, lets it.
#[derive(Clone, Copy)]
pub struct NoFiles;

impl Files for NoFiles {
    ghost told = { true };

    ghost contents = { λ _ _. None };

    ghost read_faults = { λ _ _. 18446744073709551615 };

    ghost write_faults = { λ _ _. 18446744073709551615 };

    ghost reads = { λ _ _ _. ⊤ };

    fn read(&mut self, _name: &str, _from: u64, _buf: &mut [u8]) -> Got {
        Got::Failed
    }

    ghost reads_none = { λ _ _. tt };

    ghost reads_on = { λ _ _ _ _ _ _. tt };

    ghost writes = { λ _ _ _. ⊤ };

    fn create(&mut self, _name: &str) -> Put {
        Put::Failed
    }

    fn append(&mut self, _name: &str, _bytes: &[u8]) -> Put {
        Put::Failed
    }
}
