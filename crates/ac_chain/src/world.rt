// The world of a program of a chain: the frames that the one before it sent, those that it sends
// itself, and the chain's console.

ghost use Rattle.std.specs.Prelude.{◌≡◌, ◌≤◌, ◌<◌, ℕ, IsTrue, length, refl};
ghost use Rattle.std.proofs.Common.{◌∙◌};
ghost use native.Mathlib.Omega.{arith};

use ac_outside::{Got, Put, Sink, Source, World};
use ac_types::Text;
use std::marker::{Brand, PhantomData};

/// What stays the same in a run, for the proof alone: a call at `Brand` picks it.
pub trait Fixed {
    // The name of the console's reference.
    ghost console: { ℕ };
}

impl Fixed for Brand {
    ghost console = { 0 };
}

/// A world with the console of a chain.
#[derive(Drop)]
pub struct Linked<'a, C: Sink, K: Fixed> {
    /// The bytes that are left to read.
    pub input: &'a [u8],
    /// Those that were sent.
    pub sent: Text,
    /// The console.
    pub console: &'a mut C,
    /// What stays the same.
    pub fixed: PhantomData<K>,
    ghost same_console: { console.ghost_name ≡ K.console },
}

impl<C: Sink, K: Fixed> Source for Linked<'_, C, K> {
    ghost told = { C.told };

    ghost left = { λ s. s.input.now };

    ghost read_faults = { λ _. 0 };

    ghost passes = { λ a b. (b.console ≡ a.console) × (b.sent ≡ a.sent) };

    fn read(&mut self, buf: &mut [u8]) -> Got {
        let count = self.input.len().min(buf.len());
        if count == 0 {
            return Got::End;
        }
        buf[..count].copy_from_slice(&self.input[..count]);
        self.input = &self.input[count..];
        Got::Bytes(count)
    }

    ghost passes_none = { λ _. (refl, refl) };

    ghost passes_on = { λ _ _ _ h k. (k.0 ∙ h.0, k.1 ∙ h.1) };
}

impl<C: Sink, K: Fixed> World for Linked<'_, C, K> {
    ghost console = { λ s. C.written s.console.now };

    ghost channel = { λ s. s.sent.0 };

    ghost write_faults = { λ s. C.faults s.console.now };

    ghost read_leaves = { λ _ _ h _. (
      Rattle.std.proofs.Common.ap (λ c. C.written c.now) h.0,
      Rattle.std.proofs.Common.ap (λ t. t.0) h.1,
    ) };

    ghost read_keeps = { λ a b h. let e = Rattle.std.proofs.Common.ap (λ c. C.faults c.now) h.0 in
        omega (arith, e) };

    fn print(&mut self, bytes: &[u8]) -> Put {
        self.console.write(bytes)
    }

    fn send(&mut self, bytes: &[u8]) -> Put {
        match self.sent.extend(bytes) {
            Ok(()) => Put::Done,
            Err(_) => Put::Memory,
        }
    }
}
