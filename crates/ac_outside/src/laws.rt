// Laws of frames.
ghost use Rattle.std.specs.Prelude.{◌≡◌, ◌<◌, ◌≤◌, ◌++◌, ℕ, length, slice_index};
ghost use Rattle.ac_types.specs.Types.{Bytes};
ghost use Rattle.ac_types.specs.Limits.{longest_frame};
ghost use Rattle.ac_outside.specs.Frames.{Whole, frame_of, next_frame};

/// A string that isn't too long is what comes next where an input begins with its frame.
pub fn frame_back()
    ensures { (s rest : Bytes) → length s ≤ longest_frame →
        next_frame (frame_of s ++ rest) ≡ Whole s rest }
{}

/// Where a whole frame comes next, the input begins with the frame of its string, if each number
/// of the input is a byte. The string isn't too long.
pub fn whole_is_frame()
    ensures bytes { (bs s rest : Bytes) → ((i : ℕ) → slice_index bs i < 256) →
        next_frame bs ≡ Whole s rest → bs ≡ frame_of s ++ rest }
    ensures short { (bs s rest : Bytes) → next_frame bs ≡ Whole s rest → length s ≤ longest_frame }
{}
