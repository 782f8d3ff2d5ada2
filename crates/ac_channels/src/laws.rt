// When a channel is whole, when it is refused, and how much of it tells that.

ghost use Rattle.std.specs.Prelude.{◌≡◌, ◌+◌, ℕ, List, take};
ghost use Rattle.ac_types.specs.Types.{Bytes};
ghost use Rattle.ac_channels.specs.ChannelFrames.{AllFrames, BadFrame, channel_frames, longest_channel};
ghost use Rattle.ac_channels.specs.WholeChannels.{IsBadAt, IsWholeChannel};

/// A channel is whole, with these strings, exactly where they are its frames, at most `MOST_FRAMES`,
/// and it has at most `LONGEST_CHANNEL` bytes. Else it is refused at the first frame that is none,
/// ends past that many bytes, or is one too many.
pub fn channel_is()
    ensures whole { (bs : Bytes) (ss : List Bytes) → channel_frames bs ≡ AllFrames ss →
        IsWholeChannel bs ss }
    ensures is_whole { (bs : Bytes) (ss : List Bytes) → IsWholeChannel bs ss →
        channel_frames bs ≡ AllFrames ss }
    ensures refused { (bs : Bytes) (k : ℕ) → channel_frames bs ≡ BadFrame k → IsBadAt bs k }
    ensures is_refused { (bs : Bytes) (k : ℕ) → IsBadAt bs k → channel_frames bs ≡ BadFrame k }
{}

/// The frames of a channel are told by its first `LONGEST_CHANNEL` bytes and one more.
pub fn front_tells()
    ensures { (bs : Bytes) → channel_frames (take (longest_channel + 1) bs) ≡ channel_frames bs }
{}
