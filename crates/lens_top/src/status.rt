// How a call ends.

/// The status with which a call ends, the greatest of those that apply.
#[derive(Clone, Copy, Debug, PartialEq, Eq, PartialOrd, Ord)]
pub struct LensStatus(pub u8);

impl LensStatus {
    /// All is accepted, or printed.
    pub const DONE: LensStatus = LensStatus(0);
    /// A text is refused.
    pub const REFUSED: LensStatus = LensStatus(1);
    /// Memory ran out.
    pub const OUT_OF_MEMORY: LensStatus = LensStatus(4);
    /// A file can't be read.
    pub const READ_FAULT: LensStatus = LensStatus(5);
    /// Output or errors can't be written.
    pub const WRITE_FAULT: LensStatus = LensStatus(6);
    /// The words are refused.
    pub const WORDS_REFUSED: LensStatus = LensStatus(7);
    /// The list of a shelf has a bad line.
    pub const SHELF_REFUSED: LensStatus = LensStatus(10);

    /// The greater of two.
    pub fn and(self, other: LensStatus) -> LensStatus {
        LensStatus(self.0.max(other.0))
    }
}
