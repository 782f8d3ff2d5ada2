// How the program ends.

/// How the program ends, for the shell.
#[derive(Clone, Copy, Debug, PartialEq, Eq)]
pub struct Status(pub u8);

impl Status {
    /// The program has come to its end.
    pub const FINISHED: Status = Status(0);
    /// The program is refused.
    pub const REFUSED: Status = Status(1);
    /// The program has ended by an exception that nothing handles.
    pub const UNCAUGHT: Status = Status(2);
    /// The program has stopped in front of an application that isn't allowed.
    pub const SPENT: Status = Status(3);
    /// Memory ran out.
    pub const OUT_OF_MEMORY: Status = Status(4);
    /// A read failed.
    pub const READ_FAULT: Status = Status(5);
    /// A write failed.
    pub const WRITE_FAULT: Status = Status(6);
    /// The words are refused.
    pub const WORDS_REFUSED: Status = Status(7);
    /// Two definitions of a chain have one name and two texts.
    pub const CLASH: Status = Status(8);
    /// The sender of a pipe could not be started.
    pub const START_FAULT: Status = Status(9);
    /// The list of the shelf has a bad line.
    pub const SHELF_REFUSED: Status = Status(10);
    /// The channel is refused.
    pub const CHANNEL_REFUSED: Status = Status(11);
}
