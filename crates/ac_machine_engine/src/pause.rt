// Why the machine pauses or stops.

use ac_terms::Home;
use ac_types::{Exn, Text, Ty};
use ac_values::Value;

/// Why the machine stands still.
#[derive(Drop)]
pub enum Pause {
    /// It asks for these bytes to be printed, and waits for `resume_unit`.
    Print(Text),
    /// It asks for these bytes to be sent, and waits for `resume_unit` or `resume_raise`.
    Send(Text),
    /// It asks for the next frame, and waits for `resume_text` or `resume_raise`.
    Receive,
    /// It asks for the packet of a value of this type in this home, by the mark of this name, and
    /// waits for `resume_text` or `resume_raise`.
    Marshal {
        mark: Text,
        value: Value,
        ty: Ty,
        home: Home,
    },
    /// It asks for the value of this type that the text spells, and waits for `resume_block` or
    /// `resume_raise`.
    Unmarshal {
        text: Text,
        ty: Ty,
    },
    /// It has come to its end.
    Done,
    /// It has stopped at an exception that nothing handles.
    Raised(Exn),
    /// It has stopped in front of an application that the budget doesn't allow.
    Spent,
    /// Memory ran out. The machine is of no more use.
    Memory,
}

/// What the machine waits for.
#[derive(Clone, Copy)]
pub enum Wait {
    Printing,
    Sending,
    Receiving,
    Marshalling,
    Unmarshalling,
}

/// How the machine stands between two runs.
#[derive(Drop)]
pub enum Stand {
    Running,
    Waiting(Wait),
    Done,
    Raised(Exn),
    Spent,
}
