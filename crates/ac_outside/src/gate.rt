// The gate that each piece of parallel work passes.

/// What each piece of parallel work passes: it stands between one `enter` and one `leave` of its
/// number. Nothing is promised of when a piece enters.
pub trait Gate {
    /// The piece of this number, from 0, begins.
    fn enter(&self, piece: usize);

    /// The piece of this number is over.
    fn leave(&self, piece: usize);
}

/// A gate that stands open: it does nothing.
#[derive(Clone, Copy)]
pub struct OpenGate;

impl Gate for OpenGate {
    fn enter(&self, _piece: usize) {}

    fn leave(&self, _piece: usize) {}
}
