// Why a term has no type here, or a value isn't of one.

/// Why `type_of` gives no type, or `check_value` refuses.
#[derive(Clone, Copy, Debug, PartialEq, Eq)]
pub enum CheckFault {
    /// The term has no type, the type of a part isn't small, or the value isn't of its type.
    IllTyped,
    /// Memory ran out.
    Memory,
}
