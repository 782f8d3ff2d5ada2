//! The tags of spellings, and what packets begin with, each once and under a name of its own.

/// A type: `int`.
pub const TYPE_INT: u8 = 0x01;
/// A type: `bool`.
pub const TYPE_BOOL: u8 = 0x02;
/// A type: `string`.
pub const TYPE_STR: u8 = 0x03;
/// A type: `unit`.
pub const TYPE_UNIT: u8 = 0x04;
/// A type: `exn`.
pub const TYPE_EXN: u8 = 0x05;
/// A type: a tuple.
pub const TYPE_TUPLE: u8 = 0x06;
/// A type: a list.
pub const TYPE_LIST: u8 = 0x07;
/// A type: an option.
pub const TYPE_OPT: u8 = 0x08;
/// A type: a function.
pub const TYPE_FUN: u8 = 0x09;
/// A type: an abstract type of a definition.
pub const TYPE_ABS: u8 = 0x0A;
/// A type: an abstract type of the same signature.
pub const TYPE_MINE: u8 = 0x0B;

/// A pattern: `_`.
pub const PATTERN_WILD: u8 = 0x01;
/// A pattern: a variable.
pub const PATTERN_VAR: u8 = 0x02;
/// A pattern: an int.
pub const PATTERN_INT: u8 = 0x03;
/// A pattern: a bool.
pub const PATTERN_BOOL: u8 = 0x04;
/// A pattern: a string.
pub const PATTERN_STR: u8 = 0x05;
/// A pattern: `()`.
pub const PATTERN_UNIT: u8 = 0x06;
/// A pattern: a tuple.
pub const PATTERN_TUPLE: u8 = 0x07;
/// A pattern: `[]`.
pub const PATTERN_NIL: u8 = 0x08;
/// A pattern: `::`.
pub const PATTERN_CONS: u8 = 0x09;
/// A pattern: `None`.
pub const PATTERN_ABSENT: u8 = 0x0A;
/// A pattern: `Some`.
pub const PATTERN_PRESENT: u8 = 0x0B;
/// A pattern: an exception.
pub const PATTERN_EXN: u8 = 0x0C;

/// A term: an int.
pub const TERM_INT: u8 = 0x01;
/// A term: a bool.
pub const TERM_BOOL: u8 = 0x02;
/// A term: a string.
pub const TERM_STR: u8 = 0x03;
/// A term: `()`.
pub const TERM_UNIT: u8 = 0x04;
/// A term: an exception.
pub const TERM_EXN: u8 = 0x05;
/// A term: a tuple.
pub const TERM_TUPLE: u8 = 0x06;
/// A term: `[]`.
pub const TERM_NIL: u8 = 0x07;
/// A term: `None`.
pub const TERM_EMPTY: u8 = 0x08;
/// A term: `Some`.
pub const TERM_PRESENT: u8 = 0x09;
/// A term: `::`.
pub const TERM_CONS: u8 = 0x0A;
/// A term: a variable.
pub const TERM_VAR: u8 = 0x0B;
/// A term: an earlier field of the same module.
pub const TERM_OWN: u8 = 0x0C;
/// A term: a value of a definition.
pub const TERM_REF: u8 = 0x0D;
/// A term: a function.
pub const TERM_LAM: u8 = 0x0E;
/// A term: a recursive function.
pub const TERM_REC: u8 = 0x0F;
/// A term: an application.
pub const TERM_APP: u8 = 0x10;
/// A term: a `let`.
pub const TERM_LET: u8 = 0x11;
/// A term: an `if`.
pub const TERM_IF: u8 = 0x12;
/// A term: a sequence.
pub const TERM_SEQ: u8 = 0x13;
/// A term: a `match`.
pub const TERM_MATCH: u8 = 0x14;
/// A term: a `try`.
pub const TERM_TRY: u8 = 0x15;
/// A term: a `raise`.
pub const TERM_RAISE: u8 = 0x16;
/// A term: a primitive.
pub const TERM_PRIM: u8 = 0x17;
/// A term: a `marshal`.
pub const TERM_MARSHAL: u8 = 0x18;
/// A term: an `unmarshal`.
pub const TERM_UNMARSHAL: u8 = 0x19;
/// A term: a captured value.
pub const TERM_VAL: u8 = 0x1A;

/// A packed value: an int.
pub const VALUE_INT: u8 = 0x01;
/// A packed value: a bool.
pub const VALUE_BOOL: u8 = 0x02;
/// A packed value: a string.
pub const VALUE_STR: u8 = 0x03;
/// A packed value: `()`.
pub const VALUE_UNIT: u8 = 0x04;
/// A packed value: an exception.
pub const VALUE_EXN: u8 = 0x05;
/// A packed value: a tuple.
pub const VALUE_TUPLE: u8 = 0x06;
/// A packed value: a list.
pub const VALUE_LIST: u8 = 0x07;
/// A packed value: `None`.
pub const VALUE_ABSENT: u8 = 0x08;
/// A packed value: `Some`.
pub const VALUE_PRESENT: u8 = 0x09;
/// A packed value: a function.
pub const VALUE_FUN: u8 = 0x0A;

/// A type of a signature: abstract.
pub const SIG_ABSTRACT: u8 = 0x00;
/// A type of a signature: manifest.
pub const SIG_MANIFEST: u8 = 0x01;

/// An atom of a version: a number.
pub const ATOM_NUMBER: u8 = 0x01;
/// An atom of a version: `myname`.
pub const ATOM_MY_NAME: u8 = 0x02;

/// An atom of a constraint: a number.
pub const RANGE_ONE: u8 = 0x01;
/// An atom of a constraint: from one number to another.
pub const RANGE_BETWEEN: u8 = 0x02;
/// An atom of a constraint: up to a number.
pub const RANGE_UP_TO: u8 = 0x03;
/// An atom of a constraint: from a number on.
pub const RANGE_FROM: u8 = 0x04;

/// A constraint: atoms, and perhaps a star.
pub const CONSTRAINT_RANGES: u8 = 0x01;
/// A constraint: an exact name.
pub const CONSTRAINT_EXACT: u8 = 0x02;

/// An atom of a resolvespec: `Static_Link`.
pub const RESOLVE_STATIC_LINK: u8 = 0x01;
/// An atom of a resolvespec: `Here_Already`.
pub const RESOLVE_HERE_ALREADY: u8 = 0x02;
/// An atom of a resolvespec: a URI.
pub const RESOLVE_URI: u8 = 0x03;

/// A definition: a module.
pub const DEF_MODULE: u8 = 0x01;
/// A definition: an import.
pub const DEF_IMPORT: u8 = 0x02;

/// What each packet begins with, as a number of four bytes: `ACUP`.
pub const PACKET_MARK: u32 = 0x41435550;
/// The version of packets that spell types in full.
pub const PACKET_IN_FULL: u8 = 0x01;
