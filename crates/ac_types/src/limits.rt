//! The limits of the language and of its formats, each once and under a name of its own.

/// The most bytes of a text: of a program, or of a module of a shelf.
pub const LONGEST_TEXT: usize = 1_048_576;
/// The most bytes that are read of the file of a text: one more shows that it is too long.
pub const LONGEST_READ: usize = LONGEST_TEXT + 1;
/// The most openers that are unclosed at a place of a text.
pub const MOST_OPENERS: u32 = 200;
/// The greatest height of an expression.
pub const HIGHEST_EXPRESSION: u32 = 500;
/// The greatest height of a pattern.
pub const HIGHEST_PATTERN: u32 = 500;
/// The greatest height of a type as it is written.
pub const HIGHEST_WRITTEN_TYPE: u32 = 100;
/// The most bytes of an identifier.
pub const LONGEST_WORD: usize = 255;
/// The ints that a literal stands for are below.
pub const LITERALS_END: u64 = 1 << 63;
/// The most atoms of a version, and of a constraint.
pub const MOST_VERSION_ATOMS: usize = 8;

/// The most definitions of a program.
pub const MOST_DEFINITIONS: u32 = 4_096;
/// The most types, and the most values, of a signature, of a struct and of a likespec.
pub const MOST_ITEMS: u16 = 1_024;
/// The most arms of a match or a try.
pub const MOST_ARMS: u16 = 1_024;
/// The most parts of a tuple, of its type and of its pattern.
pub const WIDEST_TUPLE: u8 = 16;
/// The most variables in scope at a place.
pub const MOST_VARIABLES: u32 = 65_535;
/// The most atoms of a resolvespec.
pub const MOST_RESOLVES: u8 = 16;
/// The most bytes of a URI.
pub const LONGEST_URI: u32 = 1_024;
/// The most parts of a type written out.
pub const MOST_TYPE_PARTS: u32 = 4_096;
/// The greatest height of a type written out.
pub const HIGHEST_TYPE: u32 = 100;

/// The most bytes of a string.
pub const LONGEST_STRING: usize = 1_048_576;
/// The most bytes of a frame behind its length.
pub const LONGEST_FRAME: u32 = 1_048_576;
/// The most bytes of a packet that spells its types in full.
pub const LONGEST_PACKET: usize = 1_048_576;
/// The greatest nesting of a packet: of its values, terms and patterns on a path.
pub const DEEPEST_NESTING: u32 = 500;
/// The most entries of an environment.
pub const MOST_ENTRIES: usize = 65_535;

/// The most bytes of the list of a shelf.
pub const LONGEST_SHELF_LIST: usize = 65_536;
/// The most entries of a shelf.
pub const MOST_SHELF_ENTRIES: usize = 256;
/// The most files of a `check`.
pub const MOST_CHECKED: usize = 256;
/// The most programs of a `chain`.
pub const MOST_CHAINED: usize = 16;
/// The most digits of the number of steps that a command names.
pub const MOST_STEPS_DIGITS: usize = 10;
/// The most steps that a command may name.
pub const MOST_STEPS: u64 = 1_000_000_000;
/// The steps of a command that names none.
pub const DEFAULT_STEPS: u64 = 1_000_000;
/// The most modules of a program that is made.
pub const MOST_MODULES: u64 = 1_000;
