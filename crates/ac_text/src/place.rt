// Places of a text: lines and columns.

ghost use Rattle.std.specs.Prelude.{◌≡◌};
ghost use Rattle.ac_text.specs.Places.{line_of, column_of};

/// A line and a column, both from 1. A column counts bytes.
#[derive(Clone, Copy, Debug, PartialEq, Eq)]
pub struct LineColumn {
    pub line: usize,
    pub column: usize,
}

/// The place of the byte behind these.
pub fn place_behind(bytes: &[u8]) -> LineColumn
    ensures line { result.line ≡ line_of bytes.now }
    ensures column { result.column ≡ column_of bytes.now }
{
    let (mut feeds, mut since) = (0, 0);
    for byte in bytes {
        if *byte == b'\n' {
            feeds += 1;
            since = 0;
        } else {
            since += 1;
        }
    }
    LineColumn {
        line: feeds + 1,
        column: since + 1,
    }
}
