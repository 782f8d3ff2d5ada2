// One line of the list of a shelf.

ghost use Rattle.std.specs.Prelude.{◌≡◌, ◌==◌, [], ◌∷◌, ◌++◌, ◌<◌, true, false, length, Some, None, MatchOption};
ghost use Rattle.std.specs.List.{before_first, after_first, list_any, position, position_or_len};
ghost use Rattle.ac_types.specs.Limits.{is_uri};
ghost use Rattle.acute_files.specs.ShelfLists.{is_space, is_listed_file, lines, pair_of, without_feed};

use ac_types::limits::LONGEST_URI;

// The place of the first such byte.
fn first_place(byte: u8, text: &[u8]) -> Option<usize>
    ensures { result ≡ position (λ b. b == byte) text.now }
{
    text.iter().position(|b| *b == byte)
}

// The place of the first such byte, or the length where there is none.
#[tactic(auto, using(crate::proofs::Lines::place_is, crate::proofs::Lines::no_place))]
fn place_of(byte: u8, text: &[u8]) -> usize
    ensures { result ≡ position_or_len (λ b. b == byte) text.now }
{
    match first_place(byte, text) {
        Some(at) => at,
        None => text.len(),
    }
}

/// The first line of a text that isn't empty, with its line feed, and what follows it.
pub fn next_line(text: &[u8]) -> (&[u8], &[u8])
    requires { 0 < length text.now }
    ensures parted { text.now ≡ result.0.now ++ result.1.now }
    ensures some { 0 < length result.0.now }
    ensures lines { lines text.now ≡ result.0.now ∷ lines result.1.now }
{
    let at = place_of(b'\n', text);
    if at < text.len() {
        return text.split_at(at + 1);
    }
    text.split_at(text.len())
}

/// A line without its line feed.
pub fn without_feed(line: &[u8]) -> &[u8]
    ensures { result.now ≡ without_feed line.now }
{
    &line[..place_of(b'\n', line)]
}

/// The URI and the FILE of a line that isn't empty, where it has such a form.
pub fn pair_in<'a>(line: &'a [u8]) -> Option<(&'a [u8], &'a str)>
    ensures { let pair = pair_of (before_first is_space line.now) (after_first is_space line.now) in
        MatchOption result (pair ≡ None) (λ p. pair ≡ Some
        (record { uri = p.0.now; file = p.1.now } ∷ [])) }
{
    let at = place_of(b' ', line);
    if at == line.len() || !is_uri(&line[..at]) {
        return None;
    }
    Some((&line[..at], file_of(&line[at + 1..])?))
}

// Whether it is a URI.
fn is_uri(uri: &[u8]) -> bool
    ensures { result ≡ is_uri uri.now }
{
    1 <= uri.len() && uri.len() <= LONGEST_URI as usize
}

// The FILE of these bytes.
fn file_of(bytes: &[u8]) -> Option<&str>
    ensures { MatchOption result (is_listed_file bytes.now ≡ false)
        (λ file. (is_listed_file bytes.now ≡ true) × (file.now ≡ bytes.now)) }
{
    if bytes.is_empty() || has_space(bytes) {
        return None;
    }
    match str::from_utf8(bytes) {
        Ok(file) => Some(file),
        Err(_) => None,
    }
}

fn has_space(bytes: &[u8]) -> bool
    ensures { result ≡ list_any is_space bytes.now }
{
    bytes.iter().any(|byte| *byte == b' ')
}
