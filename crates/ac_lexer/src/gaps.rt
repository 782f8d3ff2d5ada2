// What stands between tokens.

ghost use Rattle.std.specs.Prelude.{◌≡◌, ◌<◌, ◌≤◌, ◌++◌, false, length, codes, List, ℕ, IfSome, MatchOption, IsTrue};
ghost use Rattle.ac_lexer.specs.Gaps.{is_separator, begins_comment, ends_comment, Inside, Gap, NoGap};

fn is_separator(c: u8) -> bool
    ensures { result ≡ is_separator c }
{
    c == b' ' || c == b'\t' || c == b'\r' || c == b'\n'
}

// What is behind the `(*` that begins the text, if one does.
fn behind_opening(text: &[u8]) -> Option<&[u8]>
    ensures { MatchOption result (begins_comment text.now ≡ false)
        (λ rest. text.now ≡ codes "(*" ++ rest.now) }
{
    if opens(text) {
        let (_, rest) = text.split_at(2);
        Some(rest)
    } else {
        None
    }
}

// What is behind the `*)` that begins the text, if one does.
fn behind_closing(text: &[u8]) -> Option<&[u8]>
    ensures { MatchOption result (ends_comment text.now ≡ false)
        (λ rest. text.now ≡ codes "*)" ++ rest.now) }
{
    if text.starts_with(b"*)") {
        let (_, rest) = text.split_at(2);
        Some(rest)
    } else {
        None
    }
}

/// Whether `(*` begins the text.
pub(crate) fn opens(text: &[u8]) -> bool
    ensures value { result ≡ begins_comment text.now }
    ensures long { IsTrue result → 2 ≤ length text.now }
{
    text.starts_with(b"(*")
}

// What is behind the comment whose inside begins the text, `None` where it has no end.
fn behind_comment(text: &[u8]) -> Option<&[u8]>
    ensures comment { MatchOption result ((rest : List ℕ) → Inside text.now rest → ⊥)
        (λ rest. Inside text.now rest.now) }
    ensures shorter { IfSome result (λ rest. length rest.now < length text.now) }
{
    let mut around = 0usize;
    let mut rest = text;
    while let Some((_, after)) = rest.split_first() {
        if let Some(inside) = behind_opening(rest) {
            around += 1;
            rest = inside;
        } else if let Some(outside) = behind_closing(rest) {
            if around == 0 {
                return Some(outside);
            }
            around -= 1;
            rest = outside;
        } else {
            rest = after;
        }
    }
    None
}

/// What is behind the separator or the whole comment that begins the text, if one does.
pub(crate) fn behind_gap(text: &[u8]) -> Option<&[u8]>
    ensures gap { MatchOption result (NoGap text.now) (λ rest. Gap text.now rest.now) }
    ensures shorter { IfSome result (λ rest. length rest.now < length text.now) }
{
    let (first, rest) = text.split_first()?;
    if is_separator(*first) {
        return Some(rest);
    }
    behind_comment(behind_opening(text)?)
}
