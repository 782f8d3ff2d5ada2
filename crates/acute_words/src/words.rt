// The words that may stand after a command's name.

ghost use Rattle.std.specs.Prelude.{◌≡◌, drop, map, string_bytes};
ghost use Rattle.std.specs.List.{list_all};
ghost use Rattle.acute_words.specs.Form.{is_fit};

// Whether the word may stand after a command's name: it doesn't begin with a hyphen, or is `-`, or
// an option.
fn is_fit_word(word: &str) -> bool
    ensures { result ≡ is_fit word.now }
{
    match word.as_bytes() {
        [b'-', b'-'] => false,
        [b'-', b'-', ..] => true,
        [b'-', _, ..] => false,
        _ => true,
    }
}

/// Whether each word after the first is one that may stand after a command's name.
pub(crate) fn are_fit(words: &[String]) -> bool
    ensures { result ≡ list_all is_fit (drop 1 (map string_bytes words.now)) }
{
    for i in 1..words.len() {
        if !is_fit_word(words[i].as_str()) {
            return false;
        }
    }
    true
}
