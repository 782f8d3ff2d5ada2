// The words by which a sender is started.
ghost use Rattle.std.specs.Prelude.{◌≡◌, ◌∷◌, [], ◌++◌, IfOk, OnOk, map, option_map, string_bytes};
ghost use Rattle.acute_pipe.specs.Senders.{option_words, words_for};

use ac_types::Memory;
use acute_words::Pipe;
use std::alloc::Global;

/// The words by which the sender of a pipe is started.
pub fn started_words(alloc: Global, asked: Pipe) -> Result<Vec<String>, Memory>
    ensures { IfOk result (λ words. map string_bytes words.items ≡ words_for asked.entry) }
{
    let mut words = Vec::new(alloc);
    add(alloc, &mut words, asked.tool)?;
    add(alloc, &mut words, "run")?;
    add(alloc, &mut words, asked.sender)?;
    add(alloc, &mut words, "--out")?;
    add(alloc, &mut words, "-")?;
    add_option(alloc, &mut words, "--shelf", asked.receiver.shelf)?;
    add_option(alloc, &mut words, "--steps", asked.written)?;
    Ok(words)
}

// Adds an option with its value, if that is given.
fn add_option(
    alloc: Global,
    words: &mut Vec<String>,
    name: &str,
    value: Option<&str>,
) -> Result<(), Memory>
    ensures { OnOk result (map string_bytes words.new.items ≡ map string_bytes words.old.items ++
        option_words name.now (option_map (λ s. s.now) value.entry)) }
{
    if let Some(value) = value {
        add(alloc, words, name)?;
        add(alloc, words, value)?;
    }
    Ok(())
}

// Adds a word.
fn add(alloc: Global, words: &mut Vec<String>, word: &str) -> Result<(), Memory>
    ensures { OnOk result (map string_bytes words.new.items ≡
        map string_bytes words.old.items ++ word.now ∷ []) }
{
    words.push(String::from_str(alloc, word)?)?;
    Ok(())
}
