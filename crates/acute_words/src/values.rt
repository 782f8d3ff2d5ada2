// The values of the words.

ghost use Rattle.std.specs.Prelude.{◌≡◌, ◌==◌, IfOk, map, option_map, slice_index};
ghost use Rattle.std.specs.List.{list_all};
ghost use Rattle.acute_words.specs.Commands.{are_one, channel_in, channel_named, channel_of, file_in, files_in, modules_in, shelf_in, steps_in};
ghost use Rattle.acute_words.specs.WordValues.{is_file, number_within};

use crate::command::Channel;
use ac_types::Memory;
use ac_types::limits::{DEFAULT_STEPS, MOST_MODULES, MOST_STEPS, MOST_STEPS_DIGITS};
use std::alloc::Global;

// Whether a plus stands first, which `parse` takes.
fn has_plus(text: &str) -> bool
    ensures { result ≡ (slice_index text.now 0 == 43) }
{
    match text.as_bytes() {
        [b'+', ..] => true,
        _ => false,
    }
}

/// The number that decimal digits write, where it lies between `least` and `most`, both included.
pub(crate) fn number_of(text: &str, least: u64, most: u64) -> Option<u64>
    ensures { result ≡ number_within least most text.now }
{
    if has_plus(text) {
        return None;
    }
    match text.parse::<u64>() {
        Ok(number) => {
            if least <= number && number <= most {
                Some(number)
            } else {
                None
            }
        }
        Err(_) => None,
    }
}

/// The number of steps that the text of an N names.
pub(crate) fn steps_of(text: Option<&str>) -> Option<u64>
    ensures { result ≡ steps_in (option_map (λ s. s.now) text.entry) }
{
    match text {
        None => Some(DEFAULT_STEPS),
        Some(text) => {
            if text.len() > MOST_STEPS_DIGITS {
                return None;
            }
            number_of(text, 0, MOST_STEPS)
        }
    }
}

/// Whether the text may name a FILE.
pub(crate) fn is_file_name(text: &str) -> bool
    ensures { result ≡ is_file text.now }
{
    !text.is_empty() && text != "-"
}

/// The file by the text of a FILE, if one is given.
pub(crate) fn file_in<'a>(text: Option<&'a str>) -> Option<&'a str>
    ensures { option_map (λ s. s.now) result ≡ file_in (option_map (λ s. s.now) text.entry) }
{
    let text = text?;
    if is_file_name(text) { Some(text) } else { None }
}

// The channel that the text of a CH names, if it names one.
fn channel_from<'a>(text: &'a str) -> Option<Channel<'a>>
    ensures { option_map channel_of result ≡ channel_named text.entry.now }
{
    if text == "-" {
        return Some(Channel::Standard);
    }
    if is_file_name(text) {
        Some(Channel::File(text))
    } else {
        None
    }
}

/// The channel by the text of a CH, if one is given.
pub(crate) fn channel_in<'a>(text: Option<&'a str>) -> Option<Option<Channel<'a>>>
    ensures { option_map (option_map channel_of) result
        ≡ channel_in (option_map (λ s. s.now) text.entry) }
{
    match text {
        None => Some(None),
        Some(text) => Some(Some(channel_from(text)?)),
    }
}

/// Whether both channels are one file.
pub(crate) fn are_one(first: Option<Channel>, second: Option<Channel>) -> bool
    ensures { result ≡ are_one (option_map channel_of first.entry)
        (option_map channel_of second.entry) }
{
    match (first, second) {
        (Some(Channel::File(first)), Some(Channel::File(second))) => first == second,
        _ => false,
    }
}

/// The list of a shelf by the text of its FILE, if one is given.
pub(crate) fn shelf_in<'a>(text: Option<&'a str>) -> Option<Option<&'a str>>
    ensures { option_map (option_map (λ s. s.now)) result
        ≡ shelf_in (option_map (λ s. s.now) text.entry) }
{
    match text {
        None => Some(None),
        Some(text) => {
            if is_file_name(text) {
                Some(Some(text))
            } else {
                None
            }
        }
    }
}

/// The number of modules that the text of a MODULES names.
pub(crate) fn modules_of(text: &str) -> Option<u32>
    ensures { result ≡ modules_in text.now }
{
    match number_of(text, 1, MOST_MODULES) {
        Some(number) => Some(number as u32),
        None => None,
    }
}

// Whether each text may name a FILE.
fn are_file_names(texts: &[&str]) -> bool
    ensures { result ≡ list_all is_file (map (λ s. s.now) texts.now) }
{
    for i in 0..texts.len() {
        if !is_file_name(texts[i]) {
            return false;
        }
    }
    true
}

/// The files by the texts of FILEs.
pub(crate) fn files_in<'a>(
    alloc: Global,
    texts: Option<&[&'a str]>,
) -> Result<Option<Vec<&'a str>>, Memory>
    ensures { IfOk result (λ o. option_map (λ v. map (λ s. s.now) v.items) o
        ≡ files_in (option_map (λ s. map (λ t. t.now) s.now) texts.entry)) }
{
    let Some(texts) = texts else {
        return Ok(None);
    };
    if !are_file_names(texts) {
        return Ok(None);
    }
    Ok(Some(Vec::from_slice(alloc, texts)?))
}
