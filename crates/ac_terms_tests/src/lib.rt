//! Tests of types and core terms, numbers in bytes, frames, the table of blocks and the store of
//! values; and of canonical texts, names and the table of names.
#![tactic(auto)]

#[cfg(test)]
mod bytes;
#[cfg(test)]
mod code;
#[cfg(test)]
mod framed;
#[cfg(test)]
mod look_ups;
#[cfg(test)]
mod make;
#[cfg(test)]
mod name_table;
#[cfg(test)]
mod names;
#[cfg(test)]
mod spellings;
#[cfg(test)]
mod terms;
#[cfg(test)]
mod types;
#[cfg(test)]
mod values;
