//! Tests of the tokens of texts, of the parsers of types, signatures and patterns, of versions and
//! constraints, and of what may cross to another thread.
#![tactic(auto)]

#[cfg(test)]
mod crossing;
#[cfg(test)]
mod patterns;
#[cfg(test)]
mod rows;
#[cfg(test)]
mod tokens;
#[cfg(test)]
mod type_texts;
#[cfg(test)]
mod versions;
