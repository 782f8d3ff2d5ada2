//! Tests of files, sinks and worlds, of channels, of sessions in them, of journals, of verdicts in
//! parallel, and of the top call where no row of a table is.
#![tactic(auto)]

#[cfg(test)]
mod channels;
#[cfg(test)]
mod journals;
#[cfg(test)]
mod make;
#[cfg(test)]
mod meeting;
#[cfg(test)]
mod order;
#[cfg(test)]
mod outside;
#[cfg(test)]
mod packing;
#[cfg(test)]
mod sessions;
#[cfg(test)]
mod slow_input;
