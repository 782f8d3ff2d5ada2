// Trees, and what is read of texts and of words, whose values may cross to another thread.

use ac_index::Firsts;
use ac_lexer::Token;
use ac_terms::{Entry, Home, PDef, PVal, Pat, Term};
use ac_types::{Constraint, Exn, Many, Resolve, Sig, Text, Ty, Version};
use acute_words::Command;

fn crosses<T: Send + Sync>() {}

#[test]
fn types_and_signatures_cross(_rt: HostRuntime) {
    crosses::<Text>();
    crosses::<Ty>();
    crosses::<Sig>();
    crosses::<Version>();
    crosses::<Constraint>();
    crosses::<Resolve>();
}

#[test]
fn terms_cross(_rt: HostRuntime) {
    crosses::<Term>();
    crosses::<Pat>();
    crosses::<Home>();
    crosses::<Exn>();
}

// (Of an environment itself, and of a packet, the prover's search gives up at a limit.)
#[test]
fn parts_of_environments_cross(_rt: HostRuntime) {
    crosses::<Vec<Entry>>();
    crosses::<Firsts<[u8; 32]>>();
    crosses::<Firsts<Vec<u8>>>();
}

#[test]
fn parts_of_packets_cross(_rt: HostRuntime) {
    crosses::<Many<PDef>>();
    crosses::<PVal>();
}

#[test]
fn tokens_and_commands_cross(_rt: HostRuntime) {
    crosses::<Token>();
    crosses::<Command<'_>>();
}
