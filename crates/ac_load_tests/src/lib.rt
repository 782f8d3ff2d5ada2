//! Tests of links and what a resolvespec gives, of typing, of what is asked of modules, of loading,
//! and of packets that are accepted or refused.
#![tactic(auto)]

#[cfg(test)]
mod accepted;
#[cfg(test)]
mod crossing;
#[cfg(test)]
mod links;
#[cfg(test)]
mod make;
#[cfg(test)]
mod modules;
#[cfg(test)]
mod packets;
#[cfg(test)]
mod refused;
#[cfg(test)]
mod resolving;
#[cfg(test)]
mod room;
#[cfg(test)]
mod spelled;
#[cfg(test)]
mod typing;
