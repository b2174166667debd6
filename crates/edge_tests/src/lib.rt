//! Tests of the real outside, which is a folder, streams, connections and the clock, and of what threads share. They stand in a crate of
//! their own since a crate with tests is proved twice, with them and without. What stands in memory is tested by rows, which
//! `leaf_rows` runs.
#![tactic(auto)]

#[cfg(test)]
mod ahead;
#[cfg(test)]
mod calls;
#[cfg(test)]
mod folder;
#[cfg(test)]
mod fresh;
#[cfg(test)]
mod streams;
#[cfg(test)]
mod tcp;
#[cfg(test)]
mod threads;
