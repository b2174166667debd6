//! Tests of what no row shows: callers of a cell and of a hub, in threads and one after the other, with which state a look begins, and
//! two workers at one door of real connections. They stand in a crate of their own since a crate with tests is proved twice, with them
//! and without.
#![tactic(auto)]

#[cfg(test)]
mod book;
#[cfg(test)]
mod callers;
#[cfg(test)]
mod looks;
#[cfg(test)]
mod objects;
#[cfg(test)]
mod offer;
#[cfg(test)]
mod script;
#[cfg(test)]
mod steps;
#[cfg(test)]
mod turns;
#[cfg(test)]
mod workers;
