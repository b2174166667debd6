//! A world: commits to tables' logs and edits of a catalogue, taken one after another without threads, a store or a clock, and what a
//! recipient sees behind them.
#![tactic(auto)]

mod edits;
mod event;
mod kept;
mod log;
mod look;
mod world;

pub use event::Event;
pub use world::World;
