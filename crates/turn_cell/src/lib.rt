//! A turn: a value that one caller at a time has, and a history of which each caller has seen a beginning.
//!
//! [`TurnCell::take`] waits for the turn and hands out the value, [`TurnCell::give`] brings it back. What a caller knows is
//! in its [`Pass`], and [`TurnCell::meet`] tells one caller what another has seen, with no turn and no wait.
#![tactic(auto)]

mod cell;
mod kept;
mod pass;
mod plays;
mod view;

pub use cell::TurnCell;
pub use kept::Kept;
pub use pass::{Note, Pass, Turn};
