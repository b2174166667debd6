//! What is told by cases, each table stated once: refusals with their statuses and messages, routes with their methods, types of
//! values with their classes, and the fields of actions.
//!
//! Each table is an enum, whose cases are its rows. What a case tells is stated in `specs/`, and each method tells just that.
#![tactic(auto)]

mod action_fields;
mod refuse;
mod routing;
mod values;

pub use action_fields::{ActionKind, Field, fields_differ};
pub use refuse::{Refusal, refusals_differ};
pub use routing::{Method, Route, routes_differ};
pub use values::{Class, ValueType, value_types_differ};
