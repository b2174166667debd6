//! The values of partition columns, typed by the table's schema (Delta Lake PROTOCOL.md,
//! "Partition Value Serialization").
#![tactic(auto)]

mod columns;
mod day;
mod value;
mod whole;

pub use columns::{Column, Columns, columns_of, text_in};
pub use value::{PartType, PartValue, value_of};
