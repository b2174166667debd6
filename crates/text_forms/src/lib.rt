//! Forms that texts of several libraries have: numbers by their decimal digits, and percent-encoding (RFC 3986).
#![tactic(auto)]

mod escape;
mod number;

pub use escape::push_escaped;
pub use number::number_in;
