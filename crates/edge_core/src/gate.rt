// What may delay a request.
use std::sync::Wait;

/// What stands between a caller's look at what is shared and its reply. It holds nothing and answers nothing; it may only
/// delay. `caller` is the number of the caller, `request` that of its request.
pub trait Gate {
    /// A caller that has looked, and is to reply. It may wait.
    fn pass<R: Wait>(&self, rt: &R, caller: u32, request: u64);

    /// A caller that has replied. It may wait.
    fn done<R: Wait>(&self, rt: &R, caller: u32, request: u64);
}

/// A gate that does nothing.
#[derive(Clone, Copy, Debug, PartialEq, Eq)]
pub struct OpenGate;

impl Gate for OpenGate {
    fn pass<R: Wait>(&self, _rt: &R, _caller: u32, _request: u64) {}

    fn done<R: Wait>(&self, _rt: &R, _caller: u32, _request: u64) {}
}
