// A gate that shows whether two callers are at work at the same time.
use crate::Gate;
use std::sync::atomic::{AtomicBool, Ordering};
use std::sync::{Mutex, Wait};
use std::thread;

// How many turns a caller is held at most.
const MOST_TURNS: u32 = 10_000_000;

// The caller that is held.
#[derive(Clone, Copy, PartialEq, Eq)]
enum Held {
    // Nobody has passed.
    Nobody,
    // The first that passed, by its number.
    Caller(u32),
    // It goes on: another caller was done, or the turns were over.
    Released,
}

/// A gate that holds the first caller which passes until another caller is done, for a number of turns at most, at each of
/// which it lets other threads run. All that pass later go on at once.
#[derive(Drop)]
pub struct HoldGate {
    turns: u32,
    held: Mutex<Held>,
    met: AtomicBool,
}

impl HoldGate {
    /// A gate that holds for at most 10,000,000 turns.
    pub fn new() -> HoldGate {
        HoldGate::with_turns(MOST_TURNS)
    }

    /// A gate that holds for at most so many turns.
    pub fn with_turns(turns: u32) -> HoldGate {
        HoldGate {
            turns,
            held: Mutex::new(Held::Nobody),
            met: AtomicBool::new(false),
        }
    }

    /// Whether another caller was done while the first was held.
    pub fn met(&self) -> bool {
        self.met.load(Ordering::SeqCst)
    }

    // Holds the caller, if it is the first.
    fn hold<R: Wait>(&self, rt: &R, caller: u32) -> bool {
        let mut held = self.held.lock(rt);
        let first = *held == Held::Nobody;
        if first {
            *held = Held::Caller(caller);
        }
        first
    }
}

impl Gate for HoldGate {
    fn pass<R: Wait>(&self, rt: &R, caller: u32, _request: u64) {
        if !self.hold(rt, caller) {
            return;
        }
        for _ in 0..self.turns {
            if self.met() {
                return;
            }
            thread::yield_now();
        }
        *self.held.lock(rt) = Held::Released;
    }

    fn done<R: Wait>(&self, rt: &R, caller: u32, _request: u64) {
        let mut held = self.held.lock(rt);
        if let Held::Caller(first) = *held {
            if first != caller {
                *held = Held::Released;
                self.met.store(true, Ordering::SeqCst);
            }
        }
    }
}
