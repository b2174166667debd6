// Threads that each add entries to one value, under a cell or under a lock.
ghost use Rattle.std.specs.Prelude.{◌≡◌, ◌<◌, ◌≤◌, length, All, false};

mod page;

use crate::turns::page::Page;
use std::alloc::{AllocError, Global};
use std::sync::{Mutex, Wait};
use std::thread;
use std::thread::Threads;
use turn_cell::{Pass, TurnCell};

/// How many threads there are, and how many turns each takes.
#[derive(Clone, Copy)]
pub(crate) struct Load {
    threads: u32,
    turns: u32,
    ghost within: { (1 ≤ threads) × (threads ≤ 65) },
}

impl Load {
    /// What these words say.
    pub(crate) fn of(words: &[String]) -> Option<Load> {
        let [threads, turns] = words else {
            return None;
        };
        let threads = threads.as_str().parse::<u32>().ok()?;
        let turns = turns.as_str().parse::<u32>().ok()?;
        if threads < 1 || threads > 65 {
            return None;
        }
        Some(Load { threads, turns })
    }
}

// Adds one entry in a turn of its own.
fn add_entry<R: Wait>(rt: &R, cell: &TurnCell<Page>, pass: &mut Pass<Page>)
    requires { (pass.old.cell ≡ cell.now) × (pass.old.holds ≡ false) }
    ensures { (pass.new.cell ≡ cell.now) × (pass.new.holds ≡ false) }
{
    let caller = pass.number();
    let mut turn = cell.take(rt, pass);
    match turn.value.entries.push(caller) {
        Ok(()) => cell.give(pass, turn),
        Err(_) => cell.give(pass, turn),
    }
}

fn add_entries<R: Wait>(rt: &R, cell: &TurnCell<Page>, pass: &mut Pass<Page>, turns: u32)
    requires { (pass.old.cell ≡ cell.now) × (pass.old.holds ≡ false) }
    ensures { (pass.new.cell ≡ cell.now) × (pass.new.holds ≡ false) }
{
    for _ in 0..turns {
        add_entry(rt, cell, pass);
    }
}

// A thread for each pass.
fn add_all<R: Threads + Wait + Sync>(
    rt: &R,
    cell: &TurnCell<Page>,
    passes: &mut [Pass<Page>],
    turns: u32,
)
    requires some_pass { 0 < length passes.old }
    requires idle { All (λ p. (p.cell ≡ cell.now) × (p.holds ≡ false)) passes.old }
{
    let threads = passes.len();
    thread::for_each_mut(
        rt,
        passes,
        threads,
        &|_, pass| add_entries(rt, cell, pass, turns),
    );
}

/// Under a cell.
pub(crate) fn run_cell<R: Threads + Wait + Sync>(
    rt: &R,
    alloc: Global,
    load: Load,
) -> Result<(), AllocError> {
    let page = Page {
        entries: Vec::new(alloc),
    };
    let (cell, mut passes) = TurnCell::new(alloc, page, load.threads)?;
    add_all(rt, &cell, passes.as_mut_slice(), load.turns);
    Ok(())
}

fn push_entries<R: Wait>(rt: &R, lock: &Mutex<Vec<u32>>, caller: u32, turns: u32) {
    for _ in 0..turns {
        let _ = lock.lock(rt).push(caller);
    }
}

/// Under a lock.
pub(crate) fn run_lock<R: Threads + Wait + Sync>(
    rt: &R,
    alloc: Global,
    load: Load,
) -> Result<(), AllocError> {
    let lock = &Mutex::new(Vec::new(alloc));
    let mut callers = Vec::new(alloc);
    for caller in 0..load.threads {
        callers.push(caller)?;
    }
    thread::for_each_mut(
        rt,
        callers.as_mut_slice(),
        load.threads as usize,
        &|_, caller| push_entries(rt, lock, *caller, load.turns),
    );
    Ok(())
}
