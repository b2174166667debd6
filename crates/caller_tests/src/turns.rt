// Callers in threads of their own, each of which adds lines to one page.
ghost use Rattle.std.specs.Prelude.{◌≡◌, ◌<◌, ◌≤◌, ◌+◌, length, All, true, false};

use std::alloc::{AllocError, Global};
use std::sync::Wait;
use std::thread;
use std::thread::Threads;
use turn_cell::{Kept, Pass, TurnCell};

#[derive(Drop)]
struct Line {
    caller: u32,
    number: u32,
}

#[derive(Drop)]
struct Page {
    lines: Vec<Line>,
}

impl Kept for Page {
    ghost use Rattle.std.specs.Prelude.{true};

    type Entry = Line;

    ghost caller = { λ line. line.caller };

    ghost history = { λ page. page.lines.items };

    ghost may = { λ _ _. Unit {0} };

    ghost rests = { λ _. true };

    fn count(&self) -> u64 {
        self.lines.len() as u64
    }
}

// Adds a line in a turn of its own, where there is memory.
fn add_line<R: Wait>(rt: &R, cell: &TurnCell<Page>, pass: &mut Pass<Page>, number: u32)
    requires { (pass.old.cell ≡ cell.now) × (pass.old.holds ≡ false) }
    ensures { (pass.new.cell ≡ cell.now) × (pass.new.holds ≡ false) }
{
    let caller = pass.number();
    let mut turn = cell.take(rt, pass);
    match turn.value.lines.push(Line { caller, number }) {
        Ok(()) => cell.give(pass, turn),
        Err(_) => cell.give(pass, turn),
    }
}

fn add_lines<R: Wait>(rt: &R, cell: &TurnCell<Page>, pass: &mut Pass<Page>, lines: u32)
    requires { (pass.old.cell ≡ cell.now) × (pass.old.holds ≡ false) }
    ensures { (pass.new.cell ≡ cell.now) × (pass.new.holds ≡ false) }
{
    for number in 0..lines {
        add_line(rt, cell, pass, number);
    }
}

// A thread for each caller.
fn add_all<R: Threads + Wait + Sync>(
    rt: &R,
    cell: &TurnCell<Page>,
    passes: &mut [Pass<Page>],
    lines: u32,
)
    requires some_pass { 0 < length passes.old }
    requires idle { All (λ p. (p.cell ≡ cell.now) × (p.holds ≡ false)) passes.old }
    ensures length { length passes.new ≡ length passes.old }
    ensures idle { All (λ p. (p.cell ≡ cell.now) × (p.holds ≡ false)) passes.new }
{
    let callers = passes.len();
    thread::for_each_mut(
        rt,
        passes,
        callers,
        &|_, pass| add_lines(rt, cell, pass, lines),
    );
}

// One caller is told what each other has seen.
fn meet_all(cell: &TurnCell<Page>, first: &mut Pass<Page>, others: &mut [Pass<Page>])
    requires first { (first.old.cell ≡ cell.now) × (first.old.holds ≡ false) }
    requires others { All (λ p. (p.cell ≡ cell.now) × (p.holds ≡ false)) others.old }
    ensures { (first.new.cell ≡ cell.now) × (first.new.holds ≡ false) }
{
    for i in 0..others.len() {
        cell.meet(first, &mut others[i]);
    }
}

// Whether the caller's lines have the numbers from 0 on, in order.
fn in_order(page: &Page, caller: u32, lines: u32) -> bool {
    let mut next: u32 = 0;
    for line in page.lines.iter() {
        if line.caller == caller {
            if line.number != next {
                return false;
            }
            next = next.wrapping_add(1);
        }
    }
    next == lines
}

// Whether the page has each caller's lines once and in order, and no others.
fn is_whole(page: &Page, callers: u32, lines: u32) -> bool {
    let all = u64::from(callers) * u64::from(lines);
    page.count() == all && (0..callers).all(|caller| in_order(page, caller, lines))
}

// Whether the first caller finds a whole page once it has met the others.
fn finds_a_whole_page<R: Wait>(
    rt: &R,
    cell: &TurnCell<Page>,
    passes: &mut [Pass<Page>],
    callers: u32,
    lines: u32,
) -> bool
    requires { All (λ p. (p.cell ≡ cell.now) × (p.holds ≡ false)) passes.old }
{
    let Some((first, others)) = passes.split_first_mut() else {
        return false;
    };
    meet_all(cell, first, others);
    let turn = cell.take(rt, first);
    let whole = is_whole(&turn.value, callers, lines);
    cell.give(first, turn);
    whole
}

fn write_a_page<R: Threads + Wait + Sync>(
    rt: &R,
    alloc: Global,
    callers: u32,
    lines: u32,
) -> Result<bool, AllocError>
    requires { (1 ≤ callers) × (callers ≤ 65) }
{
    let page = Page {
        lines: Vec::new(alloc),
    };
    let (cell, mut passes) = TurnCell::new(alloc, page, callers)?;
    let passes = passes.as_mut_slice();
    add_all(rt, &cell, passes, lines);
    cell.one_history(passes);
    Ok(finds_a_whole_page(rt, &cell, passes, callers, lines))
}

#[test]
fn two_callers_write_a_page(rt: HostRuntime) -> Result<(), AllocError> {
    assert!(rt; write_a_page(&rt, rt.alloc(), 2, 40)?);
    Ok(())
}

#[test]
fn eight_callers_write_a_page(rt: HostRuntime) -> Result<(), AllocError> {
    assert!(rt; write_a_page(&rt, rt.alloc(), 8, 10)?);
    Ok(())
}

#[test]
fn sixty_five_callers_write_a_page(rt: HostRuntime) -> Result<(), AllocError> {
    assert!(rt; write_a_page(&rt, rt.alloc(), 65, 3)?);
    Ok(())
}
