// The lines of a commit's text, and what they give.
ghost use Rattle.std.specs.Prelude.{◌≡◌, ◌++◌, [], Ok, IfOk, OnOk};
ghost use Rattle.std.specs.List.{cons_option};
ghost use Rattle.json_print.specs.Lines.{lines};
ghost use Rattle.log_actions.specs.Faults.{Gives};
ghost use Rattle.log_commit.specs.Lines.{given, is_blank as is_blank_line};
ghost use Rattle.log_commit.specs.Passes.{number_first};
ghost use Rattle.log_commit.specs.Seen.{AreRead, TakesLine};

use crate::CommitFault;
use json_print::lines::cut;
use log_actions::{Action, NoAction, action_of_line};
use std::alloc::{AllocError, Global};

// The actions of lines, and the numbers of the lines that have one.
#[derive(Drop)]
pub(crate) struct Found {
    pub(crate) numbers: Vec<u64>,
    pub(crate) actions: Vec<Action>,
}

fn is_blank(line: &[u8]) -> bool
    ensures { result ≡ is_blank_line line.now }
{
    line.iter().all(|b| b" \t\r".contains(b))
}

fn read_line(alloc: Global, line: &[u8]) -> Result<Option<Action>, NoAction>
    ensures { Gives result (given line.now) }
{
    if is_blank(line) {
        Ok(None)
    } else {
        action_of_line(alloc, line)
    }
}

impl Found {
    // Adds the action of line n, if it has one.
    fn add(&mut self, n: u64, action: Option<Action>) -> Result<(), AllocError>
        ensures numbers { OnOk result (self.new.numbers.items ≡ self.old.numbers.items ++ number_first n (Ok action) []) }
        ensures actions { OnOk result (self.new.actions.items ≡ self.old.actions.items ++ cons_option action []) }
    {
        if let Some(action) = action {
            self.numbers.push(n)?;
            self.actions.push(action)?;
        }
        Ok(())
    }
}

// Adds what line n gives, or answers its fault.
fn take_line(
    alloc: Global,
    found: &mut Found,
    n: u64,
    line: &[u8],
) -> Result<Option<CommitFault>, AllocError>
    ensures { IfOk result (λ stop. TakesLine n (given line.now) found.old found.new stop) }
{
    match read_line(alloc, line) {
        Ok(action) => {
            found.add(n, action)?;
            Ok(None)
        }
        Err(NoAction::Fault(fault)) => Ok(Some(CommitFault::Line { n, fault })),
        Err(NoAction::NoMemory) => Err(AllocError),
    }
}

// The actions of the lines before the first that isn't read, and its fault.
pub(crate) fn read_lines(
    alloc: Global,
    bytes: &[u8],
) -> Result<(Found, Option<CommitFault>), AllocError>
    ensures { IfOk result (λ read. AreRead (lines bytes.now) read.0 read.1) }
{
    let mut found = Found {
        numbers: Vec::new(alloc),
        actions: Vec::new(alloc),
    };
    let mut n = 0u64;
    let mut rest = Some(bytes);
    while let Some(left) = rest {
        let (line, more) = cut(left);
        rest = more;
        n += 1;
        let stop = take_line(alloc, &mut found, n, line)?;
        if stop.is_some() {
            return Ok((found, stop));
        }
    }
    Ok((found, None))
}
