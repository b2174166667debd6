// What is told of rows.
use crate::file::RowFault;
use itoa::Buffer;
use std::alloc::{AllocError, Global};
use std::fmt::Debug;

// How many bytes are shown from the first that differs on.
const SHOWN: usize = 120;

/// What of a row came otherwise than it is wanted, and the first reason why it couldn't be run. What is amiss is noted here: so what runs a
/// row has one way to its end.
#[derive(Drop)]
pub struct Told {
    alloc: Global,
    text: String,
    has_failed: bool,
}

// The place of the first byte in which the two differ, or where the shorter one ends.
fn first_other(one: &[u8], other: &[u8]) -> usize {
    for (place, (a, b)) in one.iter().zip(other).enumerate() {
        if a != b {
            return place;
        }
    }
    one.len().min(other.len())
}

fn push_shown(text: &mut String, bytes: &[u8], from: usize) -> Result<(), AllocError> {
    let behind = bytes.get(from..).unwrap_or(&[]);
    for byte in behind.iter().take(SHOWN) {
        for c in byte.escape_ascii() {
            text.push(char::from(c))?;
        }
    }
    Ok(())
}

/// Appends words, one after another.
pub fn push_words(text: &mut String, words: &[&str]) -> Result<(), AllocError> {
    for &word in words {
        text.push_str(word)?;
    }
    Ok(())
}

fn push_fault(text: &mut String, fault: RowFault) -> Result<(), AllocError> {
    push_words(text, &fault.words())?;
    text.push_str("\n")
}

fn push_number(text: &mut String, number: u64) -> Result<(), AllocError> {
    text.push_str(Buffer::new().format(number))
}

impl Told {
    /// Nothing yet.
    pub(crate) fn new(alloc: Global) -> Told {
        Told {
            alloc,
            text: String::new(alloc),
            has_failed: false,
        }
    }

    /// Notes why the row can't be run.
    pub fn fail(&mut self, fault: RowFault) {
        if !self.has_failed {
            self.has_failed = true;
            let _ = self.text.push_str("  ");
            let _ = push_fault(&mut self.text, fault);
        }
    }

    /// Notes why the row wasn't run, where it wasn't.
    pub fn end(&mut self, ran: Result<(), RowFault>) {
        if let Err(fault) = ran {
            self.fail(fault);
        }
    }

    /// Notes that memory was wanting, where it was.
    pub fn stored(&mut self, done: Result<(), AllocError>) {
        if done.is_err() {
            self.fail(RowFault::NoMemory);
        }
    }

    /// The characters that the bytes of a TEXT spell, none where they spell none.
    pub fn characters(&mut self, text: Result<Vec<u8>, RowFault>) -> String {
        match text {
            Ok(bytes) => match String::from_utf8(bytes) {
                Ok(text) => return text,
                Err(_) => self.fail(RowFault::Text),
            },
            Err(fault) => self.fail(fault),
        }
        String::new(self.alloc)
    }

    /// Compares what is wanted of that part of an answer with what came.
    pub fn compare(&mut self, part: &str, wanted: &[u8], came: &[u8]) -> Result<(), AllocError> {
        if wanted == came {
            return Ok(());
        }
        let from = first_other(wanted, came);
        push_words(&mut self.text, &["  ", part, " from byte "])?;
        push_number(&mut self.text, from as u64)?;
        self.text.push_str(": wanted ")?;
        push_shown(&mut self.text, wanted, from)?;
        self.text.push_str(", came ")?;
        push_shown(&mut self.text, came, from)?;
        self.text.push_str("\n")
    }

    /// The same, where what is wanted may not be read.
    pub fn want(&mut self, part: &str, wanted: Result<Vec<u8>, RowFault>, came: &[u8]) {
        match wanted {
            Ok(wanted) => {
                let done = self.compare(part, &wanted, came);
                self.stored(done);
            }
            Err(fault) => self.fail(fault),
        }
    }

    /// The same of how a value is shown.
    pub fn want_shown<D: Debug>(
        &mut self,
        part: &str,
        wanted: Result<Vec<u8>, RowFault>,
        came: &D,
    ) {
        match format!(in self.alloc; "{came:?}") {
            Ok(came) => self.want(part, wanted, came.as_bytes()),
            Err(_) => self.fail(RowFault::NoMemory),
        }
    }

    fn push_numbers(&mut self, part: &str, wanted: u64, came: u64) -> Result<(), AllocError> {
        push_words(&mut self.text, &["  ", part, ": wanted "])?;
        push_number(&mut self.text, wanted)?;
        self.text.push_str(", came ")?;
        push_number(&mut self.text, came)?;
        self.text.push_str("\n")
    }

    /// Compares numbers.
    pub fn want_number(&mut self, part: &str, wanted: u64, came: u64) {
        if wanted != came {
            let done = self.push_numbers(part, wanted, came);
            self.stored(done);
        }
    }
}

/// How many rows came as they are wanted, how many didn't, and what is to be printed of a line.
#[derive(Drop)]
pub(crate) struct Totals {
    line: u64,
    passed: u64,
    failed: u64,
    text: String,
}

impl Totals {
    pub(crate) fn new(alloc: Global) -> Totals {
        Totals {
            line: 0,
            passed: 0,
            failed: 0,
            text: String::new(alloc),
        }
    }

    /// Goes on to the next line.
    pub(crate) fn next_line(&mut self) {
        self.line = self.line.saturating_add(1);
        self.text.clear();
    }

    /// Counts a line that isn't read.
    pub(crate) fn unread(&mut self, fault: RowFault) -> Result<(), AllocError> {
        self.failed = self.failed.saturating_add(1);
        self.text.push_str("line ")?;
        push_number(&mut self.text, self.line)?;
        self.text.push_str(": ")?;
        push_fault(&mut self.text, fault)
    }

    fn push_told(&mut self, name: &str, told: &Told) -> Result<(), AllocError> {
        push_words(&mut self.text, &[name, " (line "])?;
        push_number(&mut self.text, self.line)?;
        push_words(&mut self.text, &["):\n", told.text.as_str()])
    }

    /// Counts a row that was run.
    pub(crate) fn ran(&mut self, name: &str, told: &Told) -> Result<(), AllocError> {
        if told.text.is_empty() && !told.has_failed {
            self.passed = self.passed.saturating_add(1);
            return Ok(());
        }
        self.failed = self.failed.saturating_add(1);
        self.push_told(name, told)
    }

    /// What is to be printed of the line.
    pub(crate) fn told(&self) -> &str {
        self.text.as_str()
    }

    /// How many rows passed, and how many rows and lines failed.
    pub(crate) fn counts(&self) -> (u64, u64) {
        (self.passed, self.failed)
    }
}
