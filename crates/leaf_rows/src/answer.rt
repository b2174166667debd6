// The answer of a row's call.
use itoa::Buffer;
use row_files::RowFault;
use std::alloc::{AllocError, Global};
use std::fmt::Debug;

/// The answer of a call, made piece by piece. What is amiss is noted, and told at its end alone: so what makes it has one way to its end.
/// Nothing is said of its text, which would burden the proofs of those that make it.
#[derive(Drop)]
pub(crate) struct Answer {
    alloc: Global,
    text: Vec<u8>,
    fault: Option<RowFault>,
}

impl Answer {
    /// An empty answer.
    pub(crate) fn new(alloc: Global) -> Answer {
        Answer {
            alloc,
            text: Vec::new(alloc),
            fault: None,
        }
    }

    /// Where what is made for the answer takes its memory.
    pub(crate) fn alloc(&self) -> Global {
        self.alloc
    }

    /// Notes what is amiss: the first is told.
    pub(crate) fn fail(&mut self, fault: RowFault) {
        if self.fault.is_none() {
            self.fault = Some(fault);
        }
    }

    /// Notes that the member of that name is lacking, or is no such value.
    pub(crate) fn lacks(&mut self, name: &'static str) {
        self.fail(RowFault::Member(name));
    }

    /// Notes why something couldn't be made.
    pub(crate) fn ended(&mut self, done: Result<(), RowFault>) {
        if let Err(fault) = done {
            self.fail(fault);
        }
    }

    /// Notes that memory was wanting.
    pub(crate) fn stored(&mut self, done: Result<(), AllocError>) {
        if done.is_err() {
            self.fail(RowFault::NoMemory);
        }
    }

    /// The bytes that were made, none where they weren't.
    pub(crate) fn made(&mut self, bytes: Result<Vec<u8>, RowFault>) -> Vec<u8> {
        match bytes {
            Ok(bytes) => bytes,
            Err(fault) => {
                self.fail(fault);
                Vec::new(self.alloc)
            }
        }
    }

    /// What was made where memory sufficed.
    pub(crate) fn kept<T>(&mut self, made: Result<T, AllocError>) -> Option<T> {
        match made {
            Ok(value) => Some(value),
            Err(_) => {
                self.fail(RowFault::NoMemory);
                None
            }
        }
    }

    /// Appends bytes.
    pub(crate) fn bytes(&mut self, bytes: &[u8]) {
        let done = self.text.extend_from_slice(bytes);
        self.stored(done);
    }

    /// Appends a word.
    pub(crate) fn word(&mut self, word: &str) {
        self.bytes(word.as_bytes());
    }

    /// Appends a word, and another one.
    pub(crate) fn words(&mut self, word: &str, other: &str) {
        self.word(word);
        self.word(other);
    }

    /// Appends a word and a number.
    pub(crate) fn number(&mut self, word: &str, number: u64) {
        self.word(word);
        self.word(Buffer::new().format(number));
    }

    /// Appends a word and a whole number.
    pub(crate) fn whole(&mut self, word: &str, number: i64) {
        self.word(word);
        self.word(Buffer::new().format(number));
    }

    /// Appends a word, and true or false.
    pub(crate) fn flag(&mut self, word: &str, flag: bool) {
        self.word(word);
        self.word(if flag { "true" } else { "false" });
    }

    /// Appends the two digits of each byte.
    pub(crate) fn digits(&mut self, bytes: &[u8]) {
        match hex::encode(self.alloc, bytes) {
            Ok(digits) => self.word(digits.as_str()),
            Err(_) => self.fail(RowFault::NoMemory),
        }
    }

    /// Appends a value as it is shown.
    pub(crate) fn show<D: Debug>(&mut self, value: &D) {
        match format!(in self.alloc; "{value:?}") {
            Ok(text) => self.word(text.as_str()),
            Err(_) => self.fail(RowFault::NoMemory),
        }
    }

    /// The bytes of an answer to which all is said.
    pub(crate) fn end(self) -> Result<Vec<u8>, RowFault> {
        let Answer {
            alloc: _,
            text,
            fault,
        } = self;
        match fault {
            None => Ok(text),
            Some(fault) => Err(fault),
        }
    }
}
