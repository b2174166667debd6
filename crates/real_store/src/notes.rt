// What is told where there is no store.
use crate::PlaceFault;
use bucket_config::{BucketConfigFault, BucketField};
use bucket_store::{BucketFault, Refusal};
use edge_core::{Sink, write_all};
use itoa::Buffer;

// The line of a member that isn't as it has to be.
fn field_line(field: BucketField) -> &'static str {
    match field {
        BucketField::Address => "share: bucket address",
        BucketField::Bucket => "share: bucket bucket",
        BucketField::FreshMillis => "share: bucket freshMillis",
        BucketField::Host => "share: bucket host",
        BucketField::Key => "share: bucket key",
        BucketField::Prefix => "share: bucket prefix",
        BucketField::Region => "share: bucket region",
        BucketField::Secret => "share: bucket secret",
        BucketField::Token => "share: bucket token",
    }
}

fn config_line(fault: BucketConfigFault) -> &'static str {
    match fault {
        BucketConfigFault::NotJson => "share: bucket not JSON",
        BucketConfigFault::Field(field) => field_line(field),
        BucketConfigFault::NoMemory => "share: memory",
    }
}

fn bucket_line(fault: &BucketFault) -> &'static str {
    match fault {
        BucketFault::NotListed(_) => "share: bucket not listed",
        BucketFault::NotStored(_) => "share: bucket not stored",
        BucketFault::Overwritten => "share: bucket overwrites",
    }
}

impl PlaceFault {
    // The line that says why, as far as no answer of a bucket is in it.
    fn line(&self) -> &'static str {
        match self {
            PlaceFault::NotRead => "share: bucket not read",
            PlaceFault::NotSaid(fault) => config_line(*fault),
            PlaceFault::NoRandomness => "share: no random bytes",
            PlaceFault::NoStore(fault) => bucket_line(fault),
            PlaceFault::NoMemory => "share: memory",
        }
    }

    // What the bucket answered.
    fn refusal(&self) -> Option<&Refusal> {
        match self {
            PlaceFault::NoStore(
                BucketFault::NotListed(refusal) | BucketFault::NotStored(refusal),
            ) => { Some(refusal) }
            _ => None,
        }
    }

    /// The status of the program: 3 where `bucket.json` doesn't say where a bucket is, 5 where the system or the bucket isn't as it has to
    /// be, 6 for want of memory.
    pub fn status(&self) -> u8 {
        match self {
            PlaceFault::NotRead | PlaceFault::NotSaid(_) => 3,
            PlaceFault::NoRandomness | PlaceFault::NoStore(_) => 5,
            PlaceFault::NoMemory => 6,
        }
    }
}

// Writes a text to the notes, as far as they take it.
fn write<M: Sink>(notes: &mut M, text: &str) {
    let _ = write_all(notes, text.as_bytes());
}

// Writes what a bucket answered: the status, and its word for the error; or that no answer came whole.
fn write_refusal<M: Sink>(notes: &mut M, refusal: &Refusal) {
    match refusal.status {
        Some(status) => {
            write(notes, " ");
            write(notes, Buffer::new().format(status));
        }
        None => write(notes, ", no answer"),
    }
    if let Some(code) = &refusal.code {
        write(notes, " ");
        write(notes, code.as_str());
    }
}

/// Writes the line that says why there is no store to the notes, and answers its status, which a fault in writing it doesn't change. It
/// takes no memory, and no value of `bucket.json` is in it.
pub fn tell_place<M: Sink>(notes: &mut M, fault: &PlaceFault) -> u8 {
    write(notes, fault.line());
    if let Some(refusal) = fault.refusal() {
        write_refusal(notes, refusal);
    }
    write(notes, "\n");
    let _ = notes.flush();
    fault.status()
}
