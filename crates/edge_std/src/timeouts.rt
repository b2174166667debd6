// How long a connection waits for its peer.
use std::time::Duration;

// Of connections that others open: for how many seconds one waits for the first byte of a message, and for each next one,
const ACCEPTED_READ: u64 = 5;

// and for room for 64 KiB, which is how long a peer may take nothing;
const ACCEPTED_WRITE: u64 = 60;

// what it waits in sum for the rest of a message that has begun: seconds, and how many bytes give one more;
const MESSAGE: (u64, u64) = (20, 16_384);

// the same for room for a response;
const RESPONSE: (u64, u64) = (20, 65_536);

// and how many seconds old it is when it ends between messages.
const AGE: u64 = 30;

// Of connections to others: for how many seconds one waits for the next byte, and for room.
const OPENED: u64 = 60;

/// How fast a peer has to be: so many bytes may take the grace, and a second more for each so many of them.
#[derive(Clone, Copy, Debug, PartialEq, Eq)]
pub struct Pace {
    /// How long it may take beside.
    pub grace: Duration,
    /// How many bytes go with a second. 0 counts as 1.
    pub bytes_a_second: u64,
}

/// How long a connection waits for its peer, each time above 0.
#[derive(Clone, Copy, Debug, PartialEq, Eq)]
pub struct Timeouts {
    /// How long a read waits for the first byte before it fails.
    pub read: Duration,
    /// How long a write waits for room before it fails.
    pub write: Duration,
    /// How long reads wait in sum for what follows the first bytes of a message, before one fails; none where that has no
    /// end. A message is what comes between two flushes.
    pub message: Option<Pace>,
    /// How long writes wait in sum for room for a response, before one fails; none where that has no end. A response is
    /// what goes out up to a flush.
    pub response: Option<Pace>,
    /// How old a connection is from when on it ends between messages, none where it doesn't: a read answers `End` there.
    pub age: Option<Duration>,
}

impl Timeouts {
    /// Those of connections that others open, so that a peer which says nothing, is slow or stays frees its worker: 5 seconds for
    /// a byte, 60 for room; 20 seconds for a message, and one more for each 16 KiB; 20 for a response, and one more for each 64
    /// KiB; and between messages it ends when it is 30 seconds old.
    pub fn accepted() -> Timeouts {
        Timeouts {
            read: Duration::from_secs(ACCEPTED_READ),
            write: Duration::from_secs(ACCEPTED_WRITE),
            message: Some(Pace::of(MESSAGE)),
            response: Some(Pace::of(RESPONSE)),
            age: Some(Duration::from_secs(AGE)),
        }
    }

    /// Those of connections to others: 60 seconds for a byte and for room, and no more.
    pub fn opened() -> Timeouts {
        Timeouts {
            read: Duration::from_secs(OPENED),
            write: Duration::from_secs(OPENED),
            message: None,
            response: None,
            age: None,
        }
    }
}

impl Pace {
    fn of((seconds, bytes_a_second): (u64, u64)) -> Pace {
        Pace {
            grace: Duration::from_secs(seconds),
            bytes_a_second,
        }
    }

    // How long so many bytes may take.
    fn time_for(&self, bytes: u64) -> Duration {
        let seconds_by = self.bytes_a_second.max(1);
        let beside = bytes.saturating_mul(1_000).checked_div(seconds_by);
        self.grace
            .saturating_add(Duration::from_millis(beside.unwrap_or(u64::MAX)))
    }
}

// How far a message or a response is.
#[derive(Clone, Copy)]
pub(crate) struct Progress {
    bytes: u64,
    waited: Duration,
}

impl Progress {
    // Nothing yet.
    pub(crate) fn new() -> Progress {
        Progress {
            bytes: 0,
            waited: Duration::ZERO,
        }
    }

    // Counts bytes and what they took.
    pub(crate) fn note(&mut self, bytes: usize, waited: Duration) {
        self.bytes = self.bytes.saturating_add(bytes as u64);
        self.waited = self.waited.saturating_add(waited);
    }

    // How long a wait may be at which so many bytes more would come, up to a limit.
    pub(crate) fn left(&self, pace: Option<Pace>, more: usize, limit: Duration) -> Duration {
        match pace {
            Some(pace) => {
                let all = self.bytes.saturating_add(more as u64);
                pace.time_for(all).saturating_sub(self.waited).min(limit)
            }
            None => limit,
        }
    }
}
