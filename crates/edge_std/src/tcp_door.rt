// A port at which others open connections.
ghost use Rattle.std.specs.Prelude.{◌≡◌, None, IfOk, IfSome};
ghost use Rattle.edge_core.specs.Handles.{fault_count};

use crate::tcp::line_of;
use crate::{TcpSink, TcpSource, Timeouts};
use edge_core::{FaultCount, Listener, Listening, Taken};
use std::io::ErrorKind;
use std::net::{IpAddr, Ipv4Addr, TcpListener};
use std::time::Duration;
use std::{io, thread};

// Numbers of the system for what keeps a connection from being accepted and passes, by accept(2): a signal; want of memory, of
// descriptors of the system or of the process, or of buffers; a connection that broke, or was forbidden, before it was taken; and
// what the network had against that one.
const PASSING: [i32; 14] = [4, 12, 23, 24, 105, 103, 1, 71, 92, 112, 64, 113, 100, 101];

// For how many milliseconds a door waits at first, and at most, before it tries again.
const FIRST_PAUSE: u64 = 1;

const LONGEST_PAUSE: u64 = 1_000;

// Whether what an error says passes.
fn passes(error: &io::Error) -> bool {
    match error.raw_os_error() {
        Some(number) => PASSING.contains(&number),
        None => error.kind() == ErrorKind::OutOfMemory,
    }
}

/// A listener at a port of TCP. It tells nothing of the connections, and counts what fails. It listens at 127.0.0.1, where only
/// programs of this machine reach it, unless it is given another address. A port that is in use is a fault; one that was in
/// use a moment ago isn't, whatever of its old connections is left. A connection that breaks before it is given out is
/// counted, and the next is taken. Where none can be accepted for a moment, for want of descriptors or memory, that is counted,
/// and tried again behind a pause, which grows from a millisecond to a second: it waits until it can. So `Failed` comes where it
/// isn't open, and of its end.
#[derive(Drop)]
pub struct TcpDoor {
    rt: HostRuntime,
    host: Option<IpAddr>,
    timeouts: Timeouts,
    listener: Option<TcpListener>,
    asked: Option<u16>,
    out: bool,
    faults: FaultCount,
}

impl TcpDoor {
    /// A listener at 127.0.0.1 that isn't open, with a count of 0 and the timeouts of connections that others open.
    pub fn new(rt: HostRuntime) -> TcpDoor {
        TcpDoor {
            rt,
            host: Some(IpAddr::V4(Ipv4Addr::LOCALHOST)),
            timeouts: Timeouts::accepted(),
            listener: None,
            asked: None,
            out: false,
            faults: FaultCount::new(),
        }
    }

    /// The same at another host, an IP address as text. With any other text `listen` fails.
    pub fn with_host(mut self, host: &str) -> TcpDoor {
        self.host = host.parse::<IpAddr>().ok();
        self
    }

    /// The same with other timeouts.
    pub fn with_timeouts(mut self, timeouts: Timeouts) -> TcpDoor {
        self.timeouts = timeouts;
        self
    }

    /// The port at which it is open, none where it isn't.
    pub fn port(&self) -> Option<u16> {
        match &self.listener {
            Some(listener) => match listener.local_addr() {
                Ok(address) => Some(address.port()),
                Err(_) => None,
            },
            None => None,
        }
    }

    fn bind(&self, port: u16) -> io::Result<TcpListener> {
        match self.host {
            Some(host) => TcpListener::bind(&self.rt, (host, port)),
            None => Err(io::Error::from(ErrorKind::InvalidInput)),
        }
    }

    // The next connection as a line, none where it broke before it was one.
    fn take(&self) -> io::Result<Option<(TcpSource, TcpSink)>>
        ensures { IfOk result (λ o. IfSome o (λ line. (fault_count line.0.faults ≡ 0) × (fault_count line.1.faults ≡ 0))) }
    {
        let Some(listener) = &self.listener else {
            return Err(io::Error::from(ErrorKind::NotConnected));
        };
        let (stream, _) = listener.accept()?;
        match line_of(&self.rt, stream, self.timeouts) {
            Ok(line) => Ok(Some(line)),
            Err(e) if e.kind() == ErrorKind::OutOfMemory => Err(e),
            Err(_) => Ok(None),
        }
    }
}

impl Listener for TcpDoor {
    type In = TcpSource;

    type Out = TcpSink;

    ghost coming = { λ _. None };

    ghost closed = { λ _. None };

    ghost out = { λ d. d.out };

    ghost listens = { λ d. d.asked };

    ghost faults = { λ d. fault_count d.faults };

    fn listen(&mut self, port: u16) -> Listening {
        match self.bind(port) {
            Ok(listener) => {
                self.listener = Some(listener);
                self.asked = Some(port);
                Listening::Open
            }
            Err(_) => {
                self.faults.note(true);
                Listening::Failed
            }
        }
    }

    fn accept(&mut self) -> Taken<TcpSource, TcpSink> {
        let mut pause = FIRST_PAUSE;
        for _ in 0..u64::MAX {
            match self.take() {
                Ok(Some((input, output))) => {
                    self.out = true;
                    return Taken::Line(input, output);
                }
                Ok(None) => {}
                Err(e) if passes(&e) => {
                    thread::sleep(&self.rt, Duration::from_millis(pause));
                    pause = pause.saturating_mul(2).min(LONGEST_PAUSE);
                }
                Err(_) => break,
            }
            self.faults.note(true);
        }
        self.faults.note(true);
        Taken::Failed
    }

    fn close(&mut self, _input: TcpSource, _output: TcpSink) {}
}
