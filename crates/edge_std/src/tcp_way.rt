// Connections to other programs.
ghost use Rattle.std.specs.Prelude.{◌≡◌, None, IfOk};
ghost use Rattle.edge_core.specs.Handles.{fault_count};

use crate::tcp::line_of;
use crate::{TcpSink, TcpSource, Timeouts};
use edge_core::{FaultCount, Link, Opened};
use std::io;
use std::net::TcpStream;

/// A link that opens connections of TCP. It tells nothing of them, and counts what fails. A host is a name or an IP address,
/// one of IPv6 with or without brackets; of a name each address is tried in turn.
#[derive(Drop)]
pub struct TcpWay {
    rt: HostRuntime,
    timeouts: Timeouts,
    out: bool,
    faults: FaultCount,
    read_faults: FaultCount,
    write_faults: FaultCount,
}

// An address without the brackets that one of IPv6 has in a URL.
fn without_brackets(host: &str) -> &str {
    match host.strip_prefix('[') {
        Some(rest) => rest.strip_suffix(']').unwrap_or(host),
        None => host,
    }
}

impl TcpWay {
    /// A link with counts of 0 and the timeouts of connections to others.
    pub fn new(rt: HostRuntime) -> TcpWay {
        TcpWay {
            rt,
            timeouts: Timeouts::opened(),
            out: false,
            faults: FaultCount::new(),
            read_faults: FaultCount::new(),
            write_faults: FaultCount::new(),
        }
    }

    /// The same with other timeouts.
    pub fn with_timeouts(mut self, timeouts: Timeouts) -> TcpWay {
        self.timeouts = timeouts;
        self
    }

    fn connect(&self, host: &str, port: u16) -> io::Result<(TcpSource, TcpSink)>
        ensures { IfOk result (λ line. (fault_count line.0.faults ≡ 0) × (fault_count line.1.faults ≡ 0)) }
    {
        let stream = TcpStream::connect(&self.rt, (without_brackets(host), port))?;
        line_of(&self.rt, stream, self.timeouts)
    }
}

impl Link for TcpWay {
    type In = TcpSource;

    type Out = TcpSink;

    ghost coming = { λ _. None };

    ghost closed = { λ _. None };

    ghost out = { λ w. w.out };

    ghost faults = { λ w. fault_count w.faults };

    ghost read_faults = { λ w. fault_count w.read_faults };

    ghost write_faults = { λ w. fault_count w.write_faults };

    fn open(&mut self, host: &str, port: u16) -> Opened<TcpSource, TcpSink> {
        match self.connect(host, port) {
            Ok((input, output)) => {
                self.out = true;
                Opened::Line(input, output)
            }
            Err(_) => {
                self.faults.note(true);
                Opened::Failed
            }
        }
    }

    fn close(&mut self, input: TcpSource, output: TcpSink) {
        self.read_faults.note(input.has_failed());
        self.write_faults.note(output.has_failed());
    }
}
