// Connections of TCP, as a source and a sink.
ghost use Rattle.std.specs.Prelude.{◌≡◌, ◌≤◌, [], None, IfOk, length, nat_lt};
ghost use Rattle.std.specs.Io.{ReadsAtMost, WritesAtMost};
ghost use Rattle.edge_core.specs.Handles.{fault_count, kept_bytes};

use crate::Timeouts;
use crate::timeouts::Progress;
use edge_core::{FaultCount, Flushing, Gathering, Gave, Sink, Source, Took};
use std::io;
use std::io::{ErrorKind, Read, Write};
use std::net::{Shutdown, TcpStream};
use std::sync::Arc;
use std::sync::atomic::{AtomicBool, Ordering};
use std::time::{Duration, Instant};

// How long a connection that is closed is read to its end, and for how many bytes.
const LINGER_SECONDS: u64 = 1;

const LINGER_BYTES: usize = 65_536;

// How much of what is written goes out in one turn, whose time is measured.
const PIECE: usize = 65_536;

// A connection, which its source and its sink share.
#[derive(Drop)]
struct Line {
    stream: TcpStream,
    // Whether a response has gone out since the last read.
    answered: AtomicBool,
}

// Whether an error says that nothing came in time.
fn is_late(kind: ErrorKind) -> bool {
    matches!(kind, ErrorKind::WouldBlock | ErrorKind::TimedOut)
}

// A read that a signal stops is made again.
fn read_on(stream: &TcpStream, out: &mut [u8]) -> io::Result<usize>
    ensures { ReadsAtMost result out.new }
{
    let mut stream = stream;
    for _ in 0..u64::MAX {
        match stream.read(out) {
            Err(e) if e.kind() == ErrorKind::Interrupted => {}
            answer => return answer,
        }
    }
    Err(io::Error::from(ErrorKind::Interrupted))
}

// A write that a signal stops is made again.
fn write_on(stream: &TcpStream, bytes: &[u8]) -> io::Result<usize>
    ensures { WritesAtMost result bytes.now }
{
    let mut stream = stream;
    for _ in 0..u64::MAX {
        match stream.write(bytes) {
            Err(e) if e.kind() == ErrorKind::Interrupted => {}
            answer => return answer,
        }
    }
    Err(io::Error::from(ErrorKind::Interrupted))
}

/// What comes from a peer. It tells nothing of the bytes, and counts the reads that failed, also for want of a byte in time, or of
/// the rest of a message in the time that it has (`Timeouts`). Where the connection has its age, and nothing came since the last
/// response, a read answers `End`.
#[derive(Drop)]
pub struct TcpSource {
    rt: HostRuntime,
    line: Arc<Line>,
    timeouts: Timeouts,
    begun: Instant,
    // The message that comes, none between messages.
    message: Option<Progress>,
    // How long a read waits as the system has it.
    set: Option<Duration>,
    faults: FaultCount,
}

impl TcpSource {
    // Whether a read has failed.
    pub(crate) fn has_failed(&self) -> bool
        ensures { result ≡ nat_lt 0 (fault_count self.now.faults) }
    {
        self.faults.count() > 0
    }

    // How much younger than its last the connection is, none where it has no age.
    fn youth(&self) -> io::Result<Option<Duration>> {
        match self.timeouts.age {
            Some(age) => Ok(Some(age.saturating_sub(self.begun.elapsed(&self.rt)?))),
            None => Ok(None),
        }
    }

    // A read that waits no longer than that.
    fn read_within(&mut self, time: Duration, out: &mut [u8]) -> io::Result<usize>
        ensures bound { ReadsAtMost result out.new }
        ensures faults { self.new.faults ≡ self.old.faults }
    {
        if time.is_zero() {
            return Err(io::Error::from(ErrorKind::TimedOut));
        }
        if self.set != Some(time) {
            self.line.stream.set_read_timeout(Some(time))?;
            self.set = Some(time);
        }
        read_on(&self.line.stream, out)
    }

    // Reads the first bytes of a message; none also where the connection has its age before one comes.
    fn begin(&mut self, out: &mut [u8]) -> io::Result<usize>
        ensures bound { ReadsAtMost result out.new }
        ensures faults { self.new.faults ≡ self.old.faults }
    {
        let Some(youth) = self.youth()? else {
            return self.read_within(self.timeouts.read, out);
        };
        if youth <= self.timeouts.read {
            return match self.read_within(youth, out) {
                Err(e) if is_late(e.kind()) => Ok(0),
                answer => answer,
            };
        }
        self.read_within(self.timeouts.read, out)
    }

    // Reads on in a message.
    fn go_on(&mut self, mut message: Progress, out: &mut [u8]) -> io::Result<usize>
        ensures bound { ReadsAtMost result out.new }
        ensures faults { self.new.faults ≡ self.old.faults }
    {
        let start = Instant::now(&self.rt)?;
        let time = message.left(self.timeouts.message, 0, self.timeouts.read);
        let read = self.read_within(time, out)?;
        message.note(read, start.elapsed(&self.rt).unwrap_or(Duration::ZERO));
        self.message = Some(message);
        Ok(read)
    }

    // Reads what comes next, at the end nothing.
    fn take(&mut self, out: &mut [u8]) -> io::Result<usize>
        ensures bound { ReadsAtMost result out.new }
        ensures faults { self.new.faults ≡ self.old.faults }
    {
        if self.line.answered.swap(false, Ordering::SeqCst) {
            self.message = None;
        }
        if let Some(message) = self.message {
            return self.go_on(message, out);
        }
        let read = self.begin(out)?;
        if read > 0 {
            let mut message = Progress::new();
            message.note(read, Duration::ZERO);
            self.message = Some(message);
        }
        Ok(read)
    }
}

impl Source for TcpSource {
    ghost left = { λ _. None };

    ghost faults = { λ s. fault_count s.faults };

    fn read(&mut self, out: &mut [u8]) -> Took {
        match self.take(out) {
            Ok(0) => Took::End,
            Ok(n) => Took::Bytes(n),
            Err(_) => {
                self.faults.note(true);
                Took::Failed
            }
        }
    }
}

// What goes to a peer at once.
#[derive(Drop)]
struct TcpOut {
    rt: HostRuntime,
    line: Arc<Line>,
    timeouts: Timeouts,
    // The response that goes out.
    response: Progress,
    // Whether the peer took a part of what it was to take in time.
    late: bool,
    faults: FaultCount,
}

impl TcpOut {
    // Writes the first bytes in a turn that begins at a moment and may take some time.
    fn write_within(&self, start: Instant, time: Duration, bytes: &[u8]) -> io::Result<usize>
        ensures { WritesAtMost result bytes.now }
    {
        let left = time.saturating_sub(start.elapsed(&self.rt)?);
        if left.is_zero() {
            return Err(io::Error::from(ErrorKind::TimedOut));
        }
        self.line.stream.set_write_timeout(Some(left))?;
        write_on(&self.line.stream, bytes)
    }

    // Writes a piece in a turn, and tells how many bytes of it are taken in time. Where those aren't all, every further write fails.
    fn write_piece(&mut self, start: Instant, time: Duration, piece: &[u8]) -> usize
        ensures bound { result ≤ length piece.now }
        ensures faults { self.new.faults ≡ self.old.faults }
    {
        let mut left = piece;
        for _ in 0..piece.len() {
            match self.write_within(start, time, left) {
                Ok(n) if n > 0 => left = &left[n..],
                _ => break,
            }
            if left.is_empty() {
                break;
            }
        }
        self.late = !left.is_empty();
        piece.len().saturating_sub(left.len())
    }

    // Writes the first bytes within the time that the peer has for them.
    fn give(&mut self, bytes: &[u8]) -> io::Result<usize>
        ensures bound { WritesAtMost result bytes.now }
        ensures faults { self.new.faults ≡ self.old.faults }
    {
        if self.late {
            return Err(io::Error::from(ErrorKind::TimedOut));
        }
        let piece = &bytes[..bytes.len().min(PIECE)];
        let start = Instant::now(&self.rt)?;
        let time = self
            .response
            .left(self.timeouts.response, piece.len(), self.timeouts.write);
        let written = self.write_piece(start, time, piece);
        self.response
            .note(written, start.elapsed(&self.rt).unwrap_or(Duration::ZERO));
        Ok(written)
    }
}

impl Sink for TcpOut {
    ghost holds = { λ _. None };

    ghost kept = { λ _. [] };

    ghost faults = { λ s. fault_count s.faults };

    fn write(&mut self, bytes: &[u8]) -> Gave {
        match self.give(bytes) {
            Ok(n) if n > 0 => Gave::Bytes(n),
            _ => {
                self.faults.note(true);
                Gave::Failed
            }
        }
    }

    // All that was written is a response, which has gone out.
    fn flush(&mut self) -> Flushing {
        self.response = Progress::new();
        self.line.answered.store(true, Ordering::SeqCst);
        Flushing::Flushed
    }
}

/// What goes to a peer. It tells nothing of the bytes, and counts the writes that failed, also for want of room for 64 KiB in time, or
/// for a response in the time that it has (`Timeouts`): every write behind one of these fails. It gathers up to 65,536 bytes: what
/// is written goes out at a `flush`, or as more comes. When it is let go, what it keeps goes out where no write has failed, and the
/// connection lingers: the writing side is shut, and what the peer still sends is read for at most one second and 64 KiB, so that
/// what was just written isn't cut off by a reset.
pub struct TcpSink {
    rt: HostRuntime,
    out: Gathering<TcpOut>,
    faults: FaultCount,
}

impl TcpSink {
    // Whether a write has failed.
    pub(crate) fn has_failed(&self) -> bool
        ensures { result ≡ nat_lt 0 (fault_count self.now.faults) }
    {
        self.faults.count() > 0
    }
}

impl Drop for TcpSink {
    fn drop(self) {
        let TcpSink {
            rt,
            mut out,
            faults,
        } = self;
        // A fault of a connection that is done with has nobody to tell.
        if faults.count() == 0 {
            out.flush();
        }
        let inner = out.into_inner();
        let _ = linger(&rt, &inner.line.stream);
    }
}

impl Sink for TcpSink {
    ghost holds = { λ _. None };

    ghost kept = { λ s. kept_bytes s.out };

    ghost faults = { λ s. fault_count s.faults };

    fn write(&mut self, bytes: &[u8]) -> Gave {
        let gave = self.out.write(bytes);
        self.faults.note(matches!(gave, Gave::Failed));
        gave
    }

    fn flush(&mut self) -> Flushing {
        let flushing = self.out.flush();
        self.faults.note(matches!(flushing, Flushing::Failed));
        flushing
    }
}

// How much longer a connection lingers that began to at a moment, if at all.
fn linger_left(rt: &HostRuntime, start: Instant) -> io::Result<Option<Duration>> {
    let left = Duration::from_secs(LINGER_SECONDS).saturating_sub(start.elapsed(rt)?);
    Ok(if left.is_zero() { None } else { Some(left) })
}

// Shuts the writing side, and reads what is left.
fn linger(rt: &HostRuntime, stream: &TcpStream) -> io::Result<()> {
    let start = Instant::now(rt)?;
    stream.shutdown(Shutdown::Write)?;
    let mut out = [0u8; 4096];
    let mut left = LINGER_BYTES;
    for _ in 0..LINGER_BYTES {
        let Some(time) = linger_left(rt, start)? else {
            return Ok(());
        };
        stream.set_read_timeout(Some(time))?;
        let read = read_on(stream, &mut out)?;
        if read == 0 || read >= left {
            return Ok(());
        }
        left -= read;
    }
    Ok(())
}

// What comes from a connection.
fn source_of(rt: &HostRuntime, line: &Arc<Line>, timeouts: Timeouts) -> io::Result<TcpSource>
    ensures { IfOk result (λ source. fault_count source.faults ≡ 0) }
{
    Ok(TcpSource {
        rt: rt.clone()?,
        line: Arc::try_clone(line)?,
        timeouts,
        begun: Instant::now(rt)?,
        message: None,
        set: None,
        faults: FaultCount::new(),
    })
}

// What goes to a connection.
fn sink_of(rt: &HostRuntime, line: Arc<Line>, timeouts: Timeouts) -> io::Result<TcpSink>
    ensures { IfOk result (λ sink. fault_count sink.faults ≡ 0) }
{
    let inner = TcpOut {
        rt: rt.clone()?,
        line,
        timeouts,
        response: Progress::new(),
        late: false,
        faults: FaultCount::new(),
    };
    let Ok(out) = Gathering::new(rt.alloc(), inner) else {
        return Err(io::Error::from(ErrorKind::OutOfMemory));
    };
    Ok(TcpSink {
        rt: rt.clone()?,
        out,
        faults: FaultCount::new(),
    })
}

/// Makes a source and a sink of a connection, whose age counts from now. What is flushed goes out at once.
pub(crate) fn line_of(
    rt: &HostRuntime,
    stream: TcpStream,
    timeouts: Timeouts,
) -> io::Result<(TcpSource, TcpSink)>
    ensures { IfOk result (λ line. (fault_count line.0.faults ≡ 0) × (fault_count line.1.faults ≡ 0)) }
{
    stream.set_nodelay(true)?;
    let line = Arc::new(
        rt.alloc(),
        Line {
            stream,
            answered: AtomicBool::new(false),
        },
    )?;
    let source = source_of(rt, &line, timeouts)?;
    Ok((source, sink_of(rt, line, timeouts)?))
}
