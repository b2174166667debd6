//! Connections over 127.0.0.1, and the clock. What a line needs is done by functions over any listener, so that none drops a line.
use crate::calls::{LARGE, read, write};
use edge_core::{
    Clock, Flushing, Gave, LAST_MOMENT, Limited, Link, Listener, Listening, LockedDoor, Opened,
    SharedDoor, Sink, Source, Taken, Took, write_all,
};
use edge_std::{Pace, StdClock, TcpDoor, TcpWay, Timeouts};
use std::alloc::Global;
use std::io::{Read, Write};
use std::net::{Shutdown, TcpStream};
use std::sync::{Arc, Mutex};
use std::test::Fail;
use std::time::Duration;
use std::{io, thread};

const HOST: &str = "127.0.0.1";

// The port at which a door is opened that was at none.
fn opened_at(door: &mut TcpDoor) -> Result<u16, Fail> {
    if door.listen(0) == Listening::Failed {
        return Err(Fail::from("the door isn't open"));
    }
    match door.port() {
        Some(port) => Ok(port),
        None => Err(Fail::from("no port")),
    }
}

// How many bytes come, and how the last read answers.
fn drain<S: Source>(source: &mut S) -> (u64, Took) {
    let mut out = [0u8; 16_384];
    let mut total = 0u64;
    for _ in 0..1_000_000u32 {
        match source.read(&mut out) {
            Took::Bytes(n) => total = total.saturating_add(n as u64),
            end => return (total, end),
        }
    }
    (total, Took::Failed)
}

// Writes, and hands on what is written.
fn send<K: Sink>(sink: &mut K, bytes: &[u8]) -> Gave {
    let gave = write(sink, bytes);
    match sink.flush() {
        Flushing::Flushed => gave,
        Flushing::Failed => Gave::Failed,
    }
}

// How a read of a line is answered whose other end says nothing, how a write, and what comes once the other end is closed.
fn hear_nothing<N: Listener, P: Link>(
    door: &mut N,
    way: &mut P,
    port: u16,
) -> Option<(Took, Gave, (u64, Took))> {
    match way.open(HOST, port) {
        Opened::Line(near, near_out) => match door.accept() {
            Taken::Line(mut far, mut far_out) => {
                let took = read(&mut far, &mut [0u8; 4]);
                let gave = send(&mut far_out, b"late");
                way.close(near, near_out);
                let rest = drain(&mut far);
                door.close(far, far_out);
                Some((took, gave, rest))
            }
            Taken::End | Taken::Failed => {
                way.close(near, near_out);
                None
            }
        },
        Opened::Failed => None,
    }
}

// A door whose connections have those times.
fn timed_door(rt: &HostRuntime, timeouts: Timeouts) -> Result<TcpDoor, Fail> {
    Ok(TcpDoor::new(rt.clone()?).with_timeouts(timeouts))
}

// Times of which none but that for a message and a response ends soon.
fn patient(pace: Option<Pace>) -> Timeouts {
    Timeouts {
        read: Duration::from_secs(50),
        write: Duration::from_secs(50),
        message: pace,
        response: pace,
        age: None,
    }
}

#[test]
fn a_silent_peer_is_a_fault(rt: HostRuntime) -> Result<(), Fail> {
    let mut timeouts = patient(None);
    timeouts.read = Duration::from_millis(20);
    let mut door = timed_door(&rt, timeouts)?;
    let mut way = TcpWay::new(rt.clone()?);
    let port = opened_at(&mut door)?;
    let came = hear_nothing(&mut door, &mut way, port);
    assert!(rt; came == Some((Took::Failed, Gave::Bytes(4), (0, Took::End))));
    Ok(())
}

#[test]
fn a_line_of_its_age_ends_between_messages(rt: HostRuntime) -> Result<(), Fail> {
    let mut timeouts = patient(None);
    timeouts.age = Some(Duration::from_millis(20));
    let mut door = timed_door(&rt, timeouts)?;
    let mut way = TcpWay::new(rt.clone()?);
    let port = opened_at(&mut door)?;
    let came = hear_nothing(&mut door, &mut way, port);
    assert!(rt; came == Some((Took::End, Gave::Bytes(4), (0, Took::End))));
    Ok(())
}

// Whether writes to a peer that takes nothing come to fail.
fn overfills<K: Sink>(alloc: Global, sink: &mut K) -> bool {
    let Ok(bytes) = vec![in alloc; b'o'; LARGE] else {
        return false;
    };
    for _ in 0..1_000u32 {
        if write(sink, &bytes) == Gave::Failed {
            return true;
        }
    }
    false
}

// How two reads of a line are answered whose other end sends a byte and no more, and whether writes to it come to fail.
fn hear_a_byte<N: Listener, P: Link>(
    alloc: Global,
    door: &mut N,
    way: &mut P,
    port: u16,
) -> Option<(Took, Took, bool)> {
    match way.open(HOST, port) {
        Opened::Line(near, mut near_out) => match door.accept() {
            Taken::Line(mut far, mut far_out) => {
                send(&mut near_out, b"a");
                let first = read(&mut far, &mut [0u8; 4]);
                let second = read(&mut far, &mut [0u8; 4]);
                let fails = overfills(alloc, &mut far_out);
                way.close(near, near_out);
                door.close(far, far_out);
                Some((first, second, fails))
            }
            Taken::End | Taken::Failed => {
                way.close(near, near_out);
                None
            }
        },
        Opened::Failed => None,
    }
}

#[test]
fn a_slow_peer_is_a_fault(rt: HostRuntime) -> Result<(), Fail> {
    let pace = Pace {
        grace: Duration::from_millis(20),
        bytes_a_second: 1_000_000_000,
    };
    let mut door = timed_door(&rt, patient(Some(pace)))?;
    let mut way = TcpWay::new(rt.clone()?);
    let port = opened_at(&mut door)?;
    let came = hear_a_byte(rt.alloc(), &mut door, &mut way, port);
    assert!(rt; came == Some((Took::Bytes(1), Took::Failed, true)));
    Ok(())
}

// How a write is answered to a line whose other end is closed with what came to it unread, whether that came, and what comes behind it.
fn hear_a_reset<N: Listener>(door: &mut N, near: TcpStream) -> Option<(Gave, bool, (u64, Took))> {
    match door.accept() {
        Taken::Line(mut far, mut far_out) => {
            let gave = send(&mut far_out, b"unread");
            // What came and isn't read makes the close a reset.
            let came = matches!(near.peek(&mut [0u8; 1]), Ok(1));
            drop(near);
            let rest = drain(&mut far);
            door.close(far, far_out);
            Some((gave, came, rest))
        }
        Taken::End | Taken::Failed => None,
    }
}

#[test]
fn a_reset_is_a_fault(rt: HostRuntime) -> Result<(), Fail> {
    let mut door = TcpDoor::new(rt.clone()?);
    let port = opened_at(&mut door)?;
    let near = TcpStream::connect(&rt, (HOST, port))?;
    let came = hear_a_reset(&mut door, near);
    assert!(rt; came == Some((Gave::Bytes(6), true, (0, Took::Failed))));
    Ok(())
}

// Reads a stream to its end: how many bytes it has, and the last of them.
fn read_all(stream: &mut TcpStream) -> io::Result<(usize, u8)> {
    let mut out = [0u8; 16_384];
    let mut total = 0usize;
    for _ in 0..=LARGE {
        let n = stream.read(&mut out)?;
        if n == 0 {
            return Ok((total, out[0]));
        }
        total = total.saturating_add(n);
    }
    Ok((0, 0))
}

// Sends bytes, whose end the peer sees where it is to, and reads the answer up to its end: how many bytes it has, and the last of them.
fn send_and_drain(
    rt: &HostRuntime,
    port: u16,
    bytes: &[u8],
    ends: bool,
) -> io::Result<(usize, u8)> {
    let mut stream = TcpStream::connect(rt, (HOST, port))?;
    stream.write_all(bytes)?;
    if ends {
        stream.shutdown(Shutdown::Write)?;
    }
    read_all(&mut stream)
}

fn is_answered(rt: &HostRuntime, port: u16, bytes: &[u8], ends: bool, wanted: (usize, u8)) -> bool {
    matches!(send_and_drain(rt, port, bytes, ends), Ok(answer) if answer == wanted)
}

// Reads ten bytes of a body, and refuses it. The refusal goes out as the line is closed.
fn refuse<N: Listener>(door: &mut N) -> bool {
    match door.accept() {
        Taken::Line(mut input, mut output) => {
            input.read(&mut [0u8; 10]);
            let whole = write_all(&mut output, &[b'r'; 700]).is_ok();
            door.close(input, output);
            whole
        }
        Taken::End | Taken::Failed => false,
    }
}

#[test]
fn a_refusal_arrives_whole(rt: HostRuntime) -> Result<(), Fail> {
    let mut door = TcpDoor::new(rt.clone()?);
    let port = opened_at(&mut door)?;
    let ends = thread::join(
        &rt,
        || refuse(&mut door),
        || is_answered(&rt, port, &[b'b'; 40_000], false, (700, b'r')),
    );
    assert!(rt; ends == (true, true));
    Ok(())
}

// How a door at that host answers at a port, none where it can't be made.
fn listening(rt: &HostRuntime, host: &str, port: u16) -> Option<Listening> {
    match rt.clone() {
        Ok(rt) => Some(TcpDoor::new(rt).with_host(host).listen(port)),
        Err(_) => None,
    }
}

fn listen(door: &mut TcpDoor, port: u16) -> Listening {
    door.listen(port)
}

// Whether a connection to that host is opened, none where it can't be asked. It is let go.
fn is_opened(rt: &HostRuntime, host: &str, port: u16) -> Option<bool> {
    match rt.clone() {
        Ok(rt) => Some(matches!(TcpWay::new(rt).open(host, port), Opened::Line(_, _))),
        Err(_) => None,
    }
}

// Whether doors are opened at hosts that are addresses, and at no others.
fn listens_at_addresses(rt: &HostRuntime) -> bool {
    for (host, wanted) in [
        ("", Listening::Failed),
        ("localhost", Listening::Failed),
        ("127.0.0.1:80", Listening::Failed),
        ("127.0.0.2", Listening::Open),
    ] {
        if listening(rt, host, 0) != Some(wanted) {
            return false;
        }
    }
    true
}

#[test]
fn what_cannot_be_opened_fails(rt: HostRuntime) -> Result<(), Fail> {
    assert!(rt; listens_at_addresses(&rt));
    let mut first = TcpDoor::new(rt.clone()?);
    let mut second = TcpDoor::new(rt.clone()?);
    let port = opened_at(&mut first)?;
    assert!(rt; listen(&mut second, port) == Listening::Failed);
    assert!(rt; matches!(second.accept(), Taken::Failed));
    drop(first);
    assert!(rt; is_opened(&rt, HOST, port) == Some(false));
    // A port that was in use a moment ago can be opened.
    assert!(rt; listen(&mut second, port) == Listening::Open);
    assert!(rt; is_opened(&rt, "[127.0.0.1]", port) == Some(true));
    Ok(())
}

// Answers with 1 MiB, each byte of it the number of MiB that came.
fn answer<K: Sink>(alloc: Global, output: &mut K, total: u64) -> bool {
    let number = u8::try_from(total / LARGE as u64).unwrap_or(u8::MAX);
    match vec![in alloc; number; LARGE] {
        Ok(bytes) => write_all(output, &bytes).is_ok(),
        Err(_) => false,
    }
}

// Serves lines to their end: reads each to its end, and answers.
fn serve<N: Listener>(alloc: Global, door: &mut N) -> u32 {
    let mut served = 0u32;
    for _ in 0..100u32 {
        match door.accept() {
            Taken::Line(mut input, mut output) => {
                let (total, _) = drain(&mut input);
                if answer(alloc, &mut output, total) {
                    served = served.saturating_add(1);
                }
                door.close(input, output);
            }
            Taken::End | Taken::Failed => return served,
        }
    }
    served
}

// Sends 1 MiB over each of three connections; whether each answer is whole.
fn send_thrice(alloc: Global, rt: &HostRuntime, port: u16) -> bool {
    let Ok(bytes) = vec![in alloc; b'y'; LARGE] else {
        return false;
    };
    let mut answered = true;
    for _ in 0..3u32 {
        answered &= is_answered(rt, port, &bytes, true, (LARGE, 1));
    }
    answered
}

#[test]
fn workers_serve_one_door(rt: HostRuntime) -> Result<(), Fail> {
    let alloc = rt.alloc();
    let mut door = TcpDoor::new(rt.clone()?);
    let port = opened_at(&mut door)?;
    let shared = Arc::new(alloc, Mutex::new(SharedDoor::new(Limited::new(door, 3))))?;
    let mut first = LockedDoor::new(rt.clone()?, Arc::try_clone(&shared)?);
    let mut second = LockedDoor::new(rt.clone()?, shared);
    let (answered, served) = thread::join(
        &rt,
        || send_thrice(alloc, &rt, port),
        || {
            thread::join(
                &rt,
                || serve(alloc, &mut first),
                || serve(alloc, &mut second),
            )
        },
    );
    assert!(rt; answered);
    assert!(rt; served.0.saturating_add(served.1) == 3);
    Ok(())
}

#[test]
fn the_clock_tells_the_time(rt: HostRuntime) -> Result<(), Fail> {
    let mut clock = StdClock::new(rt.clone()?);
    let first = clock.now();
    let second = clock.now();
    assert!(rt; first > 1_700_000_000_000 && first <= second && second <= LAST_MOMENT);
    Ok(())
}
