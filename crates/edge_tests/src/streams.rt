// Streams over fakes that give and take pieces, and fail.
ghost use Rattle.std.specs.Prelude.{◌≤◌, length};

use crate::calls::{LARGE, read, write};
use edge_core::{Gave, Took};
use edge_std::{StdSink, StdSource};
use std::io;
use std::io::{ErrorKind, Read, Write};
use std::test::Fail;

// Gives "ab", fails, gives "c", and is at its end.
#[derive(Drop)]
struct Given {
    calls: u32,
}

fn put(out: &mut [u8], bytes: &[u8]) -> usize
    ensures { result ≤ length out.new }
{
    let mut n = 0usize;
    for (place, byte) in out.iter_mut().zip(bytes) {
        *place = *byte;
        n = n.saturating_add(1);
    }
    n.min(out.len())
}

impl Read for Given {
    fn read(&mut self, out: &mut [u8]) -> io::Result<usize> {
        self.calls = self.calls.saturating_add(1);
        match self.calls {
            1 => Ok(put(out, b"ab")),
            2 => Err(io::Error::from(ErrorKind::ConnectionReset)),
            3 => Ok(put(out, b"c")),
            _ => Ok(0),
        }
    }
}

#[test]
fn a_source_gives_each_piece_once(rt: HostRuntime) {
    let mut source = StdSource::new(Given { calls: 0 });
    let mut out = [0u8; 4];
    for (wanted, room) in [
        (Took::Bytes(2), b"ab\0\0"),
        (Took::Failed, b"ab\0\0"),
        (Took::Bytes(1), b"cb\0\0"),
        (Took::End, b"cb\0\0"),
    ] {
        assert!(rt; read(&mut source, &mut out) == wanted);
        assert!(rt; out == *room);
    }
}

// Takes two bytes, fails, takes none, then takes three at a time, and keeps what it took.
#[derive(Drop)]
struct Taken {
    kept: Vec<u8>,
    calls: u32,
}

impl Write for Taken {
    fn write(&mut self, bytes: &[u8]) -> io::Result<usize> {
        self.calls = self.calls.saturating_add(1);
        let n = match self.calls {
            1 => bytes.len().min(2),
            2 => return Err(io::Error::from(ErrorKind::BrokenPipe)),
            3 => 0,
            _ => bytes.len().min(3),
        };
        self.kept.extend_from_slice(&bytes[..n])?;
        Ok(n)
    }

    fn flush(&mut self) -> io::Result<()> {
        Ok(())
    }
}

#[test]
fn a_sink_tells_how_much_went_out(rt: HostRuntime) -> Result<(), Fail> {
    let mut taken = Taken {
        kept: Vec::new(rt.alloc()),
        calls: 0,
    };
    let mut sink = StdSink::new(&mut taken);
    for (bytes, wanted) in [
        (b"abcdefg".as_slice(), Gave::Bytes(2)),
        (b"cdefg".as_slice(), Gave::Failed),
        (b"cdefg".as_slice(), Gave::Failed),
        (b"cdefg".as_slice(), Gave::Bytes(3)),
        (b"fg".as_slice(), Gave::Bytes(2)),
    ] {
        assert!(rt; write(&mut sink, bytes) == wanted);
    }
    drop(sink);
    assert!(rt; taken.kept.as_slice() == b"abcdefg".as_slice());
    Ok(())
}

#[test]
fn large_pieces_pass(rt: HostRuntime) -> Result<(), Fail> {
    let bytes = vec![in rt.alloc(); b'x'; LARGE]?;
    let mut out = vec![in rt.alloc(); 0u8; LARGE]?;
    let mut written = Vec::new(rt.alloc());
    assert!(rt; read(&mut StdSource::new(bytes.as_slice()), &mut out) == Took::Bytes(LARGE));
    assert!(rt; write(&mut StdSink::new(&mut written), &bytes) == Gave::Bytes(LARGE));
    assert!(rt; out == bytes && written == bytes);
    Ok(())
}
