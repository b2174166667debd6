// Writing all of some bytes.
ghost use Rattle.std.specs.Prelude.{◌≤◌};
ghost use Rattle.edge_core.specs.Flow.{Wrote};

use crate::sink::{Gave, Sink};

/// Writes all of the bytes, in as many writes as the sink makes of them. The error is how many of them went out before a write
/// failed, and comes only where the sink's count of faults rose in this call. It takes no memory.
pub fn write_all<K: Sink>(sink: &mut K, bytes: &[u8]) -> Result<(), u64>
    ensures later { K.faults sink.old ≤ K.faults sink.new }
    ensures wrote { Wrote (K.holds sink.old) (K.holds sink.new) (K.faults sink.old) (K.faults sink.new) bytes.now result }
{
    let mut at = 0usize;
    while at < bytes.len() {
        match sink.write(&bytes[at..]) {
            Gave::Bytes(count) => at += count,
            Gave::Failed => return Err(at as u64),
        }
    }
    Ok(())
}
