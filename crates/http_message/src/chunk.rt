// The lines in front of chunks.
ghost use Rattle.http_message.specs.Lines.{TellsLine};

use httparse::{InvalidChunkSize, Status, parse_chunk_size};

/// The length of the line in front of a chunk, with its CR LF, and the size that it announces (RFC 9112, section 7.1);
/// none where the line hasn't ended. A line has at most 256 bytes.
///
/// The error comes where no line of at most 256 bytes is in front, whatever bytes follow.
pub fn chunk_line(bytes: &[u8]) -> Result<Option<(usize, u64)>, InvalidChunkSize>
    ensures { TellsLine bytes.now result }
{
    match parse_chunk_size(bytes) {
        Ok(Status::Complete((len, size))) => {
            if len > 256 {
                return Err(InvalidChunkSize);
            }
            Ok(Some((len, size)))
        }
        Ok(Status::Partial) => {
            if bytes.len() >= 256 {
                return Err(InvalidChunkSize);
            }
            Ok(None)
        }
        Err(error) => Err(error),
    }
}
