// Random bytes of the system.
use std::io;
use std::random::RandomSource;

/// A text that nobody else has: 16 random bytes of the system as 32 hexadecimal digits. The error is that the system gives none, or want of
/// memory.
pub fn random_mark(rt: &HostRuntime) -> io::Result<String> {
    let mut bytes = [0u8; 16];
    rt.fill_bytes(&mut bytes)?;
    Ok(format!(in rt.alloc(); "{:032x}", u128::from_be_bytes(bytes))?)
}
