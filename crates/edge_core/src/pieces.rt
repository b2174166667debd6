// How much one call moves, and what it copies.
ghost use Rattle.std.specs.Prelude.{◌≡◌, ◌<◌, ◌≤◌, take, length};
ghost use Rattle.edge_core.specs.Calls.{piece_size};

// How many bytes the call of that number moves: the size given for it, at least 1 and at most what there is.
pub(crate) fn piece(sizes: &[usize], call: u64, most: usize) -> usize
    requires { 0 < most }
    ensures size { result ≡ piece_size sizes.now call most }
    ensures some { 0 < result }
    ensures most { result ≤ most }
{
    match sizes.get(call as usize) {
        Some(size) => (*size).max(1).min(most),
        None => most,
    }
}

// Copies the first bytes.
pub(crate) fn copy_front(bytes: &[u8], size: usize, out: &mut [u8])
    requires have { size ≤ length bytes.now }
    requires fits { size ≤ length out.old }
    ensures { take size out.new ≡ take size bytes.now }
{
    out[..size].copy_from_slice(&bytes[..size]);
}
