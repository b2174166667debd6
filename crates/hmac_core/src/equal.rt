// Whether two texts are one, in a time that doesn't tell where they differ.
ghost use Rattle.std.specs.Prelude.{◌≡◌, ◌↔◌, IsTrue};

/// Whether both are the same bytes. Where their lengths are equal, all bytes are compared, whatever they are.
pub(crate) fn is_equal(one: &[u8], other: &[u8]) -> bool
    ensures { IsTrue result ↔ (one.now ≡ other.now) }
{
    if one.len() != other.len() {
        return false;
    }
    let mut differing = 0u8;
    for i in 0..one.len() {
        differing |= one[i] ^ other[i];
    }
    differing == 0
}
