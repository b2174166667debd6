// Where heads end.
ghost use Rattle.std.specs.Prelude.{◌≡◌, ◌+◌, ◌≤◌, drop, length};
ghost use Rattle.http_message.specs.Ends.{blank_len, ends_empty, line_count, HasNoEndTo, TellsEnd};

/// How many bytes at the front are empty lines (RFC 9112, section 2.2).
pub fn blank_len(bytes: &[u8]) -> usize
    ensures value { result ≡ blank_len bytes.now }
    ensures within { result ≤ length bytes.now }
{
    let mut at = 0;
    while at < bytes.len() {
        if bytes[at] == b'\n' {
            at += 1;
        } else if bytes[at] == b'\r' && at + 1 < bytes.len() && bytes[at + 1] == b'\n' {
            at += 2;
        } else {
            break;
        }
    }
    at
}

/// How many bytes at the front are empty lines, where those up to `known` are known to be.
pub fn blank_len_from(bytes: &[u8], known: usize) -> usize
    requires within { known ≤ length bytes.now }
    requires known { known + blank_len (drop known bytes.now) ≡ blank_len bytes.now }
    ensures value { result ≡ blank_len bytes.now }
    ensures within { result ≤ length bytes.now }
{
    known + blank_len(&bytes[known..])
}

// Whether an empty line ends at place n.
fn ends_empty(bytes: &[u8], n: usize) -> bool
    requires { n ≤ length bytes.now }
    ensures { result ≡ ends_empty bytes.now n }
{
    n >= 2
        && bytes[n - 1] == b'\n'
        && (bytes[n - 2] == b'\n' || (n >= 3 && bytes[n - 2] == b'\r' && bytes[n - 3] == b'\n'))
}

/// Where the first empty line that ends behind `start` ends, where none does up to place `searched`.
pub fn end_after(bytes: &[u8], start: usize, searched: usize) -> Option<usize>
    requires order { start ≤ searched }
    requires within { searched ≤ length bytes.now }
    requires none { HasNoEndTo bytes.now start searched }
    ensures { TellsEnd bytes.now start result }
{
    for i in searched..bytes.len() {
        if ends_empty(bytes, i + 1) {
            return Some(i + 1);
        }
    }
    None
}

/// How many lines end in the text.
pub fn line_count(text: &[u8]) -> usize
    ensures { result ≡ line_count text.now }
{
    text.iter().filter(|byte| **byte == b'\n').count()
}
