// Why a client has no answer.
ghost use Rattle.std.specs.Prelude.{◌≡◌};
ghost use Rattle.share_client.specs.declared.fault.ClientFault.TheVariants as fault;

use case_table::Refusal;
use json_tree::Text;
use std::alloc::{AllocError, AllocFailed};

/// Why a call of a client has no answer.
#[derive(Drop)]
pub enum ClientFault {
    /// The response's status isn't 200, nor 206 where a part was asked for.
    Refused {
        /// The status, 0 to 99 or 201 to 999.
        status: u16,
        /// The refusal, where the body is that of one of this project's servers.
        refusal: Option<Refusal>,
    },
    /// The bytes of the peer are no response (RFC 9112), end inside it, or hold one of more than 256 MiB; its lines, its list or its
    /// version are outside their grammar; it tells no size where it is asked for; or its part isn't the one that was asked for.
    BadReply {
        /// Where, in bytes from the start of the body, the first line begins that can't be read; 0 where something else is wrong.
        at: u64,
    },
    /// The version or the metaData line of a page isn't that of the first page.
    PageChanged {
        /// The version, in decimal, or the line, of the first page.
        first: Text,
        /// That of the page, which is another text.
        other: Text,
    },
    /// A piece of a file is of a file of another size than the one that was told first: the file was changed meanwhile.
    SizeChanged {
        /// The size that was told first, in bytes.
        first: u64,
        /// That of which the piece is, which is another one.
        other: u64,
    },
    /// 100,000 pages came, and the last has a token; or so many pieces of a file, and bytes are left.
    TooManyPages,
    /// The url isn't an absolute `http` URL with a host. Nothing was opened.
    BadUrl,
    /// The link opened no line: its count of faults rose.
    PeerFault,
    /// What comes from the peer failed: the link's count of read faults rose.
    ReadFault,
    /// What goes to the peer failed, or the sink of the call: the link's count of write faults rose, or that of the sink.
    WriteFault,
    /// Memory is wanting.
    NoMemory,
}

impl From<AllocError> for ClientFault {
    ghost from_gives = { λ _ e. e ≡ fault.NoMemory };

    fn from(_: AllocError) -> Self {
        ClientFault::NoMemory
    }
}

impl<T: Drop> From<AllocFailed<T>> for ClientFault {
    ghost from_gives = { λ _ e. e ≡ fault.NoMemory };

    fn from(_: AllocFailed<T>) -> Self {
        ClientFault::NoMemory
    }
}
