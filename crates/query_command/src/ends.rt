// How a run can end.
ghost use Rattle.std.specs.Prelude.{◌≡◌};
ghost use Rattle.query_command.specs.Ends.{note, note_line, note_text, peer_note, refusal_word, status, table_note, table_status};
ghost use Rattle.query_command.specs.declared.ends.End.TheVariants.{NoMemory as memory};

use case_table::Refusal;
use std::alloc::AllocError;

/// Why a table isn't answered.
#[derive(Clone, Copy, Debug, PartialEq, Eq)]
pub enum TableRefusal {
    /// The folder of its log names no commit.
    NoCommits,
    /// Its log begins above version 0, at this one: what came before stands in a checkpoint alone.
    NeedsCheckpoint { lowest: u64 },
    /// This version, below the greatest, is missing.
    Gap { version: u64 },
    /// The text of this version isn't a commit's.
    Commit { version: u64 },
    /// The state at this version isn't supported.
    Unsupported { version: u64 },
    /// With this version the texts of the commits pass 64 MiB.
    TooLarge { version: u64 },
    /// The table has no version of the number that was asked for.
    VersionRange,
    /// The table has no version at or before the moment that was asked for.
    TimestampRange,
}

/// Why what a peer answered isn't taken.
#[derive(Clone, Copy, Debug, PartialEq, Eq)]
pub enum PeerRefusal {
    /// It refused the request: with this status, and for this reason, where it is a server of this project's.
    Refused {
        status: u16,
        refusal: Option<Refusal>,
    },
    /// Its bytes are no reply; in the body the first line that is none begins here.
    BadReply {
        at: u64,
    },
    /// Another page was of another version, or has other metadata.
    PageChanged,
    /// A piece is of a file of another size than that asked first.
    SizeChanged,
    /// There are more pages, or pieces of a file, than a client takes.
    TooManyPages,
}

/// How a run ended.
#[derive(Drop)]
pub enum End {
    /// Status 0: what was asked is written.
    Done,
    /// Status 2: the words are no row of the table of words.
    Words,
    /// Status 3: the input isn't what the command takes.
    Input,
    /// Status 3: the server isn't configured.
    Configuration,
    /// Status 3: the profile of a client is absent, longer than 16 MiB, or none.
    Profile,
    /// Status 3: the url of a file isn't an `http` URL with a host.
    Url,
    /// Status 3: the record of that number in the catalogue is none, or is refused after those before it.
    Record { number: u64 },
    /// The table isn't answered, and why: status 3 where it hasn't what was asked for, else 4, since
    /// it isn't read.
    Table(TableRefusal),
    /// Status 7: what a peer answered isn't taken, and why.
    Peer(PeerRefusal),
    /// Status 5: a read of the input failed, or of what comes from a peer.
    ReadFault,
    /// Status 5: a call of the store failed.
    StoreFault,
    /// Status 5: a write to the output failed, or of what goes to a peer.
    WriteFault,
    /// Status 5: the port can't be opened, or the listener at it failed.
    ListenerFault,
    /// Status 5: no line to a peer was opened.
    PeerFault,
    /// Status 5: the bytes of an object ended early behind the head of their response.
    BodyCut,
    /// Status 6: want of memory.
    NoMemory,
}

/// A line of the notes.
#[derive(Drop)]
pub enum Note {
    /// A text.
    Plain(&'static str),
    /// A text, and a number in decimal after it.
    Numbered(&'static str, u64),
    /// That a peer refused, with which status, and the word of why.
    Refused(u16, &'static str),
}

impl From<AllocError> for End {
    ghost from_gives = { λ _ end. end ≡ memory };

    fn from(_: AllocError) -> Self {
        End::NoMemory
    }
}

impl End {
    /// The status of the program.
    pub fn status(&self) -> u8
        ensures { result ≡ status self.now }
    {
        match self {
            End::Done => 0,
            End::Words => 2,
            End::Input | End::Configuration | End::Profile | End::Url | End::Record { .. } => 3,
            End::Table(why) => why.status(),
            End::ReadFault
            | End::StoreFault
            | End::WriteFault
            | End::ListenerFault
            | End::PeerFault
            | End::BodyCut => 5,
            End::NoMemory => 6,
            End::Peer(_) => 7,
        }
    }

    /// The line that says why, none where all went well.
    pub fn note(&self) -> Option<Note>
        ensures { note_text result ≡ note self.now }
    {
        match self {
            End::Done => None,
            End::Words => Some(Note::Plain("share: words")),
            End::Input => Some(Note::Plain("share: input")),
            End::Configuration => Some(Note::Plain("share: configuration")),
            End::Profile => Some(Note::Plain("share: profile")),
            End::Url => Some(Note::Plain("share: url")),
            End::Record { number } => Some(Note::Numbered("share: catalog record ", *number)),
            End::Table(why) => Some(why.note()),
            End::Peer(why) => Some(why.note()),
            End::ReadFault => Some(Note::Plain("share: read fault")),
            End::StoreFault => Some(Note::Plain("share: store fault")),
            End::WriteFault => Some(Note::Plain("share: write fault")),
            End::ListenerFault => Some(Note::Plain("share: listener fault")),
            End::PeerFault => Some(Note::Plain("share: peer fault")),
            End::BodyCut => Some(Note::Plain("share: body cut")),
            End::NoMemory => Some(Note::Plain("share: memory")),
        }
    }
}

impl TableRefusal {
    fn status(&self) -> u8
        ensures { result ≡ table_status self.now }
    {
        match self {
            TableRefusal::VersionRange | TableRefusal::TimestampRange => 3,
            TableRefusal::NoCommits
            | TableRefusal::NeedsCheckpoint { .. }
            | TableRefusal::Gap { .. }
            | TableRefusal::Commit { .. }
            | TableRefusal::Unsupported { .. }
            | TableRefusal::TooLarge { .. } => 4,
        }
    }

    fn note(&self) -> Note
        ensures { note_line result ≡ table_note self.now }
    {
        match self {
            TableRefusal::NoCommits => Note::Plain("share: table: no commits"),
            TableRefusal::NeedsCheckpoint { lowest } => {
                Note::Numbered("share: table: needs checkpoint, lowest ", *lowest)
            }
            TableRefusal::Gap { version } => Note::Numbered("share: table: gap at ", *version),
            TableRefusal::Commit { version } => Note::Numbered("share: table: commit ", *version),
            TableRefusal::Unsupported { version } => {
                Note::Numbered("share: table: unsupported at ", *version)
            }
            TableRefusal::TooLarge { version } => {
                Note::Numbered("share: table: too large at ", *version)
            }
            TableRefusal::VersionRange => Note::Plain("share: version out of range"),
            TableRefusal::TimestampRange => Note::Plain("share: timestamp out of range"),
        }
    }
}

// The word of a refusal, as it stands in the body of an error.
fn refusal_word(refusal: Option<Refusal>) -> &'static str
    ensures { result.now ≡ refusal_word refusal }
{
    match refusal {
        Some(refusal) => refusal.word(),
        None => "-",
    }
}

impl PeerRefusal {
    fn note(&self) -> Note
        ensures { note_line result ≡ peer_note self.now }
    {
        match self {
            PeerRefusal::Refused { status, refusal } => {
                Note::Refused(*status, refusal_word(*refusal))
            }
            PeerRefusal::BadReply { at } => Note::Numbered("share: bad reply at ", *at),
            PeerRefusal::PageChanged => Note::Plain("share: page changed"),
            PeerRefusal::SizeChanged => Note::Plain("share: size changed"),
            PeerRefusal::TooManyPages => Note::Plain("share: too many pages"),
        }
    }
}
