// What is asked of a book for one request, and what is found.
use crate::entry::SharedCommit;
use crate::replay::Replay;
use crate::snapshot::SharedSnapshot;
use edge_core::Name;
use json_tree::{Edition, Millis, Text, Version};
use log_replay::{Bound, Mark};
use log_store::Commits;
use share_catalog::{Binding, CatalogName, TableName};
use std::marker::Model;

/// By what a recipient is found.
#[derive(Drop)]
pub enum Who {
    /// By the SHA-256 digest of its bearer token.
    Token([u8; 32]),
    /// By its name.
    Named(Text),
}

/// What of a table's log is asked.
#[derive(Clone, Copy)]
pub enum Part {
    /// Only where the table stands.
    Place,
    /// The version that a bound means.
    Head(Bound),
    /// The same, and its files.
    Files(Bound),
    /// The versions from one bound to another, with what changed in them.
    Feed(Bound, Bound),
    /// A version that was told before, and its files.
    PinnedFiles(Version),
    /// Versions that were told before, from the first to the last.
    PinnedFeed(Version, Version),
}

/// What is asked.
#[derive(Drop)]
pub enum Want {
    /// The names of the shares that the recipient is granted, and of their tables.
    Names,
    /// A table, and what of its log.
    Table(TableName, Part),
}

/// Who asks, and for what.
#[derive(Drop)]
pub struct Ask {
    /// Who asks.
    pub who: Who,
    /// For what.
    pub want: Want,
}

impl Ask {
    /// Whether files of a version that was told before are asked, as each page but the first asks them.
    pub fn is_later(&self) -> bool {
        matches!(&self.want, Want::Table(_, Part::PinnedFiles(_)))
    }
}

/// The names that a recipient sees.
#[derive(Drop)]
pub struct Names {
    shares: Vec<CatalogName>,
    tables: Vec<TableName>,
}

impl Model for Names {
    ghost use Rattle.share_book.specs.NamesView.{NamesView};

    ghost Value = { NamesView };

    ghost view = { λ n. record { shares = n.shares.items; tables = n.tables.items } };
}

impl Names {
    ghost use Rattle.std.specs.Prelude.{◌≡◌};

    /// These shares, and these tables.
    pub fn of(shares: Vec<CatalogName>, tables: Vec<TableName>) -> Names
        ensures { result ≡ record { shares = shares.items; tables = tables.items } }
    {
        Names { shares, tables }
    }

    /// The shares, in byte order.
    pub fn shares(&self) -> &[CatalogName]
        ensures { result.now ≡ self.now.shares }
    {
        &self.shares
    }

    /// The tables, in byte order of share, then of schema, then of table.
    pub fn tables(&self) -> &[TableName]
        ensures { result.now ≡ self.now.tables }
    {
        &self.tables
    }
}

/// Where a table stands.
#[derive(Drop)]
pub struct Spot {
    grant: Edition,
    edition: Edition,
    binding: Binding,
}

impl Model for Spot {
    ghost use Rattle.share_catalog.specs.Views as catalog;

    ghost Value = { catalog.Spot };

    ghost view = { λ s. catalog.spot_with s.grant (s.binding, s.edition) };
}

impl Spot {
    ghost use Rattle.std.specs.Prelude.{◌≡◌, is_some, option_copied};
    ghost use Rattle.share_catalog.specs.Views.{spot_with};

    /// A table by the edition of its share's grant, and by the edition of its binding with the binding itself.
    pub fn of(grant: Edition, edition: Edition, binding: Binding) -> Spot
        ensures { result ≡ spot_with grant (binding, edition) }
    {
        Spot {
            grant,
            edition,
            binding,
        }
    }

    /// How often the recipient was granted its share.
    pub fn grant(&self) -> Edition
        ensures { result ≡ self.now.grant }
    {
        self.grant
    }

    /// How often its name was bound.
    pub fn binding(&self) -> Edition
        ensures { result ≡ self.now.binding }
    {
        self.edition
    }

    /// Whether earlier versions are shared.
    pub fn has_history(&self) -> bool
        ensures { result ≡ self.now.history }
    {
        self.binding.history
    }

    /// The first version that is shared.
    pub fn first(&self) -> Version
        ensures { result ≡ self.now.first }
    {
        self.binding.first
    }

    /// Whether only a part of each version is shared.
    pub fn is_restricted(&self) -> bool
        ensures { result ≡ is_some self.now.only }
    {
        self.binding.only.is_some()
    }

    /// The text that says what of each version is shared, none where all is.
    pub fn only(&self) -> Option<&str>
        ensures { option_copied result ≡ self.now.only }
    {
        match &self.binding.only {
            Some(only) => Some(only.as_str()),
            None => None,
        }
    }

    /// Where its log is stored.
    pub fn location(&self) -> &Name
        ensures { result.now ≡ self.now.location }
    {
        self.binding.location.name()
    }
}

/// Why what is asked of a table isn't found, the first of these.
#[derive(Clone, Copy, Debug, PartialEq, Eq)]
pub enum TableRefusal {
    /// The table is shared in part, and a feed is asked.
    Restricted,
    /// Earlier versions aren't shared: a feed is asked, or another version than the latest.
    NoHistory,
    /// No version is kept, or what is asked lies at or past the version that isn't.
    Unsupported,
    /// There is no such version, or the first of a feed comes after its last.
    VersionRange,
    /// There is no version at, before or after that moment.
    TimestampRange,
    /// A version that was told before isn't kept.
    Ahead,
    /// The version, or the first of a feed, comes before the first that is shared.
    NotShared {
        /// The first that is.
        first: u64,
    },
}

/// The marks of versions, one after another.
#[derive(Drop)]
pub struct Marks {
    items: Vec<Mark>,
}

impl Model for Marks {
    ghost use Rattle.std.specs.Prelude.{List};
    ghost use Rattle.log_replay.specs.declared.times.Mark.{Mark};

    ghost Value = { List Mark };

    ghost view = { λ m. m.items.items };
}

impl Marks {
    ghost use Rattle.std.specs.Prelude.{◌≡◌};

    /// The marks in this order.
    pub fn of(items: Vec<Mark>) -> Marks
        ensures { result ≡ items.items }
    {
        Marks { items }
    }

    /// The marks, in order.
    pub fn items(&self) -> &[Mark]
        ensures { result.now ≡ self.now }
    {
        &self.items
    }
}

/// What changed in some versions of a table.
#[derive(Drop)]
pub struct FeedPart {
    /// The first version.
    pub from: u64,
    /// The last.
    pub to: u64,
    /// Their commits.
    pub commits: Commits,
    /// Their marks.
    pub marks: Marks,
    /// The commit whose metaData holds at the last.
    pub meta: SharedCommit,
    /// The commit whose protocol holds at the last.
    pub protocol: SharedCommit,
}

/// What is found of a table's log.
#[derive(Drop)]
pub enum PartFound {
    /// Nothing was asked.
    Nothing,
    /// The version.
    Version(u64),
    /// The version, and its state.
    Files(u64, SharedSnapshot),
    /// The versions of a feed.
    Feed(FeedPart),
    /// It isn't found.
    Refused(TableRefusal),
}

/// What is found.
#[derive(Drop)]
pub enum Found {
    /// The names.
    Names(Names),
    /// The table isn't bound in a share that the recipient is granted.
    NoTable,
    /// Where the table stands, and what of its log.
    Table(Spot, PartFound),
}

/// Who asked, and what is found for it.
#[derive(Drop)]
pub struct Seen {
    /// The recipient's name.
    pub recipient: Text,
    /// The moment at which its token ends, none where it has no end.
    pub expires: Option<Millis>,
    /// What is found.
    pub found: Found,
}

/// What is taken out of a book in one turn for one request.
#[derive(Drop)]
pub struct Look {
    /// How many entries the history had.
    pub at: u64,
    /// What is found, none where no recipient has that digest or name.
    pub seen: Option<Seen>,
}

/// What a turn gives of a look: all of it where no files are asked. Where they are, the version stands in their place, with what
/// makes their state, so that nothing is replayed while others wait.
#[derive(Drop)]
pub struct Pinned {
    /// The look, with a version in place of its files.
    pub look: Look,
    /// What makes the state of that version, none where no files are asked or no version is found.
    pub replay: Option<Replay>,
    /// Whether more pages of the files are to be expected, so that a list of those that are shown is of use.
    pub is_later: bool,
}

/// The restriction of which the state that a look found is to have a list of the files that are shown, where one is of use.
pub(crate) fn listed_by(look: &Look, is_later: bool) -> Option<&str> {
    if !is_later {
        return None;
    }
    match &look.seen {
        Some(seen) => match &seen.found {
            Found::Table(spot, _) => spot.only(),
            Found::Names(_) | Found::NoTable => None,
        },
        None => None,
    }
}

impl Pinned {
    /// Whether commits are left to replay, or files to list.
    pub fn is_behind(&self) -> bool {
        match &self.replay {
            Some(replay) => !replay.is_made(listed_by(&self.look, self.is_later)),
            None => false,
        }
    }
}
