// The files that are shown of a state.
ghost use Rattle.std.specs.Prelude.{◌≡◌, ◌<◌, Some, None, length, slice_get};
ghost use Rattle.share_book.specs.Placed.{AreFilled, files_at};

use log_actions::AddFile;
use log_replay::Snapshot;
use std::marker::Model;

// The place in a state of the file that has that place among those that are listed.
fn place_at(places: &[u32], place: u64) -> u64
    requires { place < length places.now }
    ensures { slice_get places.now place ≡ Some result }
{
    places[place as usize] as u64
}

/// The files of a state that are shown, in byte order of path: all, or those that a list has.
#[derive(Drop)]
pub struct ShownFiles<'a> {
    snapshot: &'a Snapshot,
    places: Option<&'a [u32]>,
}

impl<'a> Model for ShownFiles<'a> {
    ghost use Rattle.std.specs.Prelude.{List, option_copied};
    ghost use Rattle.log_actions.specs.declared.actions.AddFile.{AddFile};
    ghost use Rattle.share_book.specs.Placed.{AreFilled, files_at};

    ghost Value = { List AddFile };

    ghost view = { λ f. files_at f.snapshot.now.files (option_copied f.places) };

    ghost invariant = { λ f. AreFilled f.snapshot.now.files (option_copied f.places) };
}

impl<'a> ShownFiles<'a> {
    /// All files.
    pub(crate) fn all(snapshot: &'a Snapshot) -> ShownFiles<'a>
        ensures { result ≡ snapshot.now.files }
    {
        ShownFiles {
            snapshot,
            places: None,
        }
    }

    /// Those at these places.
    pub(crate) fn at(snapshot: &'a Snapshot, places: &'a [u32]) -> ShownFiles<'a>
        requires { AreFilled snapshot.now.files (Some places.now) }
        ensures { result ≡ files_at snapshot.now.files (Some places.now) }
    {
        ShownFiles {
            snapshot,
            places: Some(places),
        }
    }

    /// How many there are.
    pub fn len(&self) -> u64
        ensures { result ≡ length self.now }
    {
        match self.places {
            Some(places) => places.len() as u64,
            None => self.snapshot.len(),
        }
    }

    /// The file at that place among these. It is found by halving.
    pub fn file(&self, place: u64) -> &'a AddFile
        requires { place < length self.now }
        ensures { slice_get self.now place ≡ Some result.now }
    {
        match self.places {
            Some(places) => self.snapshot.file(place_at(places, place)),
            None => self.snapshot.file(place),
        }
    }
}
