// A walk over the files of a list of shared parts.
ghost use Rattle.std.specs.Prelude.{◌≡◌};
ghost use Rattle.std.specs.Iterator.{YieldsFirstRef, item_count};
ghost use Rattle.log_replay.specs.Listing.{AllSized, listed};

use crate::part::Part;
use log_actions::AddFile;
use std::marker::Model;
use std::sync::Arc;

/// The live files of a state, from one on, in byte order of path.
#[derive(Drop)]
pub struct Files<'a> {
    part: &'a [Arc<AddFile>],
    later: &'a [Arc<Part>],
}

impl<'a> Model for Files<'a> {
    ghost use Rattle.std.specs.Prelude.{List, ◌++◌, map};
    ghost use Rattle.std.specs.Arc.{arc_value};
    ghost use Rattle.log_actions.specs.declared.actions.AddFile.{AddFile};
    ghost use Rattle.log_replay.specs.Listing.{AllSized, listed};

    ghost Value = { List AddFile };

    ghost view = { λ s. map arc_value s.part.now ++ listed s.later.now };

    ghost invariant = { λ s. AllSized s.later.now };
}

impl<'a> Files<'a> {
    // All files of these parts.
    pub(crate) fn of(parts: &'a [Arc<Part>]) -> Files<'a>
        requires { AllSized parts.now }
        ensures { result ≡ listed parts.now }
    {
        Files {
            part: &[],
            later: parts,
        }
    }
}

impl<'a> Iterator for Files<'a> {
    type Item = &'a AddFile;

    ghost next_gives = { YieldsFirstRef (λ s. s) };

    ghost remaining = { item_count (λ s. s) };

    fn next(&mut self) -> Option<&'a AddFile> {
        if let Some((file, part)) = self.part.split_first() {
            self.part = part;
            return Some(file);
        }
        let (first, later) = self.later.split_first()?;
        let (file, part) = first.files().split_first()?;
        self.part = part;
        self.later = later;
        Some(file)
    }
}
