// The edits that were accepted, for proofs alone.
ghost use Rattle.std.specs.Prelude.{◌≡◌, [], ◌∷◌, ◌++◌};

use crate::edit::Edit;
use std::marker::Model;
use std::snapshot::Snapshot;

// A list of edits that is remembered for proofs alone: none, or one more than a list before it.
#[derive(Drop)]
#[cycle(past)]
pub(crate) struct Past {
    before: Option<(Snapshot<Past>, Snapshot<Edit>)>,
}

impl Model for Past {
    ghost use Rattle.std.specs.Prelude.{List, length};
    ghost use Rattle.std.proofs.Common.{arith, length-append};
    ghost use Rattle.share_catalog.specs.declared.edit.Edit.{Edit};

    ghost Value = { List Edit };

    ghost use Rattle.share_catalog.specs.Past.{edits_in};

    ghost view = { λ a. edits_in a.before };

    ghost size = { length };

    ghost size_decreases = { λ a h. Prim.grind (arith, length-append) };
}

impl Past {
    pub(crate) fn new() -> Past
        ensures { result ≡ [] }
    {
        Past { before: None }
    }

    // The list with one edit more.
    pub(crate) fn with(&self, edit: &Edit) -> Past
        ensures { result ≡ self.now ++ edit.now ∷ [] }
    {
        Past {
            before: Some((Snapshot::of(self), Snapshot::of(edit))),
        }
    }
}
