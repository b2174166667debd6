// What events leave.
ghost use Rattle.std.specs.Prelude.{◌≡◌, ◌++◌, ◌∷◌, [], List, IfOk, OnOk};
ghost use Rattle.share_world.specs.Standing.{Stands};
ghost use Rattle.share_world.specs.Worlds.{looked};
ghost use Rattle.share_world.specs.declared.event.Event.{Event as OneEvent};

use crate::edits::edit_in;
use crate::event::Event;
use crate::log::commit_in;
use crate::look::seen_of;
use share_book::{Ask, Book, Seen};
use std::alloc::{AllocError, Global};
use std::marker::Model;

/// What the events up to a point leave: a catalogue and the logs of its tables. Contracts see a history that stands for the events.
#[derive(Drop)]
pub struct World {
    book: Book,
}

impl Model for World {
    ghost use Rattle.std.specs.Prelude.{List};
    ghost use Rattle.share_book.specs.declared.entry.Entry.{Entry};

    ghost Value = { List Entry };

    ghost view = { λ w. w.book.past.history };
}

impl World {
    /// What no event leaves. The error is want of memory.
    pub fn new(alloc: Global) -> Result<World, AllocError>
        ensures { IfOk result (λ w. Stands w []) }
    {
        Ok(World {
            book: Book::new(alloc)?,
        })
    }

    /// Takes one event more, behind those before it: an edit unless the catalogue refuses it, and a commit unless its log doesn't take
    /// it. A request changes nothing. The error is want of memory; then the world isn't used any more.
    ///
    /// The time is that of the event, but where it is the first to bind a location, of which there are at most 32: then the events before
    /// are gone through once.
    pub fn take(&mut self, alloc: Global, before: &[Event], event: &Event) -> Result<(), AllocError>
        requires { Stands self.old before.now }
        ensures { OnOk result (Stands self.new (before.now ++ event.now ∷ [])) }
    {
        match event {
            Event::Commit(location, commit) => commit_in(alloc, &mut self.book, location, commit),
            Event::Edit(edit) => edit_in(alloc, &mut self.book, before, edit),
            Event::Ask(..) => Ok(()),
        }
    }

    /// What is found for what is asked, none where nothing is: in the whole logs that the events leave. A state that is replayed for it is
    /// kept for the next time. The error is want of memory.
    pub fn see(&mut self, alloc: Global, ask: &Option<Ask>) -> Result<Option<Seen>, AllocError>
        ensures same { self.new ≡ self.old }
        ensures seen { (events : List OneEvent) → Stands self.old events → IfOk result (λ s. s ≡ looked events ask.now) }
    {
        seen_of(alloc, &mut self.book, ask)
    }
}
