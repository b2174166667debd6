// One history for all desks.
ghost use Rattle.std.specs.Prelude.{All, ◌≡◌, ◌<◌, length};
ghost use Rattle.std.specs.Option.{IsSomeAnd};
ghost use mathlib.Core.List.{IsPrefix};
ghost use Rattle.share_pool.specs.Desks.{HasPass};
ghost use Rattle.share_pool.specs.OneHistory.{HasSeenUpTo, OneAt, OwnIn};

use crate::desk::Desk;
use share_hub::{Hub, HubNote};

// What a desk has seen.
fn note_at<N, W, C, L>(hub: &Hub, desk: &mut Desk<N, W, C, L>) -> HubNote
    requires { HasPass hub.now desk.old.pass }
    ensures same { desk.new ≡ desk.old }
    ensures note { result.cell ≡ hub.now }
{
    let Some(pass) = &mut desk.pass else {
        unreachable!()
    };
    hub.note(pass)
}

// Tells the note what a desk has seen.
fn hear_at<N, W, C, L>(hub: &Hub, note: &mut HubNote, desk: &mut Desk<N, W, C, L>)
    requires cell { note.old.cell ≡ hub.now }
    requires desk { HasPass hub.now desk.old.pass }
    ensures same { (note.new.cell ≡ note.old.cell) × (desk.new ≡ desk.old) }
    ensures seen { IsPrefix note.old.seen note.new.seen }
    ensures heard { HasSeenUpTo note.new.seen desk.old.pass }
{
    let Some(pass) = &mut desk.pass else {
        unreachable!()
    };
    hub.hear(note, pass);
}

// Holds a desk against the note.
fn check_at<N, W, C, L>(hub: &Hub, note: &mut HubNote, desk: &mut Desk<N, W, C, L>)
    requires cell { note.old.cell ≡ hub.now }
    requires desk { HasPass hub.now desk.old.pass }
    requires seen { HasSeenUpTo note.old.seen desk.old.pass }
    ensures same { (note.new ≡ note.old) × (desk.new ≡ desk.old) }
    ensures own { IsSomeAnd desk.old.pass (OwnIn note.old.seen) }
{
    let Some(pass) = &mut desk.pass else {
        unreachable!()
    };
    hub.check(note, pass);
}

fn hear_all<N, W, C, L>(hub: &Hub, note: &mut HubNote, desks: &mut [Desk<N, W, C, L>])
    requires cell { (note.old.cell ≡ hub.now) × All (λ d. HasPass hub.now d.pass) desks.old }
    ensures same { (note.new.cell ≡ note.old.cell) × (desks.new ≡ desks.old) }
    ensures heard { All (λ d. HasSeenUpTo note.new.seen d.pass) desks.old }
{
    for i in 0..desks.len() {
        hear_at(hub, note, &mut desks[i]);
    }
}

fn check_all<N, W, C, L>(hub: &Hub, note: &mut HubNote, desks: &mut [Desk<N, W, C, L>])
    requires cell { (note.old.cell ≡ hub.now) × All (λ d. HasPass hub.now d.pass) desks.old }
    requires seen { All (λ d. HasSeenUpTo note.old.seen d.pass) desks.old }
    ensures same { (note.new ≡ note.old) × (desks.new ≡ desks.old) }
    ensures own { All (λ d. IsSomeAnd d.pass (OwnIn note.old.seen)) desks.old }
{
    for i in 0..desks.len() {
        check_at(hub, note, &mut desks[i]);
    }
}

/// One history of all desks, which stay as they are: legal, by the hub's callers alone, and of each desk with just the entries that its pass
/// made. It waits for nobody and takes no memory.
pub(crate) fn one_history<N, W, C, L>(hub: &Hub, desks: &mut [Desk<N, W, C, L>]) -> HubNote
    requires some { 0 < length desks.old }
    requires ready { All (λ d. HasPass hub.now d.pass) desks.old }
    ensures same { desks.new ≡ desks.old }
    ensures one { OneAt hub.now.callers desks.old result.seen }
{
    let mut note = note_at(hub, &mut desks[0]);
    hear_all(hub, &mut note, desks);
    check_all(hub, &mut note, desks);
    note.known();
    note
}
