// A bucket as a store of objects.
ghost use Rattle.std.specs.Prelude.{◌≡◌, MatchResult, None, ⊤};
ghost use Rattle.edge_core.specs.Faults.{Cause};
ghost use Rattle.edge_core.specs.Objects.{failed_get, failed_put, failed_size};
ghost use Rattle.edge_core.specs.StoredPuts.{stored_after};
ghost use Rattle.bucket_store.specs.Stores.{CanBeStore, Keeps, Rests, next_number, put_mark, store_end, store_mark, store_place, store_puts, store_road};
ghost use Rattle.bucket_store.specs.Sides.{Known, told_of};

use crate::check::check_bucket;
use crate::ends::{ObjectEnd, is_past};
use crate::listing::list_folder;
use crate::objects::{PartEnd, get_part, put_numbered, size_of};
use crate::place::BucketPlace;
use crate::refusal::BucketFault;
use crate::road::Road;
use edge_core::{Clock, Got, Link, Listed, Measured, Name, Put, Store};
use json_tree::Text;
use std::alloc::Global;
use step_count::Steps;

/// A store whose objects are those of a bucket below a prefix, which it reaches over a link, by a line for each request.
///
/// It tells nothing of its objects, and counts the calls that failed and the puts that stored. A request whose answer is lost, or is of a
/// failure that may pass, is made again, three times in all. What answers decide is in `specs/Puts.antt` and `specs/Looks.antt`. The size that a
/// part of an object comes with is kept until the next get, so that the end of what was just read isn't asked for.
#[derive(Drop)]
pub struct BucketStore<V, C> {
    alloc: Global,
    road: Road<V, C>,
    place: BucketPlace,
    mark: Text,
    puts: u64,
    end: Option<ObjectEnd>,
    faults: u64,
    stored: Steps<Put>,
}

fn is_failed_get(got: Got) -> bool
    ensures { result ≡ failed_get got }
{
    match got {
        Got::Bytes(_) => false,
        Got::Absent => false,
        Got::Failed => true,
    }
}

fn is_failed_size(measured: Measured) -> bool
    ensures { result ≡ failed_size measured }
{
    match measured {
        Measured::Size(_) => false,
        Measured::Absent => false,
        Measured::Failed => true,
    }
}

impl<V: Link, C: Clock> BucketStore<V, C> {
    /// The store of the bucket of that place, with counts of 0. The mark is text that no other store's puts have, of visible ASCII: the
    /// hexadecimal digits of 128 random bits. Each put has it with a number of its own.
    pub fn new(alloc: Global, place: BucketPlace, way: V, clock: C, mark: Text) -> BucketStore<V, C>
        ensures place { store_place result ≡ place }
        ensures mark { store_mark result ≡ mark }
        ensures puts { store_puts result ≡ 0 }
        ensures end { store_end result ≡ None }
    {
        BucketStore {
            alloc,
            road: Road { way, clock },
            place,
            mark,
            puts: 0,
            end: None,
            faults: 0,
            stored: Steps::new(),
        }
    }

    /// The link.
    pub fn way(&self) -> &V {
        &self.road.way
    }

    // Counts a call, where it failed.
    fn count_fault(&mut self, failed: bool)
        ensures cause { Cause self.old.faults self.new.faults failed }
        ensures rest { Rests self.old self.new }
        ensures stored { self.new.stored ≡ self.old.stored }
    {
        if failed {
            self.faults = self.faults.saturating_add(1);
        }
    }

    // Counts a put that failed, and one that stored.
    fn note_put(&mut self, put: Put)
        ensures cause { Cause self.old.faults self.new.faults (failed_put put) }
        ensures rest { Rests self.old self.new }
        ensures stored { self.new.stored ≡ stored_after self.old.stored put }
    {
        match put {
            Put::Stored => self.stored.tick(),
            Put::Exists => {}
            Put::Failed => self.count_fault(true),
        }
    }

    /// Looks whether the bucket can be a store: whether it lists a folder, and refuses a put where an object has the name. The object
    /// `_share_log/.share-put-check` is in it then. The fault says what the bucket answered else.
    pub fn check(&mut self) -> Result<(), BucketFault>
        ensures keeps { Keeps (store_end self.old) self.old self.new }
        ensures told { Known (told_of V.coming V.closed C.coming (store_road self.old)) (told_of V.coming V.closed C.coming (store_road self.new)) (λ s t. MatchResult result (λ _. CanBeStore (store_place self.old) (put_mark self.old (next_number (store_puts self.old))) (put_mark self.old (next_number (next_number (store_puts self.old)))) s t) (λ _. ⊤)) }
    {
        check_bucket(
            self.alloc,
            &self.place,
            &mut self.road,
            self.mark.as_str(),
            &mut self.puts,
        )
    }
}

impl<V: Link, C: Clock> Store for BucketStore<V, C> {
    ghost use Rattle.std.specs.Prelude.{◌≡◌, ◌<◌, None, false, length};
    ghost use Rattle.std.specs.Bool.{OnTrue};
    ghost use Rattle.edge_core.specs.Faults.{Cause};
    ghost use Rattle.edge_core.specs.Objects.{Gets, Lists, Measures, Puts, failed_get, failed_list, failed_put, failed_size};
    ghost use Rattle.edge_core.specs.StoredPuts.{stored_after};
    ghost use Rattle.bucket_store.specs.Folders.{ListsAs};
    ghost use Rattle.bucket_store.specs.Objects.{PutsAt, ReadsPart, Sizes};
    ghost use Rattle.bucket_store.specs.Sides.{Known, told_of};
    ghost use Rattle.bucket_store.specs.Stores.{Keeps, next_number, put_mark, store_end, store_faults, store_place, store_puts, store_road, store_stored};

    ghost objects = { λ _. None };

    ghost alone = { λ _. false };

    ghost faults = { store_faults };

    ghost stored = { store_stored };

    fn get(&mut self, name: &Name, from: u64, out: &mut [u8]) -> Got
        requires { 0 < length out.old }
        ensures bytes { Gets None None false name.now from result out.new }
        ensures cause { Cause (store_faults self.old) (store_faults self.new) (failed_get result) }
        ensures stored { store_stored self.new ≡ store_stored self.old }
        ensures keeps { Keeps (store_end self.new) self.old self.new }
        ensures told { Known (told_of V.coming V.closed C.coming (store_road self.old)) (told_of V.coming V.closed C.coming (store_road self.new)) (ReadsPart (store_place self.old) name.now from (store_end self.old) result (store_end self.new) out.new) }
    {
        if is_past(&self.end, name.as_str(), from) {
            return Got::Bytes(0);
        }
        let PartEnd { got, end } = get_part(
            self.alloc,
            &self.place,
            &mut self.road,
            name.as_str(),
            from,
            out,
        );
        self.end = end;
        self.count_fault(is_failed_get(got));
        got
    }

    fn size(&mut self, name: &Name) -> Measured
        ensures size { Measures None None false name.now result }
        ensures cause { Cause (store_faults self.old) (store_faults self.new) (failed_size result) }
        ensures stored { store_stored self.new ≡ store_stored self.old }
        ensures keeps { Keeps (store_end self.old) self.old self.new }
        ensures told { Known (told_of V.coming V.closed C.coming (store_road self.old)) (told_of V.coming V.closed C.coming (store_road self.new)) (Sizes (store_place self.old) name.now result) }
    {
        let size = size_of(self.alloc, &self.place, &mut self.road, name.as_str());
        self.count_fault(is_failed_size(size));
        size
    }

    fn put_absent(&mut self, name: &Name, bytes: &[u8]) -> Put
        ensures object { Puts None None false name.now bytes.now result }
        ensures cause { Cause (store_faults self.old) (store_faults self.new) (failed_put result) }
        ensures stored { store_stored self.new ≡ stored_after (store_stored self.old) result }
        ensures keeps { Keeps (store_end self.old) self.old self.new }
        ensures puts { store_puts self.new ≡ next_number (store_puts self.old) }
        ensures told { Known (told_of V.coming V.closed C.coming (store_road self.old)) (told_of V.coming V.closed C.coming (store_road self.new)) (PutsAt (store_place self.old) (put_mark self.old (store_puts self.new)) name.now bytes.now result) }
    {
        let mark = self.mark.as_str();
        let text = name.as_str();
        let end = put_numbered(
            self.alloc,
            &self.place,
            &mut self.road,
            mark,
            &mut self.puts,
            text,
            bytes,
        );
        self.note_put(end.put);
        end.put
    }

    // The pages of a listing are of several moments.
    fn lists_at_once(&self) -> bool {
        false
    }

    fn list(&mut self, alloc: Global, dir: &Name) -> Listed
        ensures names { Lists None None false dir.now result }
        ensures cause { Cause (store_faults self.old) (store_faults self.new) (failed_list result) }
        ensures stored { store_stored self.new ≡ store_stored self.old }
        ensures keeps { Keeps (store_end self.old) self.old self.new }
        ensures told { Known (told_of V.coming V.closed C.coming (store_road self.old)) (told_of V.coming V.closed C.coming (store_road self.new)) (ListsAs (store_place self.old) dir.now result) }
    {
        match list_folder(alloc, &self.place, &mut self.road, dir.as_str()) {
            Some(names) => Listed::Names(names),
            None => {
                self.count_fault(true);
                Listed::Failed
            }
        }
    }
}
