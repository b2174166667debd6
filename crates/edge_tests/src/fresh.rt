//! A store of which what was found absent is asked again only after a while.
ghost use Rattle.std.specs.Prelude.{None};

use crate::calls::{put, size};
use edge_core::{Clock, LAST_MOMENT, LockedStore, Measured, MemStore, Put};
use fresh_store::{Absences, FreshStore};
use std::alloc::{AllocError, Global};
use std::sync::{Arc, Mutex, Wait};
use std::test::Fail;

// A clock that stands still.
#[derive(Drop)]
struct Standing {
    moment: u64,
}

impl Clock for Standing {
    ghost coming = { λ c. None };

    ghost faults = { λ c. 0 };

    fn now(&mut self) -> u64 {
        self.moment.min(LAST_MOMENT)
    }
}

// What the handles of one server share.
#[derive(Drop)]
struct Shared {
    store: Arc<Mutex<MemStore>, Global>,
    absences: Arc<Mutex<Absences>, Global>,
}

fn one_server(alloc: Global, within: u64) -> Result<Shared, AllocError> {
    let store = MemStore::new(alloc, 20, 1_000, Vec::new(alloc))?;
    let absences = Absences::new(alloc, within)?;
    Ok(Shared {
        store: Arc::new(alloc, Mutex::new(store))?,
        absences: Arc::new(alloc, Mutex::new(absences))?,
    })
}

// Another server puts an object.
fn put_by_other<R: Wait + Drop>(
    rt: R,
    alloc: Global,
    shared: &Shared,
    object: &str,
) -> Option<Put> {
    let Ok(store) = Arc::try_clone(&shared.store) else {
        return None;
    };
    put(alloc, &mut LockedStore::new(rt, store), object, b"{}")
}

// A handle of this server at a moment.
fn at<R: Wait + Drop>(
    rts: (R, R),
    alloc: Global,
    shared: &Shared,
    moment: u64,
) -> Result<FreshStore<R, LockedStore<R, MemStore>, Standing>, AllocError> {
    let store = LockedStore::new(rts.0, Arc::try_clone(&shared.store)?);
    let absences = Arc::try_clone(&shared.absences)?;
    Ok(FreshStore::new(rts.1, alloc, absences, store, Standing { moment }))
}

// What a worker of this server finds at a moment.
fn found<R: Wait + Drop>(
    rts: (R, R),
    alloc: Global,
    shared: &Shared,
    moment: u64,
    object: &str,
) -> Option<Measured> {
    match at(rts, alloc, shared, moment) {
        Ok(mut store) => size(alloc, &mut store, object),
        Err(_) => None,
    }
}

// What a worker of this server is answered for its put.
fn put_here<R: Wait + Drop>(
    rts: (R, R),
    alloc: Global,
    shared: &Shared,
    object: &str,
) -> Option<Put> {
    match at(rts, alloc, shared, 5_000) {
        Ok(mut store) => put(alloc, &mut store, object, b"{}"),
        Err(_) => None,
    }
}

#[test]
fn what_others_add_is_found_late(rt: HostRuntime) -> Result<(), Fail> {
    let alloc = rt.alloc();
    let shared = one_server(alloc, 1_000)?;
    let version = "t/_delta_log/00000000000000000001.json";
    let absent = Some(Measured::Absent);
    let there = Some(Measured::Size(2));
    assert!(rt; found((rt.clone()?, rt.clone()?), alloc, &shared, 5_000, version) == absent);
    assert!(rt; put_by_other(rt.clone()?, alloc, &shared, version) == Some(Put::Stored));
    // Each worker of the server knows it absent, until a second has passed since the look began; and where the clock is set back.
    assert!(rt; found((rt.clone()?, rt.clone()?), alloc, &shared, 5_000, version) == absent);
    assert!(rt; found((rt.clone()?, rt.clone()?), alloc, &shared, 5_999, version) == absent);
    assert!(rt; found((rt.clone()?, rt.clone()?), alloc, &shared, 6_000, version) == there);
    assert!(rt; found((rt.clone()?, rt.clone()?), alloc, &shared, 4_999, version) == there);
    Ok(())
}

#[test]
fn what_is_put_here_is_found_at_once(rt: HostRuntime) -> Result<(), Fail> {
    let alloc = rt.alloc();
    let shared = one_server(alloc, 1_000)?;
    let record = "_share_log/00000000000000000007.json";
    let there = Some(Measured::Size(2));
    assert!(rt;
        found((rt.clone()?, rt.clone()?), alloc, &shared, 5_000, record) == Some(Measured::Absent)
    );
    assert!(rt; put_here((rt.clone()?, rt.clone()?), alloc, &shared, record) == Some(Put::Stored));
    assert!(rt; found((rt.clone()?, rt.clone()?), alloc, &shared, 5_001, record) == there);
    // A put of another's name is refused, and what stands there is found at once.
    let late = "_share_log/00000000000000000008.json";
    assert!(rt;
        found((rt.clone()?, rt.clone()?), alloc, &shared, 5_000, late) == Some(Measured::Absent)
    );
    assert!(rt; put_by_other(rt.clone()?, alloc, &shared, late) == Some(Put::Stored));
    assert!(rt; put_here((rt.clone()?, rt.clone()?), alloc, &shared, late) == Some(Put::Exists));
    assert!(rt; found((rt.clone()?, rt.clone()?), alloc, &shared, 5_001, late) == there);
    Ok(())
}

#[test]
fn files_are_always_looked_for(rt: HostRuntime) -> Result<(), Fail> {
    let alloc = rt.alloc();
    let shared = one_server(alloc, 1_000)?;
    assert!(rt;
        found((rt.clone()?, rt.clone()?), alloc, &shared, 5_000, "t/f1") == Some(Measured::Absent)
    );
    assert!(rt; put_by_other(rt.clone()?, alloc, &shared, "t/f1") == Some(Put::Stored));
    assert!(rt;
        found((rt.clone()?, rt.clone()?), alloc, &shared, 5_000, "t/f1") == Some(Measured::Size(2))
    );
    Ok(())
}

#[test]
fn nothing_is_late_where_no_time_is_given(rt: HostRuntime) -> Result<(), Fail> {
    let alloc = rt.alloc();
    let shared = one_server(alloc, 0)?;
    let version = "_delta_log/00000000000000000000.json";
    assert!(rt;
        found((rt.clone()?, rt.clone()?), alloc, &shared, 5_000, version) == Some(Measured::Absent)
    );
    assert!(rt; put_by_other(rt.clone()?, alloc, &shared, version) == Some(Put::Stored));
    assert!(rt;
        found((rt.clone()?, rt.clone()?), alloc, &shared, 5_000, version) == Some(Measured::Size(2))
    );
    Ok(())
}
