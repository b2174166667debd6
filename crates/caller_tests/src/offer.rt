// An offer that rests on a text that is no predicate: no body of a request has one.
use crate::callers::{Callers, Told};
use crate::objects::name;
use commit_check::{Conflict, Offer, Reads};
use edge_core::MemStore;
use json_tree::{Text, Version};
use log_actions::{Actions, CommitTime, action_of_line};
use share_hub::CommitRefusal;
use std::alloc::Global;
use std::sync::Wait;

const ADD_NEW: &[u8] =
    b"{\"add\":{\"dataChange\":true,\"modificationTime\":0,\"partitionValues\":{\"day\":\"9\"},\"path\":\"new\",\"size\":1}}";

// The action is pushed where room was made for it: so nothing that may fail owns one.
fn added(alloc: Global) -> Option<Actions> {
    let Ok(mut actions) = Vec::with_capacity(alloc, 1) else {
        return None;
    };
    match action_of_line(alloc, ADD_NEW) {
        Ok(Some(action)) => {
            actions.push_reserved(action);
            Some(Actions::of(actions))
        }
        _ => None,
    }
}

fn offer(alloc: Global) -> Option<Offer> {
    let Ok(text) = String::from_str(alloc, "{}") else {
        return None;
    };
    let read = Version::of(0);
    let location = name(alloc, "tables/t1")?;
    Some(Offer {
        location,
        read,
        reads: Reads::Where(Text::of(text)),
        actions: added(alloc)?,
    })
}

fn refusal_told(answer: Result<u64, CommitRefusal>) -> Option<Told> {
    match answer {
        Err(CommitRefusal::Conflict(Conflict::ConcurrentAppend { version })) => {
            Some(("concurrent append", version, 0))
        }
        _ => None,
    }
}

/// With which version an offer conflicts that read version 0, and rests on that text.
pub(crate) fn offered<R: Wait>(
    rt: &R,
    alloc: Global,
    callers: &mut Callers,
    store: &mut MemStore,
) -> Option<Told> {
    let now = CommitTime::of(1_700_000_000_000)?;
    let offer = offer(alloc)?;
    refusal_told(callers.commit(rt, alloc, store, now, &offer))
}
