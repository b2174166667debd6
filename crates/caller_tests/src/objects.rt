// What is stored: the records of a catalogue, and the versions of a table.
use edge_core::{MemStore, Name, Stored};
use std::alloc::Global;

// By which word scripts speak of an object, its name, and what it holds. The records share the table `t1` with the recipient `r1`, whose
// token is `abc`, and take it back; of versions 0 to 5 each has another number of files. On `days` and `day` an offer is made.
static OBJECTS: [(&str, &str, &str); 14] = [
    (
        "share",
        "_share_log/00000000000000000000.json",
        "{\"edit\":{\"newShare\":{\"name\":\"s1\"}},\"version\":1}\n",
    ),
    (
        "recipient",
        "_share_log/00000000000000000001.json",
        "{\"edit\":{\"newRecipient\":{\"digest\":\"ba7816bf8f01cfea414140de5dae2223b00361a396177a9cb410ff61f20015ad\",\"expires\":null,\"name\":\"r1\"}},\"version\":1}\n",
    ),
    (
        "table",
        "_share_log/00000000000000000002.json",
        "{\"edit\":{\"bind\":{\"history\":true,\"location\":\"tables/t1\",\"schema\":\"sc\",\"share\":\"s1\",\"table\":\"t1\"}},\"version\":1}\n",
    ),
    (
        "grant",
        "_share_log/00000000000000000003.json",
        "{\"edit\":{\"grant\":{\"recipient\":\"r1\",\"share\":\"s1\"}},\"version\":1}\n",
    ),
    (
        "revoke",
        "_share_log/00000000000000000004.json",
        "{\"edit\":{\"revoke\":{\"recipient\":\"r1\",\"share\":\"s1\"}},\"version\":1}\n",
    ),
    (
        "0",
        "tables/t1/_delta_log/00000000000000000000.json",
        "{\"protocol\":{\"minReaderVersion\":1,\"minWriterVersion\":2}}\n\
            {\"metaData\":{\"id\":\"t\",\"schemaString\":\"{}\"}}\n{\"add\":{\"path\":\"a\",\"size\":1}}\n",
    ),
    (
        "1",
        "tables/t1/_delta_log/00000000000000000001.json",
        "{\"add\":{\"path\":\"b\",\"size\":1}}\n",
    ),
    (
        "2",
        "tables/t1/_delta_log/00000000000000000002.json",
        "{\"add\":{\"path\":\"c\",\"size\":1}}\n{\"add\":{\"path\":\"d\",\"size\":1}}\n",
    ),
    (
        "3",
        "tables/t1/_delta_log/00000000000000000003.json",
        "{\"add\":{\"path\":\"e\",\"size\":1}}\n",
    ),
    (
        "4",
        "tables/t1/_delta_log/00000000000000000004.json",
        NO_FILE,
    ),
    (
        "5",
        "tables/t1/_delta_log/00000000000000000005.json",
        "{\"commitInfo\":{\"timestamp\":1000}}\n\
            {\"remove\":{\"path\":\"c\"}}\n{\"remove\":{\"path\":\"d\"}}\n\
            {\"add\":{\"path\":\"f\",\"size\":1}}\n{\"add\":{\"path\":\"g\",\"size\":1}}\n{\"add\":{\"path\":\"h\",\"size\":1}}\n",
    ),
    (
        "days",
        "tables/t1/_delta_log/00000000000000000000.json",
        "{\"protocol\":{\"minReaderVersion\":1,\"minWriterVersion\":2}}
{\"metaData\":{\"id\":\"m\",\"schemaString\":\"{\\\"fields\\\":[{\\\"name\\\":\\\"day\\\",\\\"type\\\":\\\"integer\\\"}]}\",\"partitionColumns\":[\"day\"]}}
{\"add\":{\"path\":\"seven\",\"partitionValues\":{\"day\":\"7\"},\"size\":1}}
{\"add\":{\"path\":\"eight\",\"partitionValues\":{\"day\":\"8\"},\"size\":1}}",
    ),
    (
        "day",
        "tables/t1/_delta_log/00000000000000000001.json",
        "{\"add\":{\"dataChange\":true,\"modificationTime\":0,\"partitionValues\":{\"day\":\"8\"},\"path\":\"other\",\"size\":1}}",
    ),
    ("file", "tables/t1/a", "0123456789"),
];

// A version that changes no file.
const NO_FILE: &str = "{\"txn\":{\"appId\":\"x\",\"version\":1}}\n";

/// The name of an object.
pub(crate) fn name(alloc: Global, text: &str) -> Option<Name> {
    match String::from_str(alloc, text) {
        Ok(text) => Name::of(text),
        Err(_) => None,
    }
}

// Someone else stores an object: whether there was room, and none of that name.
fn stock_text(alloc: Global, store: &mut MemStore, object: &str, text: &str) -> bool {
    let Some(name) = name(alloc, object) else {
        return false;
    };
    match Vec::from_slice(alloc, text.as_bytes()) {
        Ok(bytes) => store.stock(Stored { name, bytes }),
        Err(_) => false,
    }
}

// The same of versions 1 to 64, none of which changes a file.
fn stock_many(alloc: Global, store: &mut MemStore) -> bool {
    for version in 1..65u64 {
        let stocked = match format!(in alloc; "tables/t1/_delta_log/{version:020}.json") {
            Ok(object) => stock_text(alloc, store, object.as_str(), NO_FILE),
            Err(_) => false,
        };
        if !stocked {
            return false;
        }
    }
    true
}

/// Someone else stores the object of that word; of `many` 64 versions.
pub(crate) fn stock(alloc: Global, store: &mut MemStore, word: &str) -> bool {
    if word == "many" {
        return stock_many(alloc, store);
    }
    for (known, object, text) in &OBJECTS {
        if *known == word {
            return stock_text(alloc, store, object, text);
        }
    }
    false
}

fn stock_all(alloc: Global, store: &mut MemStore, words: &str) -> bool {
    for word in words.split(' ') {
        if !stock(alloc, store, word) {
            return false;
        }
    }
    true
}

/// A store with the objects of those words.
pub(crate) fn stocked(alloc: Global, words: &str) -> Option<MemStore> {
    let Ok(mut store) = MemStore::new(alloc, 100, 100_000, Vec::new(alloc)) else {
        return None;
    };
    if stock_all(alloc, &mut store, words) {
        Some(store)
    } else {
        None
    }
}
