//! A store in a real folder, which each test makes for itself.
use crate::calls::{LARGE, get, list, put, size};
use edge_core::{Got, Measured, Name, Put, Store};
use edge_std::FileStore;
use std::alloc::{AllocError, Global};
use std::fs::DirBuilder;
use std::io::ErrorKind;
use std::os::unix::fs::symlink;
use std::test::Fail;
use std::thread::Threads;
use std::{env, fs, io, thread};

// A new folder for a test.
fn fresh_folder(rt: &HostRuntime) -> Result<String, Fail> {
    let alloc = rt.alloc();
    let temporary = env::temp_dir(rt)?;
    for number in 0..1_000_000u32 {
        let folder = format!(in alloc; "{}/share-edge-std-{number}", temporary.as_str())?;
        match DirBuilder::new().create(rt, folder.as_str()) {
            Ok(()) => return Ok(folder),
            Err(e) if e.kind() == ErrorKind::AlreadyExists => {}
            Err(e) => return Err(Fail::from(e)),
        }
    }
    Err(Fail::from("no folder is free"))
}

fn store_in(rt: &HostRuntime, folder: &str) -> Result<FileStore, AllocError> {
    Ok(FileStore::new(rt.clone()?, String::from_str(rt.alloc(), folder)?))
}

// What is done in a folder with its store, and what is to come of it, a line each:
// - `put NAME BYTES ANSWER`: a put of those bytes under a name, and its answer;
// - `has NAME BYTES`: the object has those bytes, and that size;
// - `piece NAME FROM COUNT ROOM`: reading from a place on gives so many bytes, and leaves these three in the room, where dashes were;
// - `absent NAME`: no object has the name; `fails NAME`: neither a read nor a look at the size is answered;
// - `lists NAME NAMES`: the folder has objects of those last segments, in order;
// - `link NAME TARGET`: a symbolic link to a target is made, at a path of the disk;
// - `leave NAME`: there is a file that a program leaves which was stopped while it wrote;
// - `entries NAME COUNT`: how many entries a folder of the disk has.
const STEPS: &str = "# An object is stored once, and read again.
absent t/_delta_log/0.json
put t/_delta_log/0.json abc stored
put t/_delta_log/0.json other exists
put t/_delta_log/1.json d stored
has t/_delta_log/0.json abc
lists t/_delta_log 0.json 1.json
# Folders are no objects. The folder's name is told, and nothing is there to be read. A file in a folder's place: the folder isn't there,
# and nothing is below it.
put a/b/c c stored
put a/b x failed
absent a/b
absent a/b/c/d
lists a b
lists a/b/c
lists none
# A link to a file is the file; links to themselves, to nothing and to a folder are no objects. Each name is told, and what a failed put
# wrote is gone.
put links/file f stored
link links/good file
link links/loop loop
link links/nowhere none
link links/up .
has links/good f
absent links/loop
absent links/nowhere
absent links/up
put links/loop x failed
put links/nowhere x failed
put links/up x failed
lists links file good loop nowhere up
entries links 5
# A link that leads out of the folder, into `_share_log` or to what lies in the folder itself is no object, by whatever links; nor is what lies
# in such a folder, and nothing is stored there. One that leads to another file within is the file, and `_share_log` may have links within.
put _share_log/0.json record stored
put token secret stored
put in/file f stored
link in/own ../_share_log/0.json
link in/token ../token
link in/away /etc/passwd
link in/twice away
link in/records ../_share_log
link in/root ..
link in/outside /tmp
link in/passwords /etc
absent in/own
absent in/token
absent in/away
absent in/twice
absent in/records/0.json
absent in/root/token
absent in/root/_share_log/0.json
absent in/passwords/passwd
has in/root/in/file f
has token secret
put in/records/1.json x failed
put in/root/other x failed
put in/outside/share-edge-std-other x failed
put in/outside/share-edge-std-other/x x failed
put in/root/in/more x failed
absent in/more
link _share_log/1.json 0.json
link _share_log/2.json ../token
link _share_log/3.json /etc/passwd
has _share_log/1.json record
has _share_log/2.json secret
absent _share_log/3.json
lists in away file outside own passwords records root token twice
# Pieces are those of the named object: names in another order than their bytes', and names of one length.
put d/b1 first. stored
put d/a2 second stored
put d/a third. stored
put d/10 fourth stored
piece d/b1 0 3 fir
piece d/a2 3 3 ond
piece d/b1 3 3 st.
piece d/b1 6 0 ---
lists d 10 a a2 b1
# A name that is too long for the disk fails.
put nnnnnnnnnnnnnnnnnnnnnnnnnnnnnnnnnnnnnnnnnnnnnnnnnnnnnnnnnnnnnnnnnnnnnnnnnnnnnnnnnnnnnnnnnnnnnnnnnnnnnnnnnnnnnnnnnnnnnnnnnnnnnnnnnnnnnnnnnnnnnnnnnnnnnnnnnnnnnnnnnnnnnnnnnnnnnnnnnnnnnnnnnnnnnnnnnnnnnnnnnnnnnnnnnnnnnnnnnnnnnnnnnnnnnnnnnnnnnnnnnnnnnnnnnnnnnnnnnnnnnnnnnnnnnnnnnnnnnnnnnnnnnnnnnnnnnnnnnnnn x failed
fails nnnnnnnnnnnnnnnnnnnnnnnnnnnnnnnnnnnnnnnnnnnnnnnnnnnnnnnnnnnnnnnnnnnnnnnnnnnnnnnnnnnnnnnnnnnnnnnnnnnnnnnnnnnnnnnnnnnnnnnnnnnnnnnnnnnnnnnnnnnnnnnnnnnnnnnnnnnnnnnnnnnnnnnnnnnnnnnnnnnnnnnnnnnnnnnnnnnnnnnnnnnnnnnnnnnnnnnnnnnnnnnnnnnnnnnnnnnnnnnnnnnnnnnnnnnnnnnnnnnnnnnnnnnnnnnnnnnnnnnnnnnnnnnnnnnnnnnnnnnn
# What has no name yet is passed over.
put halves/one 1 stored
leave halves/.share-put-0
put halves/two 22 stored
lists halves one two
absent halves/.share-put-0
put halves/.share-put-1 x failed";

// The first word of a text, and the others.
fn cut(text: &str) -> (&str, &str) {
    match text.split_once(' ') {
        Some(parts) => parts,
        None => (text, ""),
    }
}

fn put_of(word: &str) -> Option<Put> {
    match word {
        "stored" => Some(Put::Stored),
        "exists" => Some(Put::Exists),
        "failed" => Some(Put::Failed),
        _ => None,
    }
}

// Whether a put of the bytes is answered so.
fn is_put(alloc: Global, store: &mut FileStore, object: &str, words: (&str, &str)) -> bool {
    let (bytes, wanted) = words;
    let answer = put(alloc, store, object, bytes.as_bytes());
    answer.is_some() && answer == put_of(wanted)
}

// Whether the object has those bytes, one or more, and no more.
fn has(alloc: Global, store: &mut FileStore, object: &str, wanted: &[u8]) -> bool {
    let Ok(mut out) = vec![in alloc; 0u8; wanted.len()] else {
        return false;
    };
    let end = wanted.len() as u64;
    get(alloc, store, object, 0, &mut out) == Some(Got::Bytes(wanted.len()))
        && out.as_slice() == wanted
        && get(alloc, store, object, end, &mut out) == Some(Got::Bytes(0))
        && size(alloc, store, object) == Some(Measured::Size(end))
}

// Whether a piece is read so.
fn is_piece(alloc: Global, store: &mut FileStore, object: &str, words: &str) -> bool {
    let (from, words) = cut(words);
    let (count, room) = cut(words);
    let (Ok(from), Ok(count)) = (from.parse::<u64>(), count.parse::<usize>()) else {
        return false;
    };
    let mut out = *b"---";
    get(alloc, store, object, from, &mut out) == Some(Got::Bytes(count))
        && out.as_slice() == room.as_bytes()
}

// Whether reading and looking at the size are answered so.
fn is_answered(
    alloc: Global,
    store: &mut FileStore,
    object: &str,
    got: Got,
    measured: Measured,
) -> bool {
    get(alloc, store, object, 0, &mut [0u8; 4]) == Some(got)
        && size(alloc, store, object) == Some(measured)
}

// Whether a folder has those objects, with a space between each and the next.
fn lists(alloc: Global, store: &mut FileStore, dir: &str, words: &str) -> bool {
    let Some(names) = list(alloc, store, dir) else {
        return false;
    };
    let mut left = words;
    for name in names.items() {
        let (word, words) = cut(left);
        if word != name.as_str() {
            return false;
        }
        left = words;
    }
    left.is_empty()
}

// How many entries a folder of the disk has.
fn entries(rt: &HostRuntime, path: &str) -> io::Result<usize> {
    let mut count = 0usize;
    for entry in fs::read_dir(rt, path)? {
        entry?;
        count = count.saturating_add(1);
    }
    Ok(count)
}

fn has_entries(rt: &HostRuntime, path: &str, wanted: &str) -> bool {
    match entries(rt, path) {
        Ok(count) => wanted.parse::<usize>().ok() == Some(count),
        Err(_) => false,
    }
}

// Whether a step of the disk's own comes so.
fn is_made(rt: &HostRuntime, folder: &str, word: &str, below: &str, of: &str) -> bool {
    let Ok(path) = format!(in rt.alloc(); "{folder}/{below}") else {
        return false;
    };
    match word {
        "link" => symlink(rt, of, path.as_str()).is_ok(),
        "leave" => fs::write(rt, path.as_str(), b"half").is_ok(),
        "entries" => has_entries(rt, path.as_str(), of),
        _ => false,
    }
}

// Whether a line comes so.
fn holds(rt: &HostRuntime, folder: &str, store: &mut FileStore, line: &str) -> bool {
    let alloc = rt.alloc();
    let (word, words) = cut(line);
    let (object, words) = cut(words);
    match word {
        "#" => true,
        "put" => is_put(alloc, store, object, cut(words)),
        "has" => has(alloc, store, object, words.as_bytes()),
        "piece" => is_piece(alloc, store, object, words),
        "absent" => is_answered(alloc, store, object, Got::Absent, Measured::Absent),
        "fails" => is_answered(alloc, store, object, Got::Failed, Measured::Failed),
        "lists" => lists(alloc, store, object, words),
        _ => is_made(rt, folder, word, object, words),
    }
}

// The number of the first line that comes otherwise, none where there is none.
fn first_wrong(rt: &HostRuntime, folder: &str, store: &mut FileStore) -> Option<usize> {
    for (number, line) in STEPS.split('\n').enumerate() {
        if !holds(rt, folder, store, line) {
            return Some(number);
        }
    }
    None
}

// Whether an object of 1 MiB is stored and read again.
fn stores_large(alloc: Global, store: &mut FileStore) -> bool {
    match vec![in alloc; b'x'; LARGE] {
        Ok(bytes) => {
            put(alloc, store, "large", &bytes) == Some(Put::Stored)
                && has(alloc, store, "large", &bytes)
        }
        Err(_) => false,
    }
}

#[test]
fn a_folder_is_a_store(rt: HostRuntime) -> Result<(), Fail> {
    let folder = fresh_folder(&rt)?;
    let mut store = store_in(&rt, folder.as_str())?;
    assert_eq!(rt; first_wrong(&rt, folder.as_str(), &mut store), None);
    assert!(rt; stores_large(rt.alloc(), &mut store));
    fs::remove_dir_all(&rt, folder.as_str())?;
    Ok(())
}

const OBJECTS: u32 = 20;

const SIZE: usize = 400_000;

fn object_name(alloc: Global, number: u32) -> Option<Name> {
    let Ok(text) = format!(in alloc; "d/{number}") else {
        return None;
    };
    Name::of(text)
}

// How many objects were stored.
fn write_objects(alloc: Global, store: &mut FileStore, bytes: &[u8]) -> u32 {
    let mut stored = 0u32;
    if bytes.is_empty() {
        return stored;
    }
    for number in 0..OBJECTS {
        let Some(name) = object_name(alloc, number) else {
            return stored;
        };
        if matches!(store.put_absent(&name, bytes), Put::Stored) {
            stored = stored.saturating_add(1);
        }
    }
    stored
}

// Whether no object was seen that isn't whole.
fn sees_whole_objects(alloc: Global, store: &mut FileStore) -> bool {
    for number in 0..OBJECTS {
        let Some(name) = object_name(alloc, number) else {
            return false;
        };
        for _ in 0..1_000_000u32 {
            match store.size(&name) {
                Measured::Size(size) if size == SIZE as u64 => break,
                Measured::Absent => {}
                _ => return false,
            }
        }
    }
    true
}

#[test]
fn a_reader_never_sees_half_an_object(rt: HostRuntime) -> Result<(), Fail> {
    let alloc = rt.alloc();
    let folder = fresh_folder(&rt)?;
    let bytes = vec![in alloc; 7u8; SIZE]?;
    let mut writer = store_in(&rt, folder.as_str())?;
    let mut reader = store_in(&rt, folder.as_str())?;
    let (stored, whole) = thread::join(
        &rt,
        || write_objects(alloc, &mut writer, bytes.as_slice()),
        || sees_whole_objects(alloc, &mut reader),
    );
    assert!(rt; stored == OBJECTS);
    assert!(rt; whole);
    fs::remove_dir_all(&rt, folder.as_str())?;
    Ok(())
}
