// The files below a folder, as a store of objects.
ghost use Rattle.std.specs.Prelude.{◌≡◌, ◌≤◌, IfOk, IfSome, None, length, true, false};
ghost use Rattle.edge_core.specs.Faults.{Cause};

use crate::{files, puts};
use edge_core::{Got, Listed, Measured, Name, Put, Segment, Segments, Store};
use std::alloc::Global;
use std::fs::File;
use std::io::ErrorKind;
use std::{fs, io};
use step_count::Steps;

// The file of the object that was read last. An object never changes, so it may stay open.
#[derive(Drop)]
struct Opened {
    name: String,
    file: File,
}

/// A store whose objects are the regular files below a root folder, each named by its path from there.
///
/// It tells nothing of them, and counts the calls that failed and the puts that stored. A folder, a FIFO, a device and a link that leads to one, in
/// a circle or nowhere is no object: to read it answers `Absent`, and never waits. Neither is a file to which links led out of the root folder; or, for a
/// name that doesn't begin with `_share_log`, into that folder, or, for a name of more segments, to what lies in the root itself. The open file is asked where
/// it lies, by `/proc/self/fd`, so that a link may be swapped at any time: without `/proc`, or where the root's real path isn't UTF-8, reads fail. A put into a folder
/// where the object couldn't lie fails, and makes nothing there. But a listing tells the name of each
/// thing in a folder, whatever it is, so that who looks for an object by its name sees that something else is there in its
/// place. A listing asks nothing of what it names, so it fails only where the folder itself can't be read; of what comes
/// while a folder is read it may tell one name and not another that came earlier.
///
/// An object is there only once it is whole: it is written and synced under a name of the store's own (`.share-put-` and a
/// number, which listings and reads pass over), then linked into its place where nothing has its name, and its folder is
/// synced. So a program that is stopped at any moment leaves no part of an object under its name. A file is opened once for
/// the pieces that are read of it one after another, and let go where another is asked for.
#[derive(Drop)]
pub struct FileStore {
    rt: HostRuntime,
    root: String,
    opened: Option<Opened>,
    faults: u64,
    stored: Steps<Put>,
}

impl FileStore {
    /// The store of the files below the folder `root`, which is there, with counts of 0.
    pub fn new(rt: HostRuntime, root: String) -> FileStore {
        FileStore {
            rt,
            root,
            opened: None,
            faults: 0,
            stored: Steps::new(),
        }
    }

    fn count_fault(&mut self)
        ensures cause { Cause self.old.faults self.new.faults true }
        ensures stored { self.new.stored ≡ self.old.stored }
    {
        self.faults = self.faults.saturating_add(1);
    }

    fn has_open(&self, name: &str) -> bool {
        match &self.opened {
            Some(opened) => opened.name.as_str() == name,
            None => false,
        }
    }

    fn open(&self, name: &str) -> io::Result<Option<Opened>> {
        if files::leads_beside(name) {
            return Ok(None);
        }
        let Some(file) = files::open_object(&self.rt, self.root.as_str(), name)? else {
            return Ok(None);
        };
        let name = String::from_str(self.rt.alloc(), name)?;
        Ok(Some(Opened { name, file }))
    }

    // The bytes of an object from a place on, none where there is no such object.
    fn read(&mut self, name: &str, from: u64, out: &mut [u8]) -> io::Result<Option<usize>>
        ensures most { IfOk result (λ o. IfSome o (λ n. n ≤ length out.new)) }
        ensures faults { self.new.faults ≡ self.old.faults }
        ensures stored { self.new.stored ≡ self.old.stored }
    {
        if !self.has_open(name) {
            self.opened = None;
            self.opened = self.open(name)?;
        }
        match &self.opened {
            Some(opened) => Ok(Some(files::read_at(&opened.file, from, out)?)),
            None => Ok(None),
        }
    }

    // How many bytes an object has. Its file is opened anew, and stays open for who reads it next.
    fn measure(&mut self, name: &str) -> io::Result<Option<u64>>
        ensures faults { self.new.faults ≡ self.old.faults }
        ensures stored { self.new.stored ≡ self.old.stored }
    {
        self.opened = None;
        self.opened = self.open(name)?;
        match &self.opened {
            Some(opened) => Ok(Some(opened.file.metadata()?.len())),
            None => Ok(None),
        }
    }

    fn store(&self, name: &str, bytes: &[u8]) -> io::Result<bool> {
        if files::leads_beside(name) {
            return Err(io::Error::from(ErrorKind::InvalidFilename));
        }
        puts::store(&self.rt, self.root.as_str(), name, bytes)
    }

    fn segments(&self, alloc: Global, dir: &str) -> io::Result<Vec<Segment>> {
        let mut segments = Vec::new(alloc);
        let path = format!(in alloc; "{}/{dir}", self.root.as_str())?;
        for name in files::names_in(&self.rt, alloc, path.as_str())? {
            if let Some(segment) = Segment::of(name) {
                segments.push(segment)?;
            }
        }
        segments.sort_by(|a, b| a.as_str().cmp(b.as_str()))?;
        Ok(segments)
    }
}

impl Store for FileStore {
    ghost objects = { λ _. None };

    ghost alone = { λ _. false };

    ghost faults = { λ s. s.faults };

    ghost stored = { λ s. s.stored };

    fn get(&mut self, name: &Name, from: u64, out: &mut [u8]) -> Got {
        match self.read(name.as_str(), from, out) {
            Ok(Some(0)) => {
                self.opened = None;
                Got::Bytes(0)
            }
            Ok(Some(n)) => Got::Bytes(n),
            Ok(None) => Got::Absent,
            Err(_) => {
                self.opened = None;
                self.count_fault();
                Got::Failed
            }
        }
    }

    fn size(&mut self, name: &Name) -> Measured {
        match self.measure(name.as_str()) {
            Ok(Some(size)) => Measured::Size(size),
            Ok(None) => Measured::Absent,
            Err(_) => {
                self.count_fault();
                Measured::Failed
            }
        }
    }

    fn put_absent(&mut self, name: &Name, bytes: &[u8]) -> Put {
        match self.store(name.as_str(), bytes) {
            Ok(true) => {
                self.stored.tick();
                Put::Stored
            }
            Ok(false) => Put::Exists,
            Err(_) => {
                self.count_fault();
                Put::Failed
            }
        }
    }

    // A folder is read name after name while others add to it.
    fn lists_at_once(&self) -> bool {
        false
    }

    fn list(&mut self, alloc: Global, dir: &Name) -> Listed {
        match self.segments(alloc, dir.as_str()) {
            Ok(names) => Listed::Names(Segments::of(names)),
            Err(e) if e.kind() == ErrorKind::OutOfMemory => Listed::NoMemory,
            Err(_) => {
                self.count_fault();
                Listed::Failed
            }
        }
    }
}
