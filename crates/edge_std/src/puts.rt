// How objects come to be below a root folder. Each folder on the way is open, and what is done in it is done by its descriptor: so a
// name that comes to lead elsewhere leads nothing there.
use crate::files::{BESIDE, open_object};
use crate::places::Bounds;
use std::alloc::AllocError;
use std::fs::{File, OpenOptions};
use std::io::{ErrorKind, Write};
use std::os::fd::AsRawFd;
use std::{fs, io};

// The path of what has a name in an open folder.
fn path_in(rt: &HostRuntime, folder: &File, segment: &str) -> Result<String, AllocError> {
    format!(in rt.alloc(); "/proc/self/fd/{}/{segment}", folder.as_raw_fd())
}

// Makes a folder in an open one where nothing has its name. It is as lasting as what is written.
fn make_folder(rt: &HostRuntime, folder: &File, segment: &str) -> io::Result<()> {
    match fs::create_dir(rt, path_in(rt, folder, segment)?.as_str()) {
        Ok(()) => {}
        Err(e) if e.kind() == ErrorKind::AlreadyExists => {}
        Err(e) => return Err(e),
    }
    folder.sync_all()
}

// Opens a folder in an open one, and makes it where nothing has its name. Behind `/.` only a folder can be opened, so no FIFO is
// waited for.
fn open_or_make(rt: &HostRuntime, folder: &File, segment: &str) -> io::Result<File> {
    let path = format!(in rt.alloc(); "/proc/self/fd/{}/{segment}/.", folder.as_raw_fd())?;
    match fs::open(rt, path.as_str()) {
        Err(e) if e.kind() == ErrorKind::NotFound => {}
        answer => return answer,
    }
    make_folder(rt, folder, segment)?;
    fs::open(rt, path.as_str())
}

// The next folder on the way to an object. One that doesn't lie where the object may is an error.
fn enter(
    rt: &HostRuntime,
    bounds: &Bounds,
    name: &str,
    folder: &File,
    segment: &str,
) -> io::Result<File> {
    let inner = open_or_make(rt, folder, segment)?;
    if bounds.let_folder(rt, name, &inner)? {
        Ok(inner)
    } else {
        Err(io::Error::from(ErrorKind::PermissionDenied))
    }
}

// Opens the folder of an object below a root folder, and makes it and those between where they aren't there.
fn open_folder(rt: &HostRuntime, root: &str, name: &str) -> io::Result<File> {
    let bounds = Bounds::of(rt, root)?;
    let mut folder = fs::open(rt, root)?;
    if let Some((folders, _)) = name.rsplit_once('/') {
        for segment in folders.split('/') {
            folder = enter(rt, &bounds, name, &folder, segment)?;
        }
    }
    Ok(folder)
}

// A new file in a folder, under the first name of its kind that is free.
fn create_beside(rt: &HostRuntime, folder: &File) -> io::Result<(String, File)> {
    for number in 0..u64::MAX {
        let path = format!(in rt.alloc(); "/proc/self/fd/{}/{BESIDE}{number}", folder.as_raw_fd())?;
        match OpenOptions::new()
            .write(true)
            .create_new(true)
            .open(rt, path.as_str())
        {
            Ok(file) => return Ok((path, file)),
            Err(e) if e.kind() == ErrorKind::AlreadyExists => {}
            Err(e) => return Err(e),
        }
    }
    Err(io::Error::from(ErrorKind::AlreadyExists))
}

fn write_all(mut file: File, bytes: &[u8]) -> io::Result<()> {
    file.write_all(bytes)?;
    file.sync_all()
}

// The last segment of a name.
fn last_of(name: &str) -> &str {
    match name.rsplit_once('/') {
        Some((_, last)) => last,
        None => name,
    }
}

// Gives the file of a path the name of an object in its folder, where nothing has it; false where the object is there. What else has
// the name is an error.
fn link(rt: &HostRuntime, root: &str, name: &str, folder: &File, from: &str) -> io::Result<bool> {
    let to = path_in(rt, folder, last_of(name))?;
    match fs::hard_link(rt, from, to.as_str()) {
        Ok(()) => Ok(true),
        Err(e) if e.kind() == ErrorKind::AlreadyExists && open_object(rt, root, name)?.is_some() =>
            { Ok(false) }
        Err(e) => Err(e),
    }
}

// Writes a file under a name of the store's own, gives it the object's name where nothing has that, and
// removes the other name, also after a failure.
fn write_and_link(
    rt: &HostRuntime,
    root: &str,
    name: &str,
    folder: &File,
    bytes: &[u8],
) -> io::Result<bool> {
    let (beside, file) = create_beside(rt, folder)?;
    let linked = match write_all(file, bytes) {
        Ok(()) => link(rt, root, name, folder, beside.as_str()),
        Err(e) => Err(e),
    };
    fs::remove_file(rt, beside.as_str())?;
    linked
}

/// Stores an object of these bytes below a root folder where nothing has its name; false where the object is there. The file has
/// its name only once it is whole and on the disk, so no reader sees a part of it, whenever the program is stopped. Where a link leads to a
/// folder in which the object may not lie, that is an error, and nothing is made there.
pub(crate) fn store(rt: &HostRuntime, root: &str, name: &str, bytes: &[u8]) -> io::Result<bool> {
    if open_object(rt, root, name)?.is_some() {
        return Ok(false);
    }
    let folder = open_folder(rt, root, name)?;
    let stored = write_and_link(rt, root, name, &folder, bytes)?;
    if stored {
        folder.sync_all()?;
    }
    Ok(stored)
}
