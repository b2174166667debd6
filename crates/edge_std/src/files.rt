// Files by their paths.
ghost use Rattle.std.specs.Io.{ReadsAtMost};

use crate::places::Bounds;
use std::alloc::Global;
use std::fs::{DirEntry, File};
use std::io::ErrorKind;
use std::os::unix::fs::FileExt;
use std::{fs, io};

/// What a store's own files are called before they have their names: this and a number.
pub(crate) const BESIDE: &str = ".share-put-";

/// Whether an error says that nothing has the path.
pub(crate) fn is_absence(kind: ErrorKind) -> bool {
    matches!(kind, ErrorKind::NotFound | ErrorKind::NotADirectory)
}

/// Whether a last segment is that of a file which has no name yet.
pub(crate) fn is_beside(segment: &str) -> bool {
    segment.starts_with(BESIDE)
}

/// Whether the last segment of a path is that of a file which has no name yet.
pub(crate) fn leads_beside(path: &str) -> bool {
    match path.rsplit_once('/') {
        Some((_, segment)) => is_beside(segment),
        None => is_beside(path),
    }
}

/// The bytes from a place on, as many as the file gives at once.
pub(crate) fn read_at(file: &File, from: u64, out: &mut [u8]) -> io::Result<usize>
    ensures { ReadsAtMost result out.new }
{
    file.read_at(out, from)
}

// Whether a regular file has a path. None has it where nothing is there, or a folder, a device or the like, or a link that
// leads to none. A link that can't be followed, since it leads in a circle or where nobody may look, leads to none.
fn has_regular(rt: &HostRuntime, path: &str) -> io::Result<bool> {
    match fs::metadata(rt, path) {
        Ok(about) => Ok(about.is_file()),
        Err(e) if is_absence(e.kind()) => Ok(false),
        Err(e) => match fs::symlink_metadata(rt, path) {
            Ok(about) if about.is_symlink() => Ok(false),
            _ => Err(e),
        },
    }
}

// Opens the regular file of a path, none where there is none. What else has the path isn't opened, since to open a FIFO
// waits for who writes it; and the open file is asked once more, since the path may have come to lead elsewhere.
fn open_regular(rt: &HostRuntime, path: &str) -> io::Result<Option<File>> {
    if !has_regular(rt, path)? {
        return Ok(None);
    }
    let file = match fs::open(rt, path) {
        Ok(file) => file,
        Err(e) if is_absence(e.kind()) => return Ok(None),
        Err(e) => return Err(e),
    };
    Ok(if file.metadata()?.is_file() {
        Some(file)
    } else {
        None
    })
}

/// Opens the file of an object below a root folder, none where there is none: no regular file has its path, or the one that was
/// opened doesn't lie where the object of that name may (`Bounds`).
pub(crate) fn open_object(rt: &HostRuntime, root: &str, name: &str) -> io::Result<Option<File>> {
    let path = format!(in rt.alloc(); "{root}/{name}")?;
    let Some(file) = open_regular(rt, path.as_str())? else {
        return Ok(None);
    };
    let lies_well = Bounds::of(rt, root)?.let_file(rt, name, &file)?;
    Ok(if lies_well { Some(file) } else { None })
}

// The name of an entry of a folder, none where it is no text, or a store's own.
fn name_in(alloc: Global, entry: io::Result<DirEntry>) -> io::Result<Option<String>> {
    let entry = match entry {
        Ok(entry) => entry,
        Err(e) if e.kind() == ErrorKind::InvalidFilename => return Ok(None),
        Err(e) => return Err(e),
    };
    if is_beside(entry.file_name()) {
        return Ok(None);
    }
    Ok(Some(String::from_str(alloc, entry.file_name())?))
}

/// The last segments of the paths directly in a folder, none where the folder isn't there. Nothing is asked of what has
/// them, which may be gone meanwhile, or be no file.
pub(crate) fn names_in(rt: &HostRuntime, alloc: Global, folder: &str) -> io::Result<Vec<String>> {
    let mut names = Vec::new(alloc);
    let entries = match fs::read_dir(rt, folder) {
        Ok(entries) => entries,
        Err(e) if is_absence(e.kind()) => return Ok(names),
        Err(e) => return Err(e),
    };
    for entry in entries {
        if let Some(name) = name_in(alloc, entry)? {
            names.push(name)?;
        }
    }
    Ok(names)
}
