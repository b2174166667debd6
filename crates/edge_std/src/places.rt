// Where open files lie. A link may have led a name anywhere, so the descriptor is asked, which no later change of a name leads
// elsewhere.
use crate::files::is_absence;
use std::fs::File;
use std::io::ErrorKind;
use std::os::fd::AsRawFd;
use std::path::PathBuf;
use std::{fs, io};

// The folder below a root that holds the owner's records and keys.
const OWN: &str = "_share_log";

/// The real paths of a store's root folder and of `_share_log` in it, none where that isn't there.
#[derive(Drop)]
pub(crate) struct Bounds {
    root: PathBuf,
    own: Option<PathBuf>,
}

// Whether a name leads into the owner's folder.
fn is_own(name: &str) -> bool {
    match name.split_once('/') {
        Some((first, _)) => first == OWN,
        None => name == OWN,
    }
}

// Whether a real path is that of a folder, or leads below it.
fn is_within(path: &str, folder: &str) -> bool {
    match path.strip_prefix(folder.strip_suffix('/').unwrap_or(folder)) {
        Some(rest) => rest.is_empty() || rest.starts_with('/'),
        None => false,
    }
}

// The real path of the owner's folder.
fn own_in(rt: &HostRuntime, root: &str) -> io::Result<Option<PathBuf>> {
    let path = format!(in rt.alloc(); "{root}/{OWN}")?;
    match fs::canonicalize(rt, path.as_str()) {
        Ok(own) => Ok(Some(own)),
        Err(e) if is_absence(e.kind()) => Ok(None),
        Err(e) => Err(e),
    }
}

// The path at which the system has an open file, none where that is no text.
fn path_of(rt: &HostRuntime, file: &File) -> io::Result<Option<PathBuf>> {
    let link = format!(in rt.alloc(); "/proc/self/fd/{}", file.as_raw_fd())?;
    match fs::read_link(rt, link.as_str()) {
        Ok(path) => Ok(Some(path)),
        Err(e) if e.kind() == ErrorKind::InvalidFilename => Ok(None),
        Err(e) => Err(e),
    }
}

impl Bounds {
    /// The real paths as they are now.
    pub(crate) fn of(rt: &HostRuntime, root: &str) -> io::Result<Bounds> {
        Ok(Bounds {
            root: fs::canonicalize(rt, root)?,
            own: own_in(rt, root)?,
        })
    }

    fn is_in_own(&self, folder: &str) -> bool {
        match &self.own {
            Some(own) => is_within(folder, own.as_str()),
            None => false,
        }
    }

    // Whether what lies in the folder of a real path can be the object of a name: it is below the root; and for names that don't
    // lead into the owner's folder it lies outside of that, and, unless the name is of one segment, not in the root itself, where
    // an owner may keep tokens.
    fn lets(&self, name: &str, folder: &str) -> bool {
        let root = self.root.as_str();
        if !is_within(folder, root) {
            return false;
        }
        is_own(name) || (!self.is_in_own(folder) && (!name.contains('/') || folder != root))
    }

    /// Whether an open file lies where the object of a name may.
    pub(crate) fn let_file(&self, rt: &HostRuntime, name: &str, file: &File) -> io::Result<bool> {
        let Some(path) = path_of(rt, file)? else {
            return Ok(false);
        };
        match path.as_str().rsplit_once('/') {
            Some((folder, _)) => Ok(self.lets(name, folder)),
            None => Ok(false),
        }
    }

    /// Whether the object of a name may lie in an open folder.
    pub(crate) fn let_folder(
        &self,
        rt: &HostRuntime,
        name: &str,
        folder: &File,
    ) -> io::Result<bool> {
        match path_of(rt, folder)? {
            Some(path) => Ok(self.lets(name, path.as_str())),
            None => Ok(false),
        }
    }
}
