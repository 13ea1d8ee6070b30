//! A new file. Where its path has nothing or a regular file, it is written beside the path and takes that name once it is whole: until then
//! an old file stands there.

ghost use Rattle.std.specs.Prelude.{IsSome, OnOk};
ghost use Rattle.std.specs.Io.{WritesAtMost};

use std::alloc::AllocError;
use std::fs::{File, Metadata, OpenOptions, Permissions};
use std::io::{ErrorKind, Write};
use std::os::unix::fs::{MetadataExt, OpenOptionsExt};
use std::{fs, io, process};

// The rights of a file that nobody but its owner may read.
const CLOSED: u32 = 0o600;

// The rights that a new file has, but for those that the system takes off.
const OPEN: u32 = 0o666;

// What stands at the path of a new file.
#[derive(Drop)]
enum Site {
    // Nothing.
    Free,
    // A regular file.
    Old(Metadata),
    // A pipe or a device, which takes the bytes as they come.
    Stream,
    // Nothing can be made there.
    Refused(io::Error),
}

// A new file, before and while it is written.
#[derive(Drop)]
pub struct NewFile {
    rt: HostRuntime,
    site: Site,
    path: String,
    // Its name until it is whole, which ends with a digit.
    name: String,
    file: Option<File>,
}

// Whether both are one file.
fn is_same(one: &Metadata, other: &Metadata) -> bool {
    one.dev() == other.dev() && one.ino() == other.ino()
}

// What stands at the end of the path, which is not to be the file that is read.
fn end_of(rt: &HostRuntime, path: &str, read: &str) -> Site {
    match fs::metadata(rt, path) {
        Ok(old) if !old.is_file() => Site::Stream,
        Ok(old) => match fs::metadata(rt, read) {
            Ok(source) if is_same(&old, &source) => {
                Site::Refused(io::Error::other("it is the file that is read"))
            }
            Err(error) if error.kind() != ErrorKind::NotFound => Site::Refused(error),
            _ => Site::Old(old),
        },
        // A link to nothing is followed.
        Err(error) if error.kind() == ErrorKind::NotFound => Site::Stream,
        Err(error) => Site::Refused(error),
    }
}

// What stands at the path. Those below /dev and /proc stand for what is open already.
fn site_of(rt: &HostRuntime, path: &str, read: &str) -> Site {
    if path.is_empty() || path.starts_with("/dev/") || path.starts_with("/proc/") {
        return Site::Stream;
    }
    match fs::symlink_metadata(rt, path) {
        Ok(_) => end_of(rt, path, read),
        Err(error) if error.kind() == ErrorKind::NotFound => Site::Free,
        Err(error) => Site::Refused(error),
    }
}

// The path of a regular file without links.
fn without_links(rt: &HostRuntime, path: &str) -> Result<String, AllocError> {
    match fs::canonicalize(rt, path) {
        Ok(end) => String::from_str(rt.alloc(), end.as_str()),
        Err(error) if error.kind() == ErrorKind::OutOfMemory => Err(AllocError),
        Err(_) => String::from_str(rt.alloc(), path),
    }
}

// A name in the folder of the path.
fn name_beside(rt: &HostRuntime, path: &str) -> Result<String, AllocError> {
    let id = process::id(rt.process());
    match path.rsplit_once('/') {
        Some((folder, _)) => format!(in rt.alloc(); "{folder}/.daq-{id}-new-0"),
        None => format!(in rt.alloc(); ".daq-{id}-new-0"),
    }
}

impl NewFile {
    // A new file at a path, which is not to be the file that is read. All memory that it needs is taken here.
    pub(crate) fn new(rt: &HostRuntime, path: &str, read: &str) -> Result<NewFile, AllocError> {
        let site = site_of(rt, path, read);
        let path = match &site {
            Site::Old(_) => without_links(rt, path)?,
            _ => String::from_str(rt.alloc(), path)?,
        };
        Ok(NewFile {
            rt: rt.clone()?,
            site,
            name: name_beside(rt, path.as_str())?,
            path,
            file: None,
        })
    }

    // Whether it is made.
    pub(crate) fn is_made(&self) -> bool {
        self.file.is_some()
    }

    // Makes it, where that is not done yet.
    pub(crate) fn open(&mut self) -> io::Result<()>
        ensures { OnOk result (IsSome self.new.file) }
    {
        if self.file.is_none() {
            self.file = Some(self.make()?);
        }
        Ok(())
    }

    // Makes it: at its path, or beside it. An old file has to be one that may be written.
    fn make(&mut self) -> io::Result<File> {
        let rights = match &self.site {
            Site::Refused(error) => return Err(*error),
            Site::Stream => return fs::create(&self.rt, self.path.as_str()),
            Site::Free => None,
            Site::Old(old) => Some(old.permissions()),
        };
        match rights {
            Some(rights) => {
                OpenOptions::new()
                    .write(true)
                    .open(&self.rt, self.path.as_str())?;
                let file = self.make_beside(CLOSED)?;
                self.with_rights(file, rights)
            }
            None => self.make_beside(OPEN),
        }
    }

    // The file with the rights of the old one; it is removed where it cannot have them.
    fn with_rights(&self, file: File, rights: Permissions) -> io::Result<File> {
        match file.set_permissions(rights) {
            Ok(()) => Ok(file),
            Err(error) => {
                self.remove();
                Err(error)
            }
        }
    }

    // Makes a file beside the path, under the first name that is free.
    fn make_beside(&mut self, mode: u32) -> io::Result<File> {
        for digit in ['0', '1', '2', '3', '4', '5', '6', '7', '8', '9'] {
            let _last = self.name.pop();
            self.name.push(digit)?;
            let mut options = OpenOptions::new();
            options.write(true).create_new(true);
            options.mode(mode);
            match options.open(&self.rt, self.name.as_str()) {
                Err(error) if error.kind() == ErrorKind::AlreadyExists => {}
                made => return made,
            }
        }
        Err(io::Error::from(ErrorKind::AlreadyExists))
    }

    // Writes bytes of the piece, once it is made.
    pub(crate) fn write(&mut self, piece: &[u8]) -> io::Result<usize>
        ensures bound { WritesAtMost result piece.now }
        ensures made { IsSome self.old.file → IsSome self.new.file }
    {
        match &mut self.file {
            Some(file) => file.write(piece),
            None => Ok(0),
        }
    }

    // Waits until the disk has it, and gives it its name; where that fails, removes it.
    pub(crate) fn keep(self) -> io::Result<()> {
        let kept = self.take_name();
        if kept.is_err() {
            self.remove();
        }
        kept
    }

    fn take_name(&self) -> io::Result<()> {
        match (&self.site, &self.file) {
            (Site::Free | Site::Old(_), Some(file)) => {
                file.sync_all()?;
                fs::rename(&self.rt, self.name.as_str(), self.path.as_str())
            }
            _ => Ok(()),
        }
    }

    // Gives it up: what is written of it beside its path is removed.
    pub(crate) fn give_up(self) {
        match (&self.site, &self.file) {
            (Site::Free | Site::Old(_), Some(_)) => self.remove(),
            _ => {}
        }
    }

    // Removes what stands under its first name, where the system lets that be done.
    fn remove(&self) {
        let _removed = fs::remove_file(&self.rt, self.name.as_str());
    }
}
