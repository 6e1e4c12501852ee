//! The host's files.

use crate::waiting::Waiting;
use program::Folder;
use std::fs::{self, File};
use std::io::{self, Read, StdinLock};
use std::os::unix::fs::MetadataExt;

/// The files of the host, by their paths; of those that are read `-` is standard input. What they hold is known to no clause.
#[derive(Clone, Copy)]
pub struct Disk<'a> {
    rt: &'a HostRuntime,
}

impl<'a> Disk<'a> {
    /// The files that the host's runtime reaches.
    pub fn new(rt: &'a HostRuntime) -> Self {
        Disk { rt }
    }
}

/// What is read: a file, or standard input.
#[derive(Drop)]
pub enum Opened {
    /// A file.
    File(File),
    /// Standard input.
    Input(StdinLock<'static>),
}

impl Read for Opened {
    fn read(&mut self, buffer: &mut [u8]) -> io::Result<usize> {
        match self {
            Opened::File(file) => file.read(buffer),
            Opened::Input(input) => input.read(buffer),
        }
    }
}

/// The folder of a file's name, and its name there.
fn parted(name: &str) -> (&str, &str) {
    match name.rsplit_once('/') {
        Some(("", last)) => ("/", last),
        Some((folder, last)) => (folder, last),
        None => (".", name),
    }
}

impl Disk<'_> {
    /// Whether two names of files that aren't there are one name in one folder.
    fn is_same_place(&self, name: &str, other: &str) -> bool {
        let (name, other) = (parted(name), parted(other));
        name.1 == other.1
            && match (
                fs::metadata(self.rt, name.0),
                fs::metadata(self.rt, other.0),
            ) {
                (Ok(one), Ok(two)) => one.dev() == two.dev() && one.ino() == two.ino(),
                _ => false,
            }
    }
}

impl<'a> Folder for Disk<'a> {
    type Opened = Opened;

    type Made = File;

    type Waiting = Waiting<'a>;

    fn is_same(&self, name: &str, other: &str) -> bool {
        match (fs::metadata(self.rt, name), fs::metadata(self.rt, other)) {
            // Nothing of a device, as /dev/null, is lost.
            (Ok(one), Ok(two)) => {
                one.is_file() && one.dev() == two.dev() && one.ino() == two.ino()
            }
            (Err(_), Err(_)) => self.is_same_place(name, other),
            _ => false,
        }
    }

    fn open(&self, name: &str) -> io::Result<Opened> {
        if name == "-" {
            return Ok(Opened::Input(self.rt.reader()));
        }
        let file = fs::open(self.rt, name)?;
        // The system opens a directory, and refuses to read it.
        if file.metadata()?.is_dir() {
            return Err(io::Error::from(io::ErrorKind::IsADirectory));
        }
        Ok(Opened::File(file))
    }

    fn make(&mut self, name: &str) -> io::Result<File> {
        File::create(self.rt, name)
    }

    fn waiting(&self, is_quiet: bool) -> Waiting<'a> {
        Waiting::new(self.rt, is_quiet)
    }

    fn close(&mut self, _name: &str, file: File) {
        drop(file);
    }
}
