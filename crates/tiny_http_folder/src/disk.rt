//! The system calls that serving files needs, as a trait that is independent of `Files`: a handler that is generic over
//! `Files` can't be shared between threads.
ghost use Rattle.std.specs.Prelude.{◌≡◌, length, None, Ok};
ghost use Rattle.tiny_http_io.specs.Device.{Reads};

use std::alloc::{AllocGlobal, Global};
use std::fs::{File, Files, Metadata, OpenFile};
use std::io::ErrorKind;
use std::os::unix::fs::FileExt;
use std::time::{SystemTime, UNIX_EPOCH};
use std::{fs, io};
use tiny_http_wire::device::ReadDevice;

/// The kind of an entry in the file system.
#[derive(Clone, Copy, Debug, PartialEq, Eq)]
pub enum Kind {
    /// A regular file.
    File,
    /// A folder.
    Folder,
    /// Anything else, such as a pipe or a device.
    Other,
}

/// What is known of an entry in the file system.
#[derive(Clone, Copy, Debug)]
pub struct Entry {
    /// What the entry is.
    pub kind: Kind,
    /// The length of a file, in bytes.
    pub length: u64,
    /// The modification time, or the beginning of 1970 if it isn't known or is earlier.
    pub modified: SystemTime,
}

impl Entry {
    // Returns what the metadata say.
    fn of(metadata: &Metadata) -> Entry {
        let kind = if metadata.is_file() {
            Kind::File
        } else if metadata.is_dir() {
            Kind::Folder
        } else {
            Kind::Other
        };
        Entry {
            kind,
            length: metadata.len(),
            modified: metadata.modified().unwrap_or(UNIX_EPOCH),
        }
    }
}

/// The files that a handler reads. Each runtime is a `Disk`; paths are those of `std::fs`.
pub trait Disk {
    /// Opens a file for reading, and returns what is known of it once it is open. Opening a pipe may block, so call
    /// `entry` before. Fails as `File::open` does.
    fn open_file(&self, path: &str) -> io::Result<(File, Entry)>;

    /// Returns what is known of the entry with this path, following links. Fails if there is no such entry.
    fn entry(&self, path: &str) -> io::Result<Entry>;

    /// Returns the canonical path, with links resolved. Fails if there is no such entry, and with `InvalidData` if the
    /// path isn't UTF-8.
    fn real_path(&self, alloc: Global, path: &str) -> io::Result<String>;

    /// Returns the names of a folder's entries, sorted. Skips entries that can't be read or whose names aren't UTF-8.
    /// Fails if the folder can't be read, or memory can't be allocated.
    fn names_in(&self, alloc: Global, path: &str) -> io::Result<Vec<String>>;
}

impl<R: Files<File = File> + AllocGlobal + Copy> Disk for R {
    fn open_file(&self, path: &str) -> io::Result<(File, Entry)> {
        let file = File::open(self, path)?;
        let entry = Entry::of(&file.metadata()?);
        Ok((file, entry))
    }

    fn entry(&self, path: &str) -> io::Result<Entry> {
        Ok(Entry::of(&fs::metadata(self, path)?))
    }

    fn real_path(&self, alloc: Global, path: &str) -> io::Result<String> {
        let real = fs::canonicalize(self, path)?;
        match real.as_path().to_str() {
            Some(text) => Ok(String::from_str(alloc, text)?),
            None => Err(ErrorKind::InvalidData.into()),
        }
    }

    fn names_in(&self, alloc: Global, path: &str) -> io::Result<Vec<String>> {
        let mut names = Vec::new(alloc);
        for entry in fs::read_dir(self, path)? {
            match entry {
                Ok(entry) => names.push(String::from_str(alloc, entry.file_name())?)?,
                Err(fault) if fault.kind() == ErrorKind::OutOfMemory => return Err(fault),
                Err(_) => {}
            }
        }
        names.sort()?;
        Ok(names)
    }
}

/// A part of an open file, as the data of a response.
#[derive(Drop)]
pub struct FilePart {
    file: File,
    position: u64,
    left: u64,
}

impl FilePart {
    /// Makes a reader of the `length` bytes from position `start` on.
    pub fn new(file: File, start: u64, length: u64) -> FilePart {
        FilePart {
            file,
            position: start,
            left: length,
        }
    }

    /// Returns the number of bytes to be read.
    pub fn left(&self) -> u64 {
        self.left
    }

    /// Continues with the `length` bytes from position `start` on.
    pub fn seek(&mut self, start: u64, length: u64) {
        self.position = start;
        self.left = length;
    }
}

impl ReadDevice for FilePart {
    /// Reads once, at the current position. Fails with `UnexpectedEof` if the file has become shorter than the part.
    fn read_in(&mut self, buf: &mut [u8]) -> Result<usize, io::Error>
        ensures reads { Reads None None result buf.new }
        ensures empty { length buf.new ≡ 0 → (result ≡ Ok 0) × (self.new ≡ self.old) }
    {
        let most = buf.len().min(self.left as usize);
        if most == 0 {
            return Ok(0);
        }
        let n = self.file.read_at(&mut buf[..most], self.position)?;
        if n == 0 {
            return Err(ErrorKind::UnexpectedEof.into());
        }
        self.position = self.position.saturating_add(n as u64);
        self.left = self.left.saturating_sub(n as u64);
        Ok(n)
    }
}
