//! The command line and the exit status of a program that checks files.
use crate::fault::FilesFault;
use std::alloc::{AllocError, Global};
use std::io::{ErrorKind, Write};
use std::rt::{Env, Files};
use std::{env, fs};

/// A file named on the command line, and its content.
#[derive(Drop)]
pub struct NamedFile<'a> {
    pub name: &'a str,
    pub bytes: Vec<u8>,
}

/// A check of the files named on a program's command line.
pub trait Checker {
    /// Checks the files. Must parse all of them before it runs anything in them. Returns whether nothing differs.
    fn check<'a, O: Write>(
        &mut self,
        alloc: Global,
        files: &[NamedFile<'a>],
        out: &mut O,
    ) -> Result<bool, FilesFault<'a>>;
}

// Reads the file of this name.
fn read_file<'a, R: Files + AllocGlobal>(
    rt: &R,
    name: &'a str,
) -> Result<NamedFile<'a>, FilesFault<'a>> {
    match fs::read(rt, name) {
        Ok(bytes) => Ok(NamedFile { name, bytes }),
        Err(fault) if fault.kind() == ErrorKind::OutOfMemory => Err(FilesFault::OutOfMemory),
        Err(_) => Err(FilesFault::CannotRead(name)),
    }
}

// Reads the files that the command line names after the program's name. Fails with `Usage` if it names none.
fn read_files<'a, R: Files + AllocGlobal>(
    rt: &R,
    words: &'a [String],
) -> Result<Vec<NamedFile<'a>>, FilesFault<'a>> {
    let mut files = Vec::new(rt.alloc());
    for name in words.iter().skip(1) {
        let file = read_file(rt, name.as_str())?;
        files.push(file).map_err(AllocError::from)?;
    }
    if files.is_empty() {
        return Err(FilesFault::Usage);
    }
    Ok(files)
}

// Returns the words of the command line, with the program's name first. Fails with `Usage` if one is not UTF-8.
fn words<R: Env + AllocGlobal>(rt: &R) -> Result<Vec<String>, FilesFault<'static>> {
    match env::args(rt) {
        Ok(words) => Ok(words.collect(rt.alloc())?),
        Err(fault) if fault.kind() == ErrorKind::OutOfMemory => Err(FilesFault::OutOfMemory),
        Err(_) => Err(FilesFault::Usage),
    }
}

// Prints one line for an error, beginning with the program's name. Returns the exit status: that of the error, or that
// of `CannotWrite` if the line can't be printed.
fn report<E: Write>(program: &str, fault: &FilesFault<'_>, err: &mut E) -> u8 {
    match writeln!(err, "{program}: {fault}") {
        Ok(()) => fault.status(),
        Err(_) => FilesFault::CannotWrite.status(),
    }
}

/// Checks the files named on the command line, and returns the exit status: 0 if nothing differs, and 3 if something
/// does. After an error, prints one line to `err`. The status is then 2 if the command line or a file is invalid, in
/// which case nothing was run, and 1 if a file can't be read, memory can't be allocated, or `out` or `err` can't be
/// written to.
pub fn run_program<R: Env + Files + AllocGlobal, C: Checker, O: Write, E: Write>(
    rt: &R,
    program: &str,
    checker: &mut C,
    out: &mut O,
    err: &mut E,
) -> u8 {
    let words = match words(rt) {
        Ok(words) => words,
        Err(fault) => return report(program, &fault, err),
    };
    let files = match read_files(rt, words.as_slice()) {
        Ok(files) => files,
        Err(fault) => return report(program, &fault, err),
    };
    match checker.check(rt.alloc(), files.as_slice(), out) {
        Ok(true) => 0,
        Ok(false) => 3,
        Err(fault) => report(program, &fault, err),
    }
}
