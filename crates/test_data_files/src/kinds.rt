//! The names of error kinds.
use std::io::ErrorKind;

// The error kinds that data files may name, with their names in code.
const KINDS: [(&str, ErrorKind); 19] = [
    ("AddrInUse", ErrorKind::AddrInUse),
    ("AddrNotAvailable", ErrorKind::AddrNotAvailable),
    ("AlreadyExists", ErrorKind::AlreadyExists),
    ("BrokenPipe", ErrorKind::BrokenPipe),
    ("ConnectionAborted", ErrorKind::ConnectionAborted),
    ("ConnectionRefused", ErrorKind::ConnectionRefused),
    ("ConnectionReset", ErrorKind::ConnectionReset),
    ("Interrupted", ErrorKind::Interrupted),
    ("InvalidData", ErrorKind::InvalidData),
    ("InvalidInput", ErrorKind::InvalidInput),
    ("NotConnected", ErrorKind::NotConnected),
    ("NotFound", ErrorKind::NotFound),
    ("Other", ErrorKind::Other),
    ("OutOfMemory", ErrorKind::OutOfMemory),
    ("PermissionDenied", ErrorKind::PermissionDenied),
    ("TimedOut", ErrorKind::TimedOut),
    ("UnexpectedEof", ErrorKind::UnexpectedEof),
    ("WouldBlock", ErrorKind::WouldBlock),
    ("WriteZero", ErrorKind::WriteZero),
];

/// Returns the error kind of this name, or `None` if data files may not name it.
pub fn kind_of(name: &str) -> Option<ErrorKind> {
    for (known, kind) in &KINDS {
        if *known == name {
            return Some(*kind);
        }
    }
    None
}

/// Returns the error kind at this index in the list of all kinds that data files may name, repeated endlessly.
pub fn kind_at(place: usize) -> ErrorKind {
    match KINDS.get(place % KINDS.len()) {
        Some((_, kind)) => *kind,
        None => ErrorKind::Other,
    }
}
