//! Serving the files of a folder, with conditional requests, ranges, indexes and listings (RFC 9110, sections 13 and
//! 14). `Folder::answer` answers a request by its path; `send_file` sends one file, for a program with its own paths.
//! `disk` has the system calls. What doesn't touch files is in `tiny_http_files`.
#![tactic(auto)]

pub mod disk;
pub mod folder;
mod multipart;
pub mod sending;

pub use crate::folder::Folder;
pub use crate::sending::{send_file, send_file_as};
