//! What serving files needs that doesn't touch files: whether a path stays within the folder (`paths`), how a request
//! with conditions or ranges is answered (`conditions`, over `tags`, `dates` and `ranges`), the media type of a file
//! (`types`), and the listing of a folder (`listing`). `tiny_http_folder` serves files with it.
#![tactic(auto)]

pub mod conditions;
pub mod dates;
pub mod laws;
pub mod listing;
pub mod paths;
pub mod ranges;
pub mod tags;
pub mod types;
