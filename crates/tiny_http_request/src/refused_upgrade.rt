//! The outcomes of an upgrade: a stream, or a request that can still be answered.
use crate::request::Request;
use std::io::{Read, Write};
use std::sync::Wait;
use tiny_http_io::custom_stream::CustomStream;
use tiny_http_io::device::{ReadDevice, WriteDevice};
use tiny_http_open_request::upgrading::UpgradeError;

/// A stream to read from and to write to.
pub trait ReadWrite: Read + Write {}

impl<R: ReadDevice, W: WriteDevice> ReadWrite for CustomStream<R, W> {}

/// A refused upgrade: the reason, and the request, unchanged.
#[derive(Drop)]
pub struct RefusedUpgrade<R: ReadDevice + Drop, W: WriteDevice + Drop, Rt: Wait + Drop> {
    /// The reason for the refusal.
    pub error: UpgradeError,
    /// The request, which can still be answered.
    pub request: Request<R, W, Rt>,
}
