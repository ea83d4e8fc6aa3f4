//! WebSockets over `tiny_http`: the opening handshake (RFC 6455, section 4.2). A program handles the frames itself, for
//! example with `tungstenite`.
#![tactic(auto)]

pub mod handshake;
