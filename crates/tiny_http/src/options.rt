//! The settings by which a server reads requests, and limits its clients.
ghost use Rattle.std.specs.Prelude.{◌≡◌, None, Some, true, false, IsSome};

use tiny_http_core::framing::Profile;
use tiny_http_limits::limits::Limits;

/// How a server reads requests, and what it allows its clients. Take `open_port()` unless each client is trusted:
/// `Server::bind(rt, alloc, "0.0.0.0:8000", ServerOptions::open_port())`.
#[derive(Clone, Copy, Debug, PartialEq, Eq)]
pub struct ServerOptions {
    /// The profile under which all request heads are read.
    pub profile: Profile,
    /// The limits on clients, if there are any. Under limits the server waits and tries again after a temporary accept
    /// error, such as a lack of descriptors or a connection that its client has reset; without limits, accepting ends.
    pub limits: Option<Limits>,
    /// Whether `bind_unix` first removes the file at its path, if that is a Unix socket on which no process listens.
    pub removes_stale_file: bool,
}

impl ServerOptions {
    /// Returns the settings for untrusted clients: `Profile::Standard`, `Limits::new()`, and a stale file of a Unix
    /// socket is removed.
    pub fn open_port() -> ServerOptions
        ensures { (result.profile ≡ Profile.Standard) × IsSome result.limits × (result.removes_stale_file ≡ true) }
    {
        ServerOptions {
            profile: Profile::Standard,
            limits: Some(Limits::new()),
            removes_stale_file: true,
        }
    }

    /// Returns the settings of `Server::http`, which are the Rust crate's: `Profile::Lenient`, and no limits.
    pub fn plain() -> ServerOptions
        ensures { result ≡ record { profile = Profile.Lenient; limits = None; removes_stale_file = false } }
    {
        ServerOptions {
            profile: Profile::Lenient,
            limits: None,
            removes_stale_file: false,
        }
    }

    /// Replaces the profile.
    pub fn with_profile(self, profile: Profile) -> ServerOptions
        ensures { result ≡ record self { profile = profile } }
    {
        ServerOptions { profile, ..self }
    }

    /// Replaces the limits.
    pub fn with_limits(self, limits: Limits) -> ServerOptions
        ensures { result ≡ record self { limits = Some limits } }
    {
        ServerOptions {
            limits: Some(limits),
            ..self
        }
    }
}
