//! The errors of `accept` that are temporary.
use std::io;

// Linux errno values for temporary errors: a firewall rule (EPERM), a signal (EINTR), out of memory (ENOMEM, ENOBUFS),
// out of descriptors in the system (ENFILE) or the process (EMFILE), and errors of a connection before it was accepted
// (ENONET, EPROTO, ENOPROTOOPT, EOPNOTSUPP, ENETDOWN, ENETUNREACH, ECONNABORTED, ECONNRESET, ETIMEDOUT, EHOSTDOWN,
// EHOSTUNREACH).
const PASSING: [i32; 17] = [
    1, 4, 12, 23, 24, 64, 71, 92, 95, 100, 101, 103, 104, 105, 110, 112, 113,
];

/// Returns whether accepting may continue after this error.
pub(crate) fn passes(fault: &io::Error) -> bool {
    match fault.raw_os_error() {
        Some(number) => PASSING.contains(&number),
        None => false,
    }
}
