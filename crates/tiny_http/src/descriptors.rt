//! Whether the process may open as many descriptors as a server's limit on connections needs.
ghost use Rattle.std.specs.Prelude.{◌≢◌, ◌<◌, ◌+◌, ◌-◌, ◌^◌, IfSome};

use libc::types::rlimit;
use libc::{RLIMIT_NOFILE, getrlimit};

// Number of connections up to which the system is assumed to allow enough descriptors: most systems allow a process
// 1,024.
const ORDINARY: usize = 1_000;

// Number of descriptors that a process needs beside those of its connections: three standard streams, a server's four,
// and three of a call to `serve`.
const OTHERS: u64 = 10;

/// Returns the maximum number of descriptors of the process (`ulimit -n`), if it is too small for this number of
/// connections. Returns `None` for at most 1,000 connections, for `usize::MAX`, which means no limit, and if the system
/// doesn't tell the maximum.
pub(crate) fn too_few_descriptors(connections: usize) -> Option<u64>
    ensures { IfSome result
        (λ most. (1000 < connections) × (connections ≢ 2 ^ 64 - 1) × (most < connections + 10)) }
{
    if connections <= ORDINARY || connections == usize::MAX {
        return None;
    }
    let mut limit = rlimit {
        rlim_cur: 0,
        rlim_max: 0,
    };
    if getrlimit(RLIMIT_NOFILE, &mut limit) != 0 {
        return None;
    }
    let most = limit.rlim_cur;
    if (connections as u64).saturating_add(OTHERS) <= most {
        return None;
    }
    Some(most)
}
