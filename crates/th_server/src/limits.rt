//! What the system allows a server: how many files, and how large.
ghost use Rattle.std.specs.Prelude.{◌≡◌, ◌≤◌, ◌+◌, ◌*◌};

use libc::types::rlimit;
use std::io::Eprint;
use th_shared::TOGETHER;

// The standard streams, the lock, the socket twice, and of each kind of topic the file that is being written.
const OTHERS: u64 = 8;

// Linux's number of the limit on a file's bytes, for which the toolchain's library has no name.
const RLIMIT_FSIZE: i32 = 1;

// What the lines of a trace take at most, in bytes with their LF. A value has at most 1,024 bytes, a number 20 digits.
// The first line, `AT`, `BEGIN` and `END`.
const HEAD_BYTES: u64 = 128;

// `KEEP value`, for each value of the largest window.
const KEPT_BYTES: u64 = 65_536 * 1_030;

// `RX id place`, or the shorter `TX id`, for each handle that a channel may have, and the entry that ends it, `C drop-rx id` and
// `R done`: such an entry goes in whatever a history has by then.
const HANDLE_BYTES: u64 = 131_070 * (45 + 38);

// An entry: `C replace tx value` and `R shown same value`.
const ENTRY_BYTES: u64 = 1_056 + 1_038;

// How much the system allows of this; `None` where it does not say.
fn allowed(resource: i32) -> Option<u64> {
    let mut limit = rlimit {
        rlim_cur: 0,
        rlim_max: 0,
    };
    if libc::getrlimit(resource, &mut limit) < 0 {
        return None;
    }
    Some(limit.rlim_cur)
}

/// How many bytes a file may have. Past that the system ends the process that writes.
pub(crate) fn file_bytes() -> u64 {
    allowed(RLIMIT_FSIZE).unwrap_or(u64::MAX)
}

/// How many bytes the trace of a part has at most, where histories are cut at so many entries.
pub(crate) fn trace_bytes(history: u64) -> u64
    ensures { history ≤ 1000000 →
        result ≡ 128 + 65536 * 1030 + 131070 * 83 + (history + 63) * 2094 }
{
    let entries = history.saturating_add(TOGETHER);
    let picture = HEAD_BYTES + KEPT_BYTES + HANDLE_BYTES;
    picture.saturating_add(entries.saturating_mul(ENTRY_BYTES))
}

/// How many files a server has open that has so many workers. Of these one waits for a connection, which takes a descriptor of the
/// system's before anybody comes, and that is the next session's.
fn needed(workers: u64) -> u64
    ensures { workers ≤ 1025 → result ≡ workers + 8 }
{
    workers.saturating_add(OTHERS)
}

/// Tells people where it may have fewer open than it needs: then connections wait, and traces are not written, once so many are there.
pub(crate) fn tell_if_few<R: Eprint>(rt: &R, path: &str, at_once: u64, workers: u64) {
    let needed = needed(workers);
    match allowed(libc::RLIMIT_NOFILE) {
        Some(allowed) if allowed < needed => {
            let _ = eprintln!(rt;
                "topichub: {path}: {at_once} sessions at once take {needed} open files, and {allowed} are allowed"
            );
        }
        _ => {}
    }
}
