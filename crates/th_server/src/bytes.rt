//! How the bytes that a server may take are divided.
ghost use Rattle.std.specs.Prelude.{◌≡◌, ◌≤◌, None, Ok, IfErr, IfOk};
ghost use Rattle.th_server.specs.Bytes.{Fits, IsLeast, as_asked, held_by};

use th_program::Standing;
use th_shared::{Room, TOGETHER};

/// What a value or an entry takes at most, with all that surrounds it. A value has at most 1,024 bytes itself.
const VALUE_BYTES: u64 = 1280;

/// What a session takes at most beside the topics: its thread, its buffers, and the lines that it has read ahead.
const SESSION_BYTES: u64 = 262_144;

/// What is left for the topics at least.
const LEAST_BYTES: u64 = 33_554_432;

/// What the topics of a server may hold.
#[derive(Debug, Drop, PartialEq, Eq)]
pub(crate) struct Division {
    /// From so many entries on a topic's history is cut.
    pub(crate) history: u64,
    /// How many entries the histories of all topics hold together. As many again may wait to be written.
    pub(crate) memory: u64,
    /// What there is room for in windows, and in traces that are told.
    pub(crate) room: Room,
}

// What is held where so many values and entries may be. Histories have at most a quarter, and as much again may wait to be written; a
// part has at most a sixteenth, and two may be written at a time; traces that are told have at most an eighth. Windows have what is left.
fn divided(how: &Standing, values: u64) -> Division
    ensures { held_by result ≤ values }
{
    let history = how.history.min(values / 16);
    let memory = how.memory.min(values / 4);
    let traces = how.at_once.saturating_mul(history + TOGETHER);
    let entries = traces.min(values / 8);
    Division {
        history,
        memory,
        room: Room {
            values: values - 2 * memory - 2 * history - entries,
            entries,
        },
    }
}

/// What the topics of such a server may hold, so that all of it, at its largest, fits into the bytes that the server may take. Where
/// these are too few for its sessions, the least that would do.
pub(crate) fn divide(how: &Standing) -> Result<Division, u64>
    ensures unbounded { how.now.memory_bytes ≡ None → result ≡ Ok (as_asked how.now) }
    ensures fits { how.now.at_once ≤ 1024 → IfOk result (Fits how.now) }
    ensures least { how.now.at_once ≤ 1024 → IfErr result (IsLeast how.now) }
{
    let Some(bytes) = how.memory_bytes else {
        return Ok(Division {
            history: how.history,
            memory: how.memory,
            room: Room::unbounded(),
        });
    };
    let sessions = how.at_once.saturating_mul(SESSION_BYTES);
    let least = sessions.saturating_add(LEAST_BYTES);
    if bytes < least {
        return Err(least);
    }
    Ok(divided(how, (bytes - sessions) / VALUE_BYTES))
}
