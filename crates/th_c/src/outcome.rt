//! Why a call through a handle was not made.
ghost use Rattle.std.specs.Prelude.{◌≡◌};
ghost use Rattle.th_c.specs.Outcomes.{code_of, reply_of};

use crate::reply::Reply;
use crate::status;

/// Why a call was not made. Nothing has changed.
#[derive(Clone, Copy, Drop)]
pub enum Refusal {
    /// Nothing, or another thing, is behind the handle.
    NotOpen,
    /// The call would wait.
    WouldWait,
    /// There is no room in the history.
    LogFull,
    /// Memory was refused.
    NoMemory,
    /// There is no such capacity.
    BadCapacity,
    /// There is no such version.
    BadVersion,
    /// There is no such limit.
    BadLimit,
    /// There is no history.
    NotRecorded,
    /// The channel's values are of the other kind.
    OtherValues,
    /// The bytes are no value.
    BadValue,
    /// There may be a value that has more bytes than the buffer.
    SmallBuffer,
}

/// What came of a call.
pub(crate) type Told = Result<Reply, Refusal>;

/// Its status.
#[inline(always)]
pub(crate) fn code(why: Refusal) -> u32
    ensures { result ≡ code_of why }
{
    match why {
        Refusal::NotOpen => status::NOT_OPEN,
        Refusal::WouldWait => status::WOULD_WAIT,
        Refusal::LogFull => status::LOG_FULL,
        Refusal::NoMemory => status::NO_MEMORY,
        Refusal::BadCapacity => status::BAD_CAPACITY,
        Refusal::BadVersion => status::BAD_VERSION,
        Refusal::BadLimit => status::BAD_LIMIT,
        Refusal::NotRecorded => status::NOT_RECORDED,
        Refusal::OtherValues => status::OTHER_VALUES,
        Refusal::BadValue => status::BAD_VALUE,
        Refusal::SmallBuffer => status::SMALL_BUFFER,
    }
}

/// What came of a call, as C sees it.
#[inline(always)]
pub(crate) fn reply(told: Told) -> Reply
    ensures { result ≡ reply_of told }
{
    match told {
        Ok(reply) => reply,
        Err(why) => Reply {
            status: code(why),
            let_go: 0,
            number: 0,
        },
    }
}
