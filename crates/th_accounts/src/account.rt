//! Whether somebody was told of each entry of a history.
ghost use Rattle.std.specs.Prelude.{◌≡◌, ◌-◌, MatchResult, length};
ghost use Rattle.th_log.specs.Audit.{told_of};
ghost use Rattle.th_accounts.specs.Accounts.{IsAccount, IsNoAccount, all_of};

use std::alloc::Global;
use th_log::{AuditFault, Compared, Diary, Segment, audit};
use thiserror::Error;

/// The audit says yes, and each entry stands in a diary.
#[derive(Clone, Copy, Debug, Drop, PartialEq, Eq)]
pub struct Accounted;

/// Why diaries are no account of the whole.
#[derive(Clone, Copy, Debug, Drop, Error, PartialEq, Eq)]
pub enum AccountFault {
    /// The audit did not say yes.
    #[error("{fault}")]
    Audit { fault: AuditFault },
    /// The audit says yes, and so many entries stand in no diary.
    #[error("{entries} entries of the history stand in no diary")]
    Untold { entries: u64 },
}

// How many entries there are more than receipts.
fn untold<O: Compared>(entries: u64, diaries: &[Diary<O>]) -> u64
    ensures { result ≡ entries - length (all_of (told_of diaries.now)) }
{
    let mut left = entries;
    for diary in diaries {
        left = left.saturating_sub(diary.receipts().len() as u64);
    }
    left
}

/// Says yes where [`audit`] does and each entry of the segment stands in a diary: then nobody has made an event of which he
/// shows no receipt. Linear in the receipts, with a mark for each entry.
pub fn audit_whole<O: Compared>(
    alloc: Global,
    segment: &Segment<O>,
    diaries: &[Diary<O>],
) -> Result<Accounted, AccountFault>
    requires { O.exact }
    ensures { MatchResult result (λ _. IsAccount segment.now (told_of diaries.now))
        (λ fault. IsNoAccount segment.now (told_of diaries.now) fault) }
{
    match audit(alloc, segment, diaries) {
        Ok(_) => match untold(segment.len(), diaries) {
            0 => Ok(Accounted),
            entries => Err(AccountFault::Untold { entries }),
        },
        Err(fault) => Err(AccountFault::Audit { fault }),
    }
}
