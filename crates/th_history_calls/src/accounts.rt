//! Calls of th_accounts, at a watch channel of numbers, and at a broadcast channel of them.
ghost use Rattle.std.specs.Prelude.{MatchResult, ⊤};
ghost use Rattle.th_log.specs.Audit.{told_of};
ghost use Rattle.th_accounts.specs.Clients.{LiveReceiversWereTold, NewReceiversWereTold};

use std::alloc::Global;
use th_accounts::{AccountFault, Accounted, audit_whole, laws};
use th_bcast::Broadcast;
use th_log::{Diary, Segment};
use th_model::{WCall, WReply};
use th_shelf::PlainShelf;
use th_watch::Watch;

pub fn law() {
    laws::nothing_is_untold::<u64, WCall<u64>, WReply<u64>>();
    laws::whole_diaries_tell_all::<WCall<u64>, WReply<u64>>();
    laws::audited_diaries_deliver::<u64, u64>();
    laws::clients_were_told::<u64>();
    laws::clients_were_told_from_their_making::<u64>();
    laws::joined_parts_are_counted::<u64, WCall<u64>, WReply<u64>>();
}

pub fn account(
    alloc: Global,
    segment: &Segment<Watch<u64>>,
    diaries: &[Diary<Watch<u64>>],
) -> Result<Accounted, AccountFault> {
    audit_whole(alloc, segment, diaries)
}

/// After a yes, each receiver's diary alone says what the receiver was told.
pub fn told(
    alloc: Global,
    segment: &Segment<Broadcast<u64, PlainShelf<u64>>>,
    diaries: &[Diary<Broadcast<u64, PlainShelf<u64>>>],
) -> Result<Accounted, AccountFault>
    ensures live { MatchResult result
        (λ _. LiveReceiversWereTold segment.now (told_of diaries.now)) (λ _. ⊤) }
    ensures new { MatchResult result
        (λ _. NewReceiversWereTold segment.now (told_of diaries.now)) (λ _. ⊤) }
{
    laws::clients_were_told::<u64>();
    laws::clients_were_told_from_their_making::<u64>();
    // Its contract says that the history is legal.
    let _legal = segment.len();
    audit_whole(alloc, segment, diaries)
}
