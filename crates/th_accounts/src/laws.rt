//! Laws of diaries.
ghost use Rattle.th_accounts.specs.Clients.{ClientsWereTold, ClientsWereToldFromTheirMaking};
ghost use Rattle.th_accounts.specs.Joined.{JoinedAreCounted};
ghost use Rattle.th_accounts.specs.Received.{AuditedDiariesDeliver};
ghost use Rattle.std.specs.Prelude.{Bool};
ghost use Rattle.th_accounts.specs.Whole.{picked, said_in, IsWhole};
ghost use Rattle.th_log.specs.Outcome.{Told};
ghost use Rattle.th_log.specs.History.{Piece};
ghost use Rattle.th_log.specs.Audit.{AreGood};
ghost use Rattle.th_accounts.specs.Accounts.{all_of, WasTold};
ghost use Rattle.std.specs.Prelude.{◌≡◌, ◌<◌, ℕ, List, length};

/// Where good diaries have as many receipts as a part of a history has entries, somebody was told of each entry.
pub fn nothing_is_untold<S, C, R>()
    ensures { (p : Piece S C R) (diaries : List (List (Told C R))) → AreGood p diaries
        → length (all_of diaries) ≡ length p.entries
        → (k : ℕ) → k < length p.entries → WasTold p diaries k }
{}

/// A whole diary tells, in order, the entries of its handle and nothing else.
pub fn whole_diaries_tell_all<C, R>()
    ensures { (mine : C → Bool) (f : ℕ) (es : List (C × R)) (d : List (Told C R))
        → IsWhole mine f es d → said_in d ≡ picked mine es }
{}

/// Where the diaries are good and tell of as much as the history has, what a receiver's diary tells is what was sent from
/// its first place on, in order, with a gap for each value that it missed.
pub fn audited_diaries_deliver<S, T>()
    ensures { AuditedDiariesDeliver S T }
{}

/// Where an audit said yes to diaries that tell of a whole part of a channel's history, each receiver that is live throughout
/// was told exactly what was sent from its first place on, in order, with a gap for each value that it missed.
pub fn clients_were_told<T>()
    ensures { ClientsWereTold T }
{}

/// The same of each receiver that is made within the part, from its making on: it was told what it found, and then what was
/// sent since.
pub fn clients_were_told_from_their_making<T>()
    ensures { ClientsWereToldFromTheirMaking T }
{}

/// Once the shares of a channel settle, the parts of its history from the opening to the end, joined, have an entry for each event
/// that the shares count.
pub fn joined_parts_are_counted<S, C, R>()
    ensures { JoinedAreCounted S C R }
{}
