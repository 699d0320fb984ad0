//! What a caller owes those who wait.
ghost use Rattle.std.specs.Prelude.{◌≡◌};

use std::marker::Model;
use std::sync::Condvar;

/// Whether those who wait are to be woken, once the lock is free. It cannot be let go: whoever has it can only give it to
/// `Room::wake`.
pub(crate) struct Wake {
    is_due: bool,
}

impl Model for Wake {
    ghost use Rattle.std.specs.Prelude.{Bool};

    ghost Value = { Bool };

    ghost view = { λ w. w.is_due };
}

impl Wake {
    /// So it is.
    pub(crate) fn new(is_due: bool) -> Wake
        ensures { result ≡ is_due }
    {
        Wake { is_due }
    }

    /// Wakes all who sleep there, if it is due.
    pub(crate) fn give(self, news: &Condvar) {
        let Wake { is_due } = self;
        if is_due {
            news.notify_all();
        }
    }
}
