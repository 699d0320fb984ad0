//! The rule of a channel's word, and the kinds of step on it.
use crate::sight::Sight;
use atomic_table::{Join, Play, Split, TableRule};

/// The word says the last glance of the pen's list, and each eye's list begins that list.
pub struct Posts;

impl TableRule<(), Sight, ()> for Posts {
    ghost use Rattle.th_glance.specs.Seats.{Kept, first_sight};

    ghost holds = { λ _ s. Kept s };

    ghost first = { λ _. first_sight };
}

/// An eye's load.
pub(crate) struct See;

impl Play<(), Sight> for See {
    ghost use Rattle.th_glance.specs.Seats.{Sees};

    ghost then = { Sees };
}

/// The pen's store.
pub(crate) struct Write;

impl Play<(), Sight> for Write {
    ghost use Rattle.th_glance.specs.Seats.{Writes};

    ghost then = { Writes };
}

/// The pen's load, by which it learns that the list that it was told of begins its own.
pub(crate) struct Cover;

impl Play<(), Sight> for Cover {
    ghost use Rattle.th_glance.specs.Seats.{Covers};

    ghost then = { Covers };
}

/// A new eye begins with its maker's view, and the maker keeps its own.
pub(crate) struct Copied;

impl Split<Sight> for Copied {
    ghost left = { λ v. v };

    ghost right = { λ v. v };
}

/// A seat is told of what another has seen, and the other is spent.
pub(crate) struct Learned;

impl Join<Sight> for Learned {
    ghost use Rattle.th_glance.specs.Seats.{sight};
    ghost use Rattle.std.specs.Prelude.{[]};

    ghost both = { λ v w. sight v.seen w.seen };

    ghost spent = { sight [] [] };
}
