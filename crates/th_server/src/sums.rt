//! Sums that bind the files of a topic to one another.
ghost use Rattle.std.specs.Prelude.{◌≡◌, IfSome};
ghost use Rattle.th_server.specs.Sums.{Binds, before, behind};

use std::io::Read;
use th_program::{Sum, sum_of};

/// What the sum of a topic's next file is to bind.
#[derive(Clone, Copy, Debug, Drop, PartialEq, Eq)]
pub enum Chain {
    /// Nothing: no sum is wanted, or one before is missing.
    Loose,
    /// That file alone, as the topic's first one.
    Begins,
    /// That file and those before it, which have this sum.
    GoesOn(Sum),
}

// What binds the file with this sum, and those before it; nothing does where it has none.
fn behind(sum: Option<Sum>) -> Chain
    ensures { result ≡ behind sum }
{
    match sum {
        Some(sum) => Chain::GoesOn(sum),
        None => Chain::Loose,
    }
}

impl Chain {
    // What the sum of the next file binds before its bytes, if there is one; `None` where it is to have no sum.
    fn before(self) -> Option<Option<Sum>>
        ensures { result ≡ before self }
    {
        match self {
            Chain::Loose => None,
            Chain::Begins => Some(None),
            Chain::GoesOn(sum) => Some(Some(sum)),
        }
    }

    /// What the sum of the file behind this one is to bind. Where this one cannot be read to its end, that is nothing.
    pub(crate) fn after<R: Read>(self, reader: &mut R) -> Chain
        ensures loose { self ≡ Chain.Loose → result ≡ Chain.Loose }
        ensures binds { IfSome (R.remaining reader.old) (λ bytes. Binds self bytes result) }
    {
        let Some(before) = self.before() else {
            return Chain::Loose;
        };
        behind(sum_of(before, reader))
    }
}
