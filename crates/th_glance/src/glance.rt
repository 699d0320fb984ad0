//! What a word says.

/// How many events a channel had at some moment, and whether it had no senders then.
#[derive(Clone, Copy, Debug, PartialEq, Eq)]
pub struct Glance {
    /// The events since the channel's opening.
    pub count: u64,
    /// Whether no sender was left.
    pub closed: bool,
}

impl Glance {
    ghost use Rattle.std.specs.Prelude.{◌≡◌, ◌<◌, ◌^◌};
    ghost use Rattle.th_glance.specs.declared.glance.Glance.{Glance as GlanceValue};
    ghost use Rattle.th_glance.specs.Lists.{word_of};

    // The word that says this: twice the count, plus one where no sender was left.
    pub(crate) fn word(self) -> u64
        requires { self.count < 2 ^ 63 }
        ensures { result ≡ word_of self }
    {
        if self.closed {
            2 * self.count + 1
        } else {
            2 * self.count
        }
    }

    // What a word says.
    pub(crate) fn of_word(word: u64) -> Glance
        ensures { (g : GlanceValue) → word ≡ word_of g → result ≡ g }
    {
        Glance {
            count: word / 2,
            closed: word % 2 == 1,
        }
    }
}
