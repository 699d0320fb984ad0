//! When a line may be carried out.
ghost use Rattle.std.specs.Prelude.{◌≡◌, ℕ, Bool, true, false};

/// Lets the lines of sessions through, one by one, and is told of their replies. A session asks and tells often, so
/// neither call is to wait.
///
/// A gate holds a line back as long as it says no: so it can set the order of the lines of several sessions. Once it has
/// let a line through it is to go on saying so, since a session may ask again. A session asks for the line that comes next
/// at most 1,000 times, and sleeps 10 milliseconds between two times. It may ask for a line before it has answered those in
/// front, where they are a row with it: sends to one topic, or one wait again and again. Those that are let through may then
/// be carried out at once.
pub trait Gate {
    /// Whether it may hold the line of this number of this session back. A gate that does not say may hold back any.
    ghost holds_back: { Self → (session : ℕ) → (line : ℕ) → Bool } = { λ _ _ _. true };

    /// Whether it may let the line of this number of this session through. A gate that does not say may let any.
    ghost lets: { Self → (session : ℕ) → (line : ℕ) → Bool } = { λ _ _ _. true };

    /// Whether it may give this session up while that waits for an answer. A gate that does not say may.
    ghost gives_up: { Self → (session : ℕ) → Bool } = { λ _ _. true };

    /// Whether this line of this session may be carried out now. Lines are counted from 1.
    fn may(&self, session: u64, line: u64) -> bool
        ensures no { result ≡ false → holds_back self.now session line ≡ true }
        ensures yes { result ≡ true → lets self.now session line ≡ true };

    /// The reply to this line of this session is written and flushed. This comes once for each line that was carried
    /// out, in their order; after a failed write it comes no more.
    fn answered(&self, session: u64, line: u64);

    /// Whether this session is to wait on for the answer to its line. It is asked about once a second, and all replies to the
    /// lines in front are written then. After a no the line is not carried out, and the session ends.
    fn waits_on(&self, session: u64) -> bool
        ensures { result ≡ false → gives_up self.now session ≡ true };
}

/// Lets every line through, and lets it wait for its answer.
#[derive(Clone, Copy, Debug, Drop)]
pub struct OpenGate;

impl Gate for OpenGate {
    ghost holds_back = { λ _ _ _. false };

    ghost gives_up = { λ _ _. false };

    fn may(&self, _session: u64, _line: u64) -> bool
        ensures { result ≡ true }
    {
        true
    }

    fn answered(&self, _session: u64, _line: u64) {}

    // A line that is let through may wait.
    fn waits_on(&self, session: u64) -> bool
        ensures { result ≡ true }
    {
        self.may(session, 1)
    }
}
