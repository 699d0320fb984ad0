//! What a receive finds.
ghost use Rattle.std.specs.Prelude.{◌≡◌, Some, IfOk, IsTrue, IsOk, false};
ghost use Rattle.th_model.specs.Limits.{ClonesAreEqual};
ghost use Rattle.th_shelf.specs.Receiving.{value_found};

use std::alloc::AllocError;

/// What a receive finds at a receiver's place.
#[derive(Debug, Drop, PartialEq)]
pub enum Received<T> {
    /// No live receiver has the number.
    Nobody,
    /// The receiver stands at the tail: nothing is there yet.
    Nothing,
    /// The receiver was behind the window. It missed so many values, and stands at the window's
    /// beginning now.
    Missed(u64),
    /// The value at the receiver's place, which it has passed now.
    Value(T),
}

impl<T: Drop> Received<T> {
    /// The same once more, of a copy of its value.
    #[inline(always)]
    pub fn again(&self, copy: Option<T>) -> Received<T>
        requires { copy ≡ value_found self.now }
        ensures { result ≡ self.now }
    {
        match self {
            Received::Nobody => Received::Nobody,
            Received::Nothing => Received::Nothing,
            Received::Missed(count) => Received::Missed(*count),
            Received::Value(_) => match copy {
                Some(value) => Received::Value(value),
                None => unreachable!(),
            },
        }
    }
}

/// A copy of a value, where one is wanted.
#[inline(always)]
pub fn copy_of<T: Clone>(value: &T, wanted: bool) -> Result<Option<T>, AllocError>
    requires { ClonesAreEqual T.is_clone }
    ensures copy { IfOk result (λ copy. IsTrue wanted → copy ≡ Some value.now) }
    ensures without { wanted ≡ false → IsOk result }
{
    if !wanted {
        return Ok(None);
    }
    match value.clone() {
        Ok(copy) => Ok(Some(copy)),
        Err(refused) => Err(refused),
    }
}
