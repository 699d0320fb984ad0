//! The values of channels, as C and traces are told of them.
ghost use Rattle.std.specs.Prelude.{◌≡◌, ℕ, List, IfOk};

use itoa::Buffer;
use std::alloc::Global;
use th_model::{Short, Value};

/// A kind of value.
pub trait Payload: Clone + PartialEq + Drop {
    /// The number by which a reply speaks of a value.
    ghost number: { Self → ℕ };

    /// A value as a trace spells it.
    ghost spelled: { Self → List ℕ };

    /// The number by which a reply speaks of the value.
    fn number(&self) -> u64
        ensures { result ≡ number self.now };

    /// The value as a trace spells it.
    fn spelled(&self, alloc: Global) -> Result<Value, Short<()>>
        ensures { IfOk result (λ v. v ≡ spelled self.now) };
}

/// A number stands for itself, and is spelled by its digits.
impl Payload for u64 {
    ghost use Rattle.std.specs.Fmt.{decimal};

    ghost number = { λ n. n };

    ghost spelled = { decimal };

    #[inline(always)]
    fn number(&self) -> u64 {
        *self
    }

    fn spelled(&self, alloc: Global) -> Result<Value, Short<()>> {
        let mut buffer = Buffer::new();
        match Value::new(alloc, buffer.format(*self).as_bytes()) {
            Ok(value) => Ok(value),
            Err(_) => Err(Short { call: () }),
        }
    }
}

/// Of bytes a reply tells how many they are; they are spelled as they are.
impl Payload for Value {
    ghost use Rattle.std.specs.Prelude.{length};

    ghost number = { λ v. length v };

    ghost spelled = { λ v. v };

    #[inline(always)]
    fn number(&self) -> u64 {
        self.as_bytes().len() as u64
    }

    fn spelled(&self, _alloc: Global) -> Result<Value, Short<()>> {
        match self.clone() {
            Ok(value) => Ok(value),
            Err(_) => Err(Short { call: () }),
        }
    }
}
