//! One semaphore: its value, and the last process that operated on it.
ghost use Rattle.std.specs.Prelude.{◌≡◌};

use pico_base::Pid;
use std::marker::Model;

/// A semaphore: its value `semval`, 0 to 32767 in a set, and `sempid`, the process of the last successful `semop`
/// on it, 0 for none yet.
#[derive(Clone, Copy, Debug)]
pub(crate) struct Semaphore {
    pub(crate) value: u32,
    pub(crate) last: Pid,
}

impl Model for Semaphore {
    ghost use Rattle.kernel_model.specs.SemaphoreSet.{Semaphore as Value_};

    ghost Value = { Value_ };

    ghost view = { λ s. record { value = s.value; last = s.last } };

    ghost inverse = { λ s. record { value = s.value; last = s.last } };
}

impl Semaphore {
    /// The value.
    pub(crate) fn value(&self) -> u32
        ensures { result ≡ self.now.value }
    {
        self.value
    }
}
