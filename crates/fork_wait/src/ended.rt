//! A child that has ended, with its ending.
use pico_base::{Ending, Pid};
use std::marker::Model;

/// A child that has ended and wasn't waited for, and how it ended.
#[derive(Clone, Copy, Debug)]
pub(crate) struct Ended {
    pub(crate) pid: Pid,
    pub(crate) ending: Ending,
}

impl Model for Ended {
    ghost use Rattle.kernel_model.specs.Row.{EndedChild};

    ghost Value = { EndedChild };

    ghost view = { λ e. record { pid = e.pid; ending = e.ending } };

    ghost inverse = { λ e. record { pid = e.pid; ending = e.ending } };
}

/// A place of a list that nothing stands at.
impl Default for Ended {
    fn default() -> Self {
        Ended {
            pid: Pid(0),
            ending: Ending::Exited(0),
        }
    }
}
