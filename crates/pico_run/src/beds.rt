//! Where threads sleep while nothing is on its way to their nodes.
use pico_base::Node;
use std::sync::Wait;
use std::time::Duration;
use stream_pair::{Bell, Company};

/// The longest sleep, in milliseconds: after that a thread looks by itself, so that no mistake among sleepers can hold
/// a run up for good, and who waits for a thread to leave sees it leave.
const NAP: u64 = 40;

/// The bells of all nodes, by rising node, and the company of their receivers.
#[derive(Drop)]
pub(crate) struct Beds {
    pub company: Company,
    pub bells: Vec<Bell>,
}

impl Beds {
    /// A node's thread ends.
    pub fn leave(&self) {
        self.company.leave(self.bells.as_slice());
    }

    /// A node made an event.
    #[inline]
    pub fn goes_on(&self) {
        self.company.goes_on();
    }

    /// A node's thread found nothing for a while: it sleeps until something is sent to it. Once all are called it goes
    /// on at once, since then it makes its last turns.
    #[cold]
    pub fn sleep<R: Wait>(&self, rt: &R, node: Node) {
        if self.company.is_called() {
            return;
        }
        if let Some(bell) = self.bells.get(usize::from(node.0).saturating_sub(1)) {
            bell.sleep(rt, self.bells.as_slice(), Duration::from_millis(NAP));
        }
    }
}
