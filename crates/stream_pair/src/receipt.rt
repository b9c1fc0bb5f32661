//! What shows the end that takes how much was sent.
ghost use Rattle.std.specs.Prelude.{◌≡◌};
ghost use Rattle.stream_pair.specs.Ends.{sent_by, stream_of, IsReceipt};

use crate::order::Pass;
use std::marker::Model;

/// That so much was sent on a stream by the time it was made. It has no bytes, and may go to another thread. Contracts
/// see the stream, and all that was sent on it by then.
#[derive(Drop)]
pub struct Receipt {
    pub(crate) pass: Pass,
}

impl Model for Receipt {
    ghost use Rattle.stream_pair.specs.Ends.{Sending, sent_by, stream_of, IsReceipt};

    ghost Value = { Sending };

    ghost view = { λ r. record { stream = stream_of r.pass; sent = sent_by r.pass } };

    ghost invariant = { λ r. IsReceipt (stream_of r.pass) r.pass (sent_by r.pass) };
}

impl Receipt {
    /// The receipt of this pass.
    pub(crate) fn new(pass: Pass) -> Receipt
        requires { IsReceipt (stream_of pass) pass (sent_by pass) }
        ensures { (result.stream ≡ stream_of pass) × (result.sent ≡ sent_by pass) }
    {
        Receipt { pass }
    }

    /// Its pass.
    pub(crate) fn into_pass(self) -> Pass
        ensures { IsReceipt self.stream result self.sent }
    {
        let Receipt { pass } = self;
        pass
    }
}
