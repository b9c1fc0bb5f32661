//! The calls that may wait at a queue, or at a set.
ghost use Rattle.std.specs.Prelude.{ℕ, List, Option};
ghost use Rattle.std.specs.Option.{option_map};
ghost use Rattle.body_fields.specs.Fields.{Reads};
ghost use Rattle.frame_bytes.specs.Readers.{Gives};
ghost use Rattle.pico_base.specs.declared.call.Call.{Call as SpecCall};

use frame_bytes::Read;
use pico_base::Call;
use std::alloc::Global;

/// How the calls that may wait at something are read.
pub trait WaitingCalls {
    /// The reader of such a call.
    ghost call_at: { List ℕ → Option (SpecCall × List ℕ) };

    /// A call, and the bytes behind it. `NotABody` comes exactly where no such call stands there.
    fn read(alloc: Global, bytes: &[u8]) -> Read<'_, Call>
        ensures { Gives (λ x. (x.0, x.1.now)) result (call_at bytes.now) };

    /// The bytes behind a call. None: no such call stands there. It takes no memory.
    fn skip(bytes: &[u8]) -> Option<&[u8]>
        ensures { Reads (λ rest. rest.now) result (option_map (λ x. x.1) (call_at bytes.now)) };
}
