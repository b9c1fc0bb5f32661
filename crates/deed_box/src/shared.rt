//! What a body has to do to travel in a deed.
ghost use Rattle.std.specs.Prelude.{◌≡◌, ℕ, Bool, List, Err, IsTrue, IfOk};
ghost use Rattle.pico_base.specs.declared.fault.UnpackFault.TheVariants.{NotABody};
ghost use Rattle.pico_base.specs.declared.numbers.Name.{Name as Named};

use pico_base::{Bytes, Memory, Name, UnpackFault};
use std::alloc::Global;

/// A body that deeds carry from node to node: the state of what a name names.
pub trait Shared: Sized {
    /// The body is of a kind that goes with the name.
    ghost fits: { Self → Named → Bool };

    /// The body is within its limits, and these bytes spell it.
    ghost IsSpelled: { Self → List ℕ → Type 0 };

    /// Whether the body is of a kind that goes with the name.
    fn fits(&self, name: Name) -> bool
        ensures { result ≡ fits self.now name };

    /// The body as bytes.
    fn pack(&self, alloc: Global) -> Result<Bytes, Memory>
        ensures { IfOk result (IsSpelled self.now) };

    /// The body that these bytes spell, of a kind that goes with the name. NotABody comes exactly where they spell
    /// none.
    fn unpack(alloc: Global, name: Name, bytes: &[u8]) -> Result<Self, UnpackFault>
        ensures spelled { IfOk result (λ body. IsSpelled body bytes.now) }
        ensures fits { IfOk result (λ body. IsTrue (fits body name)) }
        ensures refused { result ≡ Err NotABody → (body : Self) → IsTrue (fits body name)
            → IsSpelled body bytes.now → ⊥ };

    /// Under a name that both fit, bytes spell one body, so `unpack` gives back what `pack` wrote.
    ghost one_body: { (name : Named) (body other : Self) (bytes : List ℕ) → IsTrue (fits body name)
        → IsTrue (fits other name) → IsSpelled body bytes → IsSpelled other bytes → body ≡ other };

    /// A body has one spelling.
    ghost one_spelling: { (body : Self) (bytes other : List ℕ) → IsSpelled body bytes
        → IsSpelled body other → bytes ≡ other };
}
