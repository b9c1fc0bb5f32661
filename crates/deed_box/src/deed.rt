//! One deed: the right to carry out calls on a name, with its body.
use crate::Shared;
use pico_base::{Bytes, Memory, Name, UnpackFault};
use rpc_frame::PackedDeed;
use std::alloc::Global;
use std::marker::Model;

/// A deed: whoever has it may carry out calls on the name, and has the state of what it names. It can't be copied, and
/// it is spent by being put into a [`crate::Deeds`] or packed.
///
/// Contracts see it as the pair of its name and its body.
pub struct Deed<B> {
    pub(crate) name: Name,
    pub(crate) body: B,
}

impl<B> Model for Deed<B> {
    ghost use Rattle.pico_base.specs.declared.numbers.Name.{Name as Named};

    ghost Value = { Named × B };

    ghost view = { λ d. (d.name, d.body) };
}

impl<B: Shared> Deed<B> {
    ghost use Rattle.std.specs.Prelude.{◌≡◌, Err, IsTrue, IfOk, IfErr};
    ghost use Rattle.pico_base.specs.declared.fault.UnpackFault.TheVariants.{NotABody};
    ghost use Rattle.deed_box.specs.Packing.{IsNoDeed, IsPackedDeed};

    /// The deed of a name that is new.
    pub fn create(name: Name, body: B) -> Deed<B>
        requires { IsTrue (B.fits body name) }
        ensures { result ≡ (name, body) }
    {
        Deed { name, body }
    }

    /// The deed of a name that is new, packed because it leaves at once.
    pub fn create_packed(alloc: Global, name: Name, body: &B) -> Result<PackedDeed, Memory>
        requires { IsTrue (B.fits body.now name) }
        ensures { IfOk result (IsPackedDeed B.fits B.IsSpelled (name, body.now)) }
    {
        Ok(PackedDeed {
            name,
            body: body.pack(alloc)?,
        })
    }

    /// The deed as bytes. A refusal for want of memory hands it back.
    pub fn pack(self, alloc: Global) -> Result<PackedDeed, (Memory, Deed<B>)>
    where
        B: Drop,
        requires { IsTrue (B.fits self.1 self.0) }
        ensures ok { IfOk result (IsPackedDeed B.fits B.IsSpelled self) }
        ensures err { IfErr result (λ back. back.1 ≡ self) }
    {
        match self.body.pack(alloc) {
            Ok(bytes) => {
                let Deed { name, body: _ } = self;
                Ok(PackedDeed { name, body: bytes })
            }
            Err(Memory) => Err((Memory, self)),
        }
    }

    /// The deed that was packed. NotABody comes exactly where the bytes spell no body that goes with the name. A
    /// refusal hands the packed deed back.
    pub fn unpack(alloc: Global, packed: PackedDeed) -> Result<Deed<B>, (UnpackFault, PackedDeed)>
        ensures ok { IfOk result (λ deed. IsPackedDeed B.fits B.IsSpelled deed packed) }
        ensures not_a_body { IfErr result (λ back. back.0 ≡ NotABody → IsNoDeed B.fits B.IsSpelled packed) }
        ensures err { IfErr result (λ back. back.1 ≡ packed) }
    {
        match B::unpack(alloc, packed.name, packed.body.as_slice()) {
            Ok(body) => {
                let PackedDeed { name, body: _ } = packed;
                Ok(Deed { name, body })
            }
            Err(fault) => Err((fault, packed)),
        }
    }
}
