//! A body is what deeds carry.
use crate::{Body, packing, unpacking};
use deed_box::Shared;
use pico_base::{Bytes, Memory, Name, UnpackFault};
use std::alloc::Global;

impl Shared for Body {
    ghost use Rattle.node_serve.specs.Spelled.{IsSpelled as IsSpelledBody, suits};
    ghost use Rattle.node_serve.specs.Laws.{bodies_are_one, spellings_are_one};

    ghost fits = { suits };

    ghost IsSpelled = { IsSpelledBody };

    fn fits(&self, name: Name) -> bool {
        match name {
            Name::Proc(_) => matches!(self, Body::Living(_) | Body::Ended(_) | Body::Gone),
            Name::Msg(_) => matches!(self, Body::Queue(_) | Body::Removed),
            Name::Sem(_) => matches!(self, Body::Set(_) | Body::Removed),
        }
    }

    fn pack(&self, alloc: Global) -> Result<Bytes, Memory> {
        packing::pack(alloc, self)
    }

    fn unpack(alloc: Global, name: Name, bytes: &[u8]) -> Result<Self, UnpackFault> {
        unpacking::unpack(alloc, name, bytes)
    }

    ghost one_body = { bodies_are_one };

    ghost one_spelling = { spellings_are_one };
}
