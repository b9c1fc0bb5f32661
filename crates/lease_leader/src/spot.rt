//! What the leader keeps of one known name.
ghost use Rattle.std.specs.Prelude.{◌≡◌, ◌∷◌, ◌++◌, [], OnOk, OnErr, IfErr};
ghost use Rattle.number_maps.specs.Maps.{get};
ghost use Rattle.lease_leader.specs.Places.{destination_in, items_in, place_by, route_of, spot_at, with_item};

use crate::partings::Partings;
use node_model::{Held, Route};
use pico_base::{Node, Sequence};
use std::alloc::Global;
use std::mem;

/// What is held for a name, in the order in which it was held.
pub type HeldList = Sequence<Held>;

#[derive(Debug, Drop)]
pub(crate) enum Spot {
    /// At this node for as long as that stays; then on its way, with no destination and nothing held.
    WhileItStays(Node),
    /// At this node, which had told that it parts when the name came there.
    Regardless(Node),
    /// On its way, perhaps to be sent on to a node.
    Coming { to: Option<Node>, held: HeldList },
}

/// Adds an item at the end. A refusal hands it back and changes nothing.
fn push(alloc: Global, held: &mut HeldList, item: Held) -> Result<(), Held>
    ensures ok { OnOk result (held.new ≡ held.old ++ item ∷ []) }
    ensures err { OnErr result (held.new ≡ held.old) }
    ensures back { IfErr result (λ back. back ≡ item) }
{
    let mut items = mem::replace(held, HeldList::new(alloc)).into_vec();
    let outcome = items.push(item);
    *held = HeldList::from_vec(items);
    match outcome {
        Ok(()) => Ok(()),
        Err(refused) => Err(refused.value),
    }
}

impl Spot {
    /// Of a name that comes to this node.
    pub(crate) fn at(node: Node, stays: bool) -> Spot
        ensures { result ≡ spot_at node stays }
    {
        if stays {
            Spot::WhileItStays(node)
        } else {
            Spot::Regardless(node)
        }
    }

    /// Where a call on the name goes.
    pub(crate) fn route(&self, partings: &Partings) -> Route
        ensures { result ≡ route_of (place_by partings.now self.now) }
    {
        match self {
            Spot::WhileItStays(node) => {
                if partings.stays(*node) {
                    Route::At(*node)
                } else {
                    Route::Coming
                }
            }
            Spot::Regardless(node) => Route::At(*node),
            Spot::Coming { to: _, held: _ } => Route::Coming,
        }
    }

    /// The node that the deed of a coming name is to be sent on to.
    pub(crate) fn destination(&self) -> Option<Node>
        ensures { result ≡ destination_in self.now }
    {
        match self {
            Spot::WhileItStays(_) | Spot::Regardless(_) => None,
            Spot::Coming { to, held: _ } => *to,
        }
    }

    /// Holds a further item: the name is on its way. A refusal hands the item back and changes nothing.
    pub(crate) fn hold(&mut self, alloc: Global, item: Held) -> Result<(), Held>
        ensures ok { OnOk result (self.new ≡ with_item self.old item) }
        ensures err { OnErr result (self.new ≡ self.old) }
        ensures back { IfErr result (λ back. back ≡ item) }
    {
        match self {
            Spot::WhileItStays(_) | Spot::Regardless(_) => {
                let mut held = HeldList::new(alloc);
                push(alloc, &mut held, item)?;
                *self = Spot::Coming { to: None, held };
                Ok(())
            }
            Spot::Coming { to: _, held } => push(alloc, held, item),
        }
    }

    /// What is held for the name.
    pub(crate) fn into_items(self, alloc: Global) -> HeldList
        ensures { result ≡ items_in self }
    {
        match self {
            Spot::WhileItStays(_) | Spot::Regardless(_) => HeldList::new(alloc),
            Spot::Coming { to: _, held } => held,
        }
    }
}
