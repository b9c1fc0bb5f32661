//! The directory.
ghost use Rattle.std.specs.Prelude.{◌≡◌, ◌≤◌, ◌↔◌, ℕ, IsTrue, IfOk, IfErr, OnOk, OnErr, false, not};
ghost use Rattle.number_maps.specs.Rising.{IsRising};
ghost use Rattle.node_model.specs.Directory.{arrive, bound_for, has_more, held_for, hold, is_coming, is_in_parcel, is_known, is_leaving, opening_directory, place_name, recall, route, stays, upcoming, with_leaving, with_left, with_range};
ghost use Rattle.node_model.specs.Kinds.{for_kind, name_of};
ghost use Rattle.lease_leader.specs.Apart.{IsNextRange};
ghost use Rattle.lease_leader.specs.Places.{is_at};

use crate::parcels::{Parcels, deeds_in};
use crate::partings::Partings;
use crate::ranges::{RANGE, Ranges};
use crate::spot::{HeldList, Spot};
use crate::spots::Spots;
use node_model::{Held, Route};
use pico_base::{Kind, Memory, Name, Node, Pid};
use std::alloc::Global;
use std::marker::Model;

/// How many ranges of a kind there are at most, so that their numbers have four bytes.
const MAX_RANGES: usize = 536_870_911;

/// What the leader knows: which node was given which range of numbers, the place of each known name, and which nodes
/// are leaving or have left. A known name is at a node, or it is coming: its deed is on its way to the leader, perhaps
/// to be sent on to a destination, and the leader holds what needs it, in order.
///
/// Each kind has ranges of its own, of eight numbers each: 1 to 8, then 9 to 16, and so on.
///
/// Contracts see the directory of the machine's definitions. The rules are the machine's own (docs/machine.md).
#[derive(Drop)]
pub struct Directory {
    alloc: Global,
    spots: Spots,
    partings: Partings,
    ranges: Ranges,
    parcels: Parcels,
}

impl Model for Directory {
    ghost use Rattle.node_model.specs.Directory.{Directory as DirectoryValue};
    ghost use Rattle.lease_leader.specs.Counting.{AreCounted};
    ghost use Rattle.lease_leader.specs.Places.{AllAreLate, directory_by};

    ghost Value = { DirectoryValue };

    ghost view = { λ d. directory_by d.partings d.spots d.ranges };

    ghost invariant = { λ d. AllAreLate d.partings d.spots × AreCounted d.parcels d.spots };
}

impl Directory {
    /// As the leader begins: the first range of processes, 1 to 8, is node 1's, and process 1 is at node 1.
    pub fn new(alloc: Global) -> Result<Directory, Memory>
        ensures { IfOk result (λ directory. directory ≡ opening_directory) }
    {
        let mut spots = Spots::new(alloc);
        spots.insert(&Name::Proc(Pid(1)), Spot::at(Node(1), true))?;
        Ok(Directory {
            alloc,
            spots,
            partings: Partings::none(),
            ranges: Ranges::new(alloc)?,
            parcels: Parcels::new(alloc),
        })
    }

    /// Whether there is a further range of the kind: exactly where fewer than 536,870,911 were given out, so that its
    /// numbers have four bytes.
    pub fn more(&self, kind: Kind) -> bool
        ensures { result ≡ has_more self.now kind }
    {
        self.ranges.count(kind) < MAX_RANGES
    }

    /// The first number of the next range of the kind.
    pub fn upcoming(&self, kind: Kind) -> u32
        requires { IsTrue (has_more self.now kind) }
        ensures { result ≡ upcoming self.now kind }
    {
        self.ranges.count(kind) as u32 * RANGE + 1
    }

    /// Gives the next range of the kind to this node: its first number. None of its eight numbers was in a range, and
    /// every other number stays where it was, so ranges of one kind don't overlap. A refusal for want of memory changes
    /// nothing.
    pub fn next_range(&mut self, kind: Kind, node: Node) -> Result<u32, Memory>
        requires { IsTrue (has_more self.old kind) }
        ensures first { IfOk result (λ first. first ≡ upcoming self.old kind) }
        ensures ok { OnOk result (self.new ≡ with_range self.old kind node) }
        ensures apart { OnOk result (IsNextRange
            (for_kind self.old.ranges kind) (for_kind self.new.ranges kind) (upcoming self.old kind) node) }
        ensures err { OnErr result (self.new ≡ self.old) }
    {
        let first = self.upcoming(kind);
        self.ranges.give(kind, node)?;
        Ok(first)
    }

    /// Places a name that isn't known at this node, and answers whether it was so: a known name is left as it is. A
    /// refusal for want of memory changes nothing.
    pub fn place(&mut self, name: Name, node: Node) -> Result<bool, Memory>
        ensures new_name { IfOk result (λ placed. placed ≡ not (is_known self.old name)) }
        ensures ok { OnOk result (self.new ≡ place_name self.old name node) }
        ensures err { OnErr result (self.new ≡ self.old) }
    {
        if self.spots.has(&name) {
            return Ok(false);
        }
        let stays = self.partings.stays(node);
        self.spots.insert(&name, Spot::at(node, stays))?;
        Ok(true)
    }

    /// Whether no name of the kind with this number or a greater one is known.
    pub fn is_past(&self, kind: Kind, number: u32) -> bool
        ensures { IsTrue result ↔ ((q : ℕ) → number ≤ q → is_known self.now (name_of kind q) ≡ false) }
    {
        self.spots.are_below(kind, number)
    }

    /// The processes' places are by rising number.
    pub fn places_rise(&self)
        ensures { IsRising self.now.places.processes }
    {
        self.spots.rise();
    }

    /// Where a call on the name goes. Range comes exactly where the name isn't known and its number is in a range of a
    /// node other than node 1 that stays, and Nobody exactly where it isn't known and that is not so.
    #[inline(always)]
    pub fn route(&self, name: Name) -> Route
        ensures { result ≡ route self.now name }
    {
        match self.spots.get(&name) {
            Some(spot) => spot.route(&self.partings),
            None => self.route_by_maker(&name),
        }
    }

    /// Where a call on a name that isn't known goes.
    fn route_by_maker(&self, name: &Name) -> Route
        requires { IsTrue (not (is_known self.now name.now)) }
        ensures { result ≡ route self.now name.now }
    {
        match self.ranges.maker(name) {
            Some(node) => {
                if self.partings.stays(node) && node.0 != 1 {
                    Route::Range(node)
                } else {
                    Route::Nobody
                }
            }
            None => Route::Nobody,
        }
    }

    /// Asks the deed of a name that is at a node back, perhaps for another node: it is coming, and nothing is held for
    /// it yet. It takes no memory.
    pub fn recall(&mut self, name: Name, to: Option<Node>)
        requires { IsTrue (is_at self.old name) }
        ensures { self.new ≡ recall self.old name to }
    {
        let held = HeldList::new(self.alloc);
        let _ = self.spots.replace(&name, Spot::Coming { to, held });
    }

    /// Holds a further item for a name that is coming. A refusal for want of memory hands the item back and changes
    /// nothing.
    pub fn hold(&mut self, name: Name, item: Held) -> Result<(), (Memory, Held)>
        requires { IsTrue (is_coming self.old name) }
        ensures ok { OnOk result (self.new ≡ hold self.old name item) }
        ensures err { OnErr result (self.new ≡ self.old) }
        ensures back { IfErr result (λ back. back.1 ≡ item) }
    {
        if self.parcels.add(deeds_in(&name, &item)).is_err() {
            return Err((Memory, item));
        }
        match self.spots.hold(self.alloc, &name, item) {
            Ok(()) => Ok(()),
            Err(item) => {
                self.parcels.remove(deeds_in(&name, &item));
                Err((Memory, item))
            }
        }
    }

    /// The deed of a name that was coming is at this node, or goes on to it: what was held for the name, in the order
    /// in which it was held. It takes no memory.
    pub fn arrive(&mut self, name: Name, node: Node) -> HeldList
        requires { IsTrue (is_coming self.old name) }
        ensures held { result ≡ held_for self.old name }
        ensures place { self.new ≡ arrive self.old name node }
    {
        let stays = self.partings.stays(node);
        let spot = self.spots.replace(&name, Spot::at(node, stays));
        let items = spot.into_items(self.alloc);
        self.parcels.remove_all(&name, items.as_slice());
        items
    }

    /// The node that the deed of a coming name is to be sent on to: None exactly where the name isn't coming, or has no
    /// destination.
    pub fn bound_for(&self, name: Name) -> Option<Node>
        ensures { result ≡ bound_for self.now name }
    {
        match self.spots.get(&name) {
            Some(spot) => spot.destination(),
            None => None,
        }
    }

    /// A node that stays is leaving: each name that was at it is coming, with no destination and nothing held. It takes
    /// no memory.
    pub fn leaving(&mut self, node: Node)
        requires { IsTrue (stays self.old node) }
        ensures { self.new ≡ with_leaving self.old node }
    {
        self.partings.note_leaving(node);
    }

    /// A node that is leaving has left. Places are unchanged. It takes no memory.
    pub fn left(&mut self, node: Node)
        requires { IsTrue (is_leaving self.old node) }
        ensures { self.new ≡ with_left self.old node }
    {
        self.partings.note_left(node);
    }

    /// Whether the node is neither leaving nor has left.
    pub fn stays(&self, node: Node) -> bool
        ensures { result ≡ stays self.now node }
    {
        self.partings.stays(node)
    }

    /// Whether the node is leaving and hasn't left.
    pub fn is_leaving(&self, node: Node) -> bool
        ensures { result ≡ is_leaving self.now node }
    {
        self.partings.is_leaving(node)
    }

    /// Whether a parcel that is held has a deed of the name. A parcel is held for a process, the ended one's parent.
    pub fn in_parcel(&self, name: Name) -> bool
        ensures { result ≡ is_in_parcel self.now name }
    {
        self.parcels.has(&name)
    }
}
