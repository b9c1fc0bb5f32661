//! The state of a node that isn't spent.
ghost use Rattle.std.specs.Prelude.{◌≡◌, ◌<◌, None, Some, IfOk, OnOk, IsSomeAnd, IsTrue};
ghost use Rattle.std.specs.Option.{option_copied, option_map};
ghost use Rattle.pico_base.specs.declared.numbers.Name.TheVariants.{Proc};
ghost use Rattle.kernel_model.specs.Row.{new_row};
ghost use Rattle.node_model.specs.Kinds.{get_named, none_named, put_named};
ghost use Rattle.node_model.specs.Spelling.{read_body};
ghost use Rattle.node_model.specs.Bodies.{Living as LivingBody, row_of as row_in};
ghost use Rattle.deed_box.specs.Packing.{IsPackedDeed};
ghost use Rattle.node_serve.specs.Bodies.{bodies_of, body_of, row_of};
ghost use Rattle.node_serve.specs.Spelled.{IsSpelled, suits};
ghost use Rattle.world_model.specs.Node.{asked_here, can_run, first_node, holds, is_born, is_leader, opening_node, own_row, unborn_node, under_way_as};
ghost use Rattle.world_model.specs.Calls.{is_from_leader, is_to_leader};
ghost use Rattle.node_state.specs.Deeds.{IsTaken, IsTakenOut, Keeps};
ghost use Rattle.world_model.specs.Moves.{keep};
ghost use Rattle.world_model.specs.Routes.{was_removed};
ghost use Rattle.node_state.specs.State.{node_of};

use crate::fault::unreached;
use crate::leader::Leader;
use crate::leases::Leases;
use crate::watches::Watches;
use deed_box::{Deed, Deeds, Shared};
use fork_wait::Family;
use node_calls::Caller;
use node_serve::{Body, Row};
use owner_cache::Cache;
use pico_base::{Call, Memory, Name, Node, Pid, UnpackFault, Vars};
use rpc_frame::{Asked, PackedDeed};
use signal_state::Signals;
use std::alloc::Global;

/// The leader.
pub const LEADER: Node = Node(1);

/// The life of a node: until its process is forked and its Checkpoint has come; while its process makes calls; from its
/// process's last call until the leader asks for what it holds; and when it has handed that over. Node 1's process is
/// over, and the node goes on as the leader.
#[derive(Clone, Copy, Debug, PartialEq, Eq)]
pub enum Stage {
    Unborn,
    Living,
    Leaving,
    Left,
    Over,
}

/// The state of a node that isn't spent. Node k runs block k of the script, and node 1 is the leader.
///
/// What a state has that no run leads to is answered with Memory where a part of it can't take it, so that no condition
/// on whole runs is needed here. After an answer of Memory the node is spent, and nothing is said of what is left.
#[derive(Drop)]
pub struct State {
    pub alloc: Global,
    pub stage: Stage,
    pub pid: Pid,
    pub parent: Pid,
    pub parent_node: Node,
    pub caller: Caller,
    pub deeds: Deeds<Body>,
    pub watches: Watches,
    pub leases: Leases,
    pub cache: Cache,
    pub leader: Leader,
}

/// The row in a body, where that is of a process that lives.
fn living(body: Option<&Body>) -> Option<&Row>
    ensures { option_map row_of (option_copied result) ≡ row_in (option_map body_of (option_copied body.entry)) }
{
    match body {
        Some(Body::Living(row)) => Some(row),
        _ => None,
    }
}

/// Whether the body is of a queue or a set that was removed.
fn was_removed(body: Option<&Body>) -> bool
    ensures { result ≡ was_removed (option_map body_of (option_copied body.entry)) }
{
    matches!(body, Some(Body::Removed))
}

/// Puts a deed for which there is room, and whose name isn't held.
fn put(deeds: &mut Deeds<Body>, deed: Deed<Body>)
    requires absent { get_named deeds.old.bodies deed.0 ≡ None }
    requires room { 0 < deeds.old.spare }
    ensures { deeds.new.bodies ≡ put_named deeds.old.bodies deed.0 deed.1 }
{
    match deeds.put(deed) {
        Ok(()) => {}
        Err(_) => unreachable!(),
    }
}

/// The deed of a new name is held from now on. Memory, too, where the name is held already or the body doesn't go with
/// it.
fn create(deeds: &mut Deeds<Body>, name: &Name, body: Body) -> Result<(), Memory>
    ensures { OnOk result (deeds.new.bodies ≡ put_named deeds.old.bodies name.now body) }
{
    if deeds.has(*name) || !body.fits(*name) {
        return Err(unreached());
    }
    deeds.reserve(1)?;
    put(deeds, Deed::create(*name, body));
    Ok(())
}

/// The body that these bytes spell, where they spell one that goes with the name.
fn read(alloc: Global, name: Name, bytes: &[u8]) -> Result<Option<Body>, Memory>
    ensures { IfOk result (λ body. option_map body_of body ≡ read_body name bytes.now) }
{
    match Body::unpack(alloc, name, bytes) {
        Ok(body) => Ok(Some(body)),
        Err(UnpackFault::NotABody) => Ok(None),
        Err(UnpackFault::Memory) => Err(Memory),
    }
}

/// Whether the name is held, with a body that goes with it.
fn can_leave(deeds: &Deeds<Body>, name: &Name) -> bool
    ensures { IsTrue result → IsSomeAnd (get_named deeds.now.bodies name.now) (λ body. IsTrue (suits body name.now)) }
{
    match deeds.get(*name) {
        Some(body) => body.fits(*name),
        None => false,
    }
}

/// The deed as bytes. Where memory is refused it is put back, for which there is room.
fn pack(alloc: Global, deeds: &mut Deeds<Body>, deed: Deed<Body>) -> Result<PackedDeed, Memory>
    requires absent { get_named deeds.old.bodies deed.0 ≡ None }
    requires room { 0 < deeds.old.spare }
    requires fits { IsTrue (suits deed.1 deed.0) }
    ensures packed { IfOk result (IsPackedDeed suits IsSpelled deed) }
    ensures same { OnOk result (deeds.new.bodies ≡ deeds.old.bodies) }
{
    match deed.pack(alloc) {
        Ok(packed) => Ok(packed),
        Err((fault, deed)) => {
            put(deeds, deed);
            Err(fault)
        }
    }
}

/// The deed of a name that is held goes away, as bytes. Memory, too, where the name isn't held, or has a body that
/// doesn't go with it.
fn take_packed(alloc: Global, deeds: &mut Deeds<Body>, name: &Name) -> Result<PackedDeed, Memory>
    ensures { IfOk result (IsTakenOut deeds.old.bodies name.now deeds.new.bodies) }
{
    if !can_leave(deeds, name) {
        return Err(unreached());
    }
    match deeds.take(*name) {
        Some(deed) => pack(alloc, deeds, deed),
        None => Err(unreached()),
    }
}

/// The deeds of node 1 as it begins: that of process 1, without children.
fn first_deeds(alloc: Global) -> Result<Deeds<Body>, Memory>
    ensures { IfOk result (λ deeds. bodies_of deeds.bodies ≡ put_named none_named (Proc 1) (LivingBody new_row)) }
{
    let row = Row {
        signals: Signals::new(),
        family: Family::new(alloc)?,
    };
    let mut deeds = Deeds::new(alloc)?;
    create(&mut deeds, &Name::Proc(Pid(1)), Body::Living(row))?;
    Ok(deeds)
}

/// As a node begins that isn't born.
fn unborn(alloc: Global, number: Node) -> Result<State, Memory>
    ensures { IfOk result (λ state. node_of state ≡ unborn_node number) }
{
    Ok(State {
        alloc,
        stage: Stage::Unborn,
        pid: Pid(0),
        parent: Pid(0),
        parent_node: LEADER,
        caller: Caller::new(alloc, number, Vars::new(alloc)),
        deeds: Deeds::new(alloc)?,
        watches: Watches::new(alloc),
        leases: Leases::none(),
        cache: Cache::new(alloc)?,
        leader: Leader::new(alloc)?,
    })
}

/// As node 1 begins, with process 1.
fn first(alloc: Global) -> Result<State, Memory>
    ensures { IfOk result (λ state. node_of state ≡ first_node) }
{
    let mut state = unborn(alloc, LEADER)?;
    state.stage = Stage::Living;
    state.pid = Pid(1);
    state.deeds = first_deeds(alloc)?;
    state.leases = Leases::first();
    Ok(state)
}

impl State {
    /// As the node begins: node 1 is born with process 1, and the others aren't born.
    pub fn new(alloc: Global, number: Node) -> Result<State, Memory>
        ensures { IfOk result (λ state. node_of state ≡ opening_node number) }
    {
        if number == LEADER {
            first(alloc)
        } else {
            unborn(alloc, number)
        }
    }

    /// The node's number, which is that of its block.
    pub fn number(&self) -> Node
        ensures { result ≡ (node_of self.now).number }
    {
        self.caller.block()
    }

    /// Whether it is node 1.
    pub fn is_leader(&self) -> bool
        ensures { result ≡ is_leader (node_of self.now) }
    {
        self.number() == LEADER
    }

    /// Whether its Checkpoint has come, or it is node 1.
    pub fn is_born(&self) -> bool
        ensures { result ≡ is_born (node_of self.now) }
    {
        !matches!(self.stage, Stage::Unborn)
    }

    /// Whether its process can start a call: it makes calls, and none is under way.
    pub fn can_run(&self) -> bool
        ensures { result ≡ can_run (node_of self.now) }
    {
        matches!(self.stage, Stage::Living) && self.caller.under_way().is_none()
    }

    /// Whether the name's deed is held here.
    #[inline(always)]
    pub fn holds(&self, name: Name) -> bool
        ensures { result ≡ holds (node_of self.now) name }
    {
        self.deeds.has(name)
    }

    /// Whether the name is of a queue or a set that is held here, and was removed.
    pub fn was_removed(&self, name: Name) -> bool
        ensures { result ≡ was_removed (get_named (node_of self.now).deeds name) }
    {
        was_removed(self.deeds.get(name))
    }

    /// The row of its own process, where that is held and lives.
    pub fn own_row(&self) -> Option<&Row>
        ensures { option_map row_of (option_copied result) ≡ own_row (node_of self.now) }
    {
        living(self.deeds.get(Name::Proc(self.pid)))
    }

    /// The call under way, where it has this ticket.
    pub fn under_way_as(&self, ticket: u32) -> Option<&Call>
        ensures { option_copied result ≡ under_way_as (node_of self.now) ticket }
    {
        if ticket == self.caller.ticket() {
            self.caller.under_way()
        } else {
            None
        }
    }

    /// The call under way, as others are asked for it.
    pub fn asked_here(&self, call: Call) -> Asked
        ensures { result ≡ asked_here (node_of self.now) call }
    {
        Asked {
            caller: self.number(),
            ticket: self.caller.ticket(),
            pid: self.pid,
            call,
        }
    }

    /// Whether it is node 1, and the frame is from another node.
    pub fn is_to_leader(&self, from: Node) -> bool
        ensures { result ≡ is_to_leader (node_of self.now) from }
    {
        self.is_leader() && from != LEADER
    }

    /// Whether it is born and not node 1, and the frame is from node 1.
    pub fn is_from_leader(&self, from: Node) -> bool
        ensures { result ≡ is_from_leader (node_of self.now) from }
    {
        !self.is_leader() && self.is_born() && from == LEADER
    }

    /// The deed of a new name, which is held here from now on. Memory, too, where the name is held already or the body
    /// doesn't go with it.
    pub fn create(&mut self, name: Name, body: Body) -> Result<(), Memory>
        ensures { OnOk result (node_of self.new ≡ keep (node_of self.old) name (body_of body)) }
    {
        create(&mut self.deeds, &name, body)
    }

    /// A deed comes. It isn't kept where its bytes spell no body that goes with its name, and then nothing has changed.
    /// Memory, too, where they spell one and the name is held already.
    pub fn keep(&mut self, deed: PackedDeed) -> Result<bool, Memory>
        ensures { IfOk result (Keeps (node_of self.old) deed (node_of self.new)) }
    {
        match read(self.alloc, deed.name, deed.body.as_slice())? {
            Some(body) => {
                self.create(deed.name, body)?;
                Ok(true)
            }
            None => Ok(false),
        }
    }

    /// A deed that is held here goes away, and its watch with it. Memory, too, where the name isn't held, or has a body
    /// that doesn't go with it.
    pub fn take_deed(&mut self, name: Name) -> Result<PackedDeed, Memory>
        ensures { IfOk result (IsTaken (node_of self.old) name (node_of self.new)) }
    {
        let packed = take_packed(self.alloc, &mut self.deeds, &name)?;
        self.watches.unwatch(name);
        Ok(packed)
    }
}
