//! The numbers that a node may still give.
ghost use Rattle.std.specs.Prelude.{◌≡◌, ◌+◌, ◌<◌, ◌^◌, [], ◌∷◌, IfSome, IfNone, nat_eq};
ghost use Rattle.std.specs.List.{list_any, range_with_len};
ghost use Rattle.node_model.specs.Kinds.{for_kind, with_kind};
ghost use Rattle.node_model.specs.Leases.{is_used_up, leader_leases, leases_hold, no_leases, refill};

use pico_base::{Kind, Name};
use pid_space::Lease;
use std::marker::Model;

/// For each kind the rest of the node's last range of new numbers.
#[derive(Drop)]
pub struct Leases {
    processes: Lease,
    queues: Lease,
    sets: Lease,
}

impl Model for Leases {
    ghost use Rattle.node_model.specs.Leases.{Leases as LeasesValue};

    ghost Value = { LeasesValue };

    ghost view = { λ l. record { processes = l.processes; queues = l.queues; sets = l.sets } };
}

/// The rest of the first range of processes: process 1 is there.
fn first_processes() -> Lease
    ensures { result ≡ range_with_len 2 7 }
{
    let mut lease = Lease::empty();
    lease.refill(1);
    let _ = lease.take();
    lease
}

impl Leases {
    /// All is used up.
    pub fn none() -> Leases
        ensures { result ≡ no_leases }
    {
        Leases {
            processes: Lease::empty(),
            queues: Lease::empty(),
            sets: Lease::empty(),
        }
    }

    /// As node 1 begins.
    pub fn first() -> Leases
        ensures { result ≡ leader_leases }
    {
        Leases {
            processes: first_processes(),
            queues: Lease::empty(),
            sets: Lease::empty(),
        }
    }

    /// Whether the kind's numbers are used up.
    pub fn is_used_up(&self, kind: Kind) -> bool
        ensures { result ≡ is_used_up (for_kind self.now kind) }
    {
        match kind {
            Kind::Proc => is_used_up(&self.processes),
            Kind::Msg => is_used_up(&self.queues),
            Kind::Sem => is_used_up(&self.sets),
        }
    }

    /// Whether the name's number is still to be given.
    pub fn holds(&self, name: Name) -> bool
        ensures { result ≡ leases_hold self.now name }
    {
        match name {
            Name::Proc(pid) => holds(&self.processes, pid.0),
            Name::Msg(id) => holds(&self.queues, id.0),
            Name::Sem(id) => holds(&self.sets, id.0),
        }
    }

    /// The next number of the kind.
    pub fn take(&mut self, kind: Kind) -> Option<u32>
        ensures number { IfSome result (λ number. for_kind self.old kind ≡ number ∷ for_kind self.new kind) }
        ensures none { IfNone result (for_kind self.old kind ≡ []) }
        ensures others { self.new ≡ with_kind self.old kind (for_kind self.new kind) }
    {
        match kind {
            Kind::Proc => self.processes.take(),
            Kind::Msg => self.queues.take(),
            Kind::Sem => self.sets.take(),
        }
    }

    /// The eight numbers from `first` on, where the kind's are used up.
    pub fn refill(&mut self, kind: Kind, first: u32)
        requires used_up { for_kind self.old kind ≡ [] }
        requires fits { first + 7 < 2 ^ 32 }
        ensures { self.new ≡ refill self.old kind first }
    {
        match kind {
            Kind::Proc => self.processes.refill(first),
            Kind::Msg => self.queues.refill(first),
            Kind::Sem => self.sets.refill(first),
        }
    }
}

/// Whether no number of the lease is left.
fn is_used_up(lease: &Lease) -> bool
    ensures { result ≡ is_used_up lease.now }
{
    lease.is_used_up()
}

/// Whether the number is still to be taken.
fn holds(lease: &Lease, number: u32) -> bool
    ensures { result ≡ list_any (nat_eq number) lease.now }
{
    lease.holds(number)
}
