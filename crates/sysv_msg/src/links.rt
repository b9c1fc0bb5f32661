//! Which of a queue's messages a receive asks for.
ghost use Rattle.std.specs.Prelude.{◌≡◌, ℤ, pos, ◌-ℤ◌, ◌<ℤ◌, FitsSigned, MatchOption, int_le, length};
ghost use Rattle.std.specs.Int.{w32};
ghost use Rattle.std.specs.List.{AllByRecursion};
ghost use Rattle.kernel_model.specs.Queue.{Queue, select};
ghost use Rattle.sysv_msg.specs.Limits.{IsSendable};
ghost use Rattle.sysv_msg.specs.Going.{can_receive};
ghost use Rattle.sysv_msg.specs.Linked.{asks_for, messages_of, slot_for, IsSelected};

use index_links::{Links, Slot};
use pico_base::Bytes;

/// The absolute value of a type below 0, or the highest type there is.
fn bound_of(class: i32) -> i32
    requires { class <ℤ pos 0 }
    ensures { (c : ℤ) → FitsSigned w32 c → int_le c result ≡ int_le c (pos 0 -ℤ class) }
{
    if class == i32::MIN { i32::MAX } else { -class }
}

/// The slot of the first message of the lowest type that isn't above a type's absolute value, where that is below 0.
fn slot_of_lowest(links: &Links<Bytes>, class: i32) -> Option<Slot>
    requires negative { class <ℤ pos 0 }
    requires fits { AllByRecursion (λ n. FitsSigned w32 n.class) links.now.nodes }
    ensures { result ≡ slot_for class links.now.nodes }
{
    let least = links.least_class_upto(bound_of(class))?;
    links.first_of(least)
}

/// Whether a receive of the first type asks for a message of the second.
#[inline(always)]
fn asks_for(class: i32, of: i32) -> bool
    ensures { result ≡ asks_for class of }
{
    if class < 0 {
        of <= bound_of(class)
    } else {
        class == 0 || of == class
    }
}

/// Whether a receive of this type asks for the only message.
#[inline(always)]
pub(crate) fn is_only_of(links: &Links<Bytes>, class: i32) -> bool
    requires { length links.now.nodes ≡ 1 }
    ensures { (q : Queue) → q.messages ≡ messages_of links.now.nodes → result ≡ can_receive q class }
{
    match links.first() {
        Some(slot) => asks_for(class, links.class(slot)),
        None => false,
    }
}

/// The slot of the message that a receive of this type asks for: of the first message for 0, of the first of this
/// type where it is positive, and of the first of the lowest type that isn't above its absolute value where it is
/// negative. None where there is none.
#[tactic(auto, using(crate::proofs::Selected::slots))]
fn slot_of(links: &Links<Bytes>, class: i32) -> Option<Slot>
    requires { AllByRecursion (λ n. FitsSigned w32 n.class) links.now.nodes }
    ensures { result ≡ slot_for class links.now.nodes }
{
    if class < 0 {
        slot_of_lowest(links, class)
    } else if class > 0 {
        links.first_of(class)
    } else {
        links.first()
    }
}

/// The slot of the message that a receive of this type asks for. It takes no memory, and doesn't walk over messages.
#[inline(always)]
pub(crate) fn selected(links: &Links<Bytes>, class: i32) -> Option<Slot>
    requires { AllByRecursion IsSendable (messages_of links.now.nodes) }
    ensures { MatchOption result (select (messages_of links.now.nodes) class ≡ None)
        (λ slot. IsSelected class links.now.nodes slot) }
{
    links.have_own_slots();
    slot_of(links, class)
}
