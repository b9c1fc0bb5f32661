//! What was held for a name is released, once it has come.
ghost use Rattle.std.specs.Prelude.{◌≡◌, ◌++◌, IfOk, OnOk, Some, reverse};
ghost use Rattle.kernel_model.specs.Script.{IsSoundScript};
ghost use Rattle.world_model.specs.Releases.{release};
ghost use Rattle.node_state.specs.State.{step_of};
ghost use Rattle.end_rules.specs.Ending.{Rounds, TakesOff};

use crate::ends::end_process;
use lease_leader::HeldList;
use node_model::Held;
use node_state::Growing;
use pico_base::{Memory, Script};
use route_rules::route_held;

/// Takes an item off: a call or a withdrawal is routed, and of a parcel the process ends. What that releases goes in
/// front of the rest.
fn take_off(step: &mut Growing, script: &Script, item: Held) -> Result<Option<HeldList>, Memory>
    requires sound { IsSoundScript script.now }
    ensures { IfOk result (TakesOff script.now (step_of step.old) item (step_of step.new)) }
{
    match item {
        Held::Request(asked) => {
            step.node.leader.directory.places_rise();
            route_held(step, script, asked)?;
            Ok(None)
        }
        Held::Ending(parcel) => end_process(step, script, parcel),
    }
}

/// The items come next, in order, in front of those that wait. The next one stands last.
fn put_in_front(waiting: &mut Vec<Held>, items: HeldList) -> Result<(), Memory>
    ensures { OnOk result (reverse waiting.new.items ≡ items ++ reverse waiting.old.items) }
{
    let mut items = items.into_vec();
    items.reverse();
    waiting.append(&mut items)?;
    Ok(())
}

/// Takes items off until a parcel's end releases others, which are then in front. Whether it came to that: else no item
/// is left.
fn release_round(
    step: &mut Growing,
    script: &Script,
    waiting: &mut Vec<Held>,
) -> Result<bool, Memory>
    requires sound { IsSoundScript script.now }
    ensures { IfOk result (Rounds script.now (step_of step.old) (reverse waiting.old.items) (step_of step.new)
        (reverse waiting.new.items)) }
{
    while let Some(item) = waiting.pop() {
        if let Some(items) = take_off(step, script, item)? {
            put_in_front(waiting, items)?;
            return Ok(true);
        }
    }
    Ok(false)
}

/// The release rule: the first item is taken off. A call or a withdrawal is routed, and of a parcel the process ends,
/// and what that releases goes in front. Memory, too, where one of the items has no rule.
pub fn release(step: &mut Growing, script: &Script, items: HeldList) -> Result<(), Memory>
    requires sound { IsSoundScript script.now }
    ensures { OnOk result (release script.now items (step_of step.old) ≡ Some (step_of step.new)) }
{
    let mut waiting = Vec::new(step.node.alloc);
    put_in_front(&mut waiting, items)?;
    while release_round(step, script, &mut waiting)? {}
    Ok(())
}
