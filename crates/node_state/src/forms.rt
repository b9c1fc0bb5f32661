//! Questions about calls, names and scripts.
ghost use Rattle.std.specs.Prelude.{◌≡◌, ◌↔◌, IsTrue, MatchOption, Some, None, true, false};
ghost use Rattle.std.specs.Option.{option_copied};
ghost use Rattle.std.specs.List.{list_any};
ghost use Rattle.kernel_model.specs.SemaphoreSet.{is_bad_count};
ghost use Rattle.waiting_model.specs.Calls.{is_withdrawal, withdrawn_from};
ghost use Rattle.kernel_model.specs.Fitting.{block_at};
ghost use Rattle.node_model.specs.Kinds.{is_object, name_of};
ghost use Rattle.node_model.specs.Leases.{takes_number};
ghost use Rattle.world_model.specs.Node.{is_node};
ghost use Rattle.world_model.specs.Calls.{is_for_others, is_on_name_or_removal};
ghost use Rattle.world_model.specs.Lives.{is_end, is_forked_by, names_block};

pub use node_calls::may_park;
use pico_base::{Block, Call, Home, Kind, Line, Name, Node, Pid, Script};

/// The name at which the wait is that the call ends, where it ends one.
pub fn withdrawn_from(call: &Call) -> Option<Name>
    ensures { result ≡ withdrawn_from call.now }
{
    match call {
        Call::Withdraw { name } => Some(*name),
        _ => None,
    }
}

/// Whether the call ends a wait.
pub fn is_withdrawal(call: &Call) -> bool
    ensures { result ≡ is_withdrawal call.now }
{
    matches!(call, Call::Withdraw { .. })
}

/// Whether a call of this home is carried out where its name or the keys are.
pub fn is_for_others(home: &Home) -> bool
    ensures { result ≡ is_for_others home.now }
{
    matches!(home, Home::At(_) | Home::Removal(_) | Home::Keys)
}

/// Whether a call of this home is carried out where its name is.
pub fn is_on_name_or_removal(home: &Home) -> bool
    ensures { result ≡ is_on_name_or_removal home.now }
{
    matches!(home, Home::At(_) | Home::Removal(_))
}

/// Whether it is a message queue or a semaphore set.
pub fn is_object(name: &Name) -> bool
    ensures { result ≡ is_object name.now }
{
    !matches!(name, Name::Proc(_))
}

/// Whether it is a node of the script.
pub fn is_node(script: &Script, node: Node) -> bool
    ensures { result ≡ is_node script.now node }
{
    node.0 >= 1 && node.0 as usize <= script.blocks.len()
}

/// The name of a kind and a number.
pub fn name_of(kind: Kind, number: u32) -> Name
    ensures { result ≡ name_of kind number }
{
    match kind {
        Kind::Proc => Name::Proc(Pid(number)),
        Kind::Msg => Name::Msg(pico_base::Id(number)),
        Kind::Sem => Name::Sem(pico_base::Id(number)),
    }
}

/// Whether it is a call of one's own that takes a number of the kind.
pub fn takes_number(kind: Kind, call: &Call) -> bool
    ensures { result ≡ takes_number kind call.now }
{
    match (kind, call) {
        (Kind::Proc, Call::Fork { .. }) => true,
        (Kind::Msg, Call::MsgGet { key: None, .. }) => true,
        (Kind::Sem, Call::SemGet { key: None, .. }) => true,
        _ => false,
    }
}

/// Whether the call ends its process.
pub fn is_end(call: &Call) -> bool
    ensures { result ≡ is_end call.now }
{
    matches!(call, Call::Exit { .. } | Call::Killed { .. })
}

/// The block of a node.
fn block_of(script: &Script, node: Node) -> Option<&Block>
    ensures { option_copied result ≡ block_at script.now node }
{
    script.blocks.as_slice().get(node.0 as usize - 1)
}

/// Whether the line forks this node's block.
fn forks(line: &Line, node: Node) -> bool
    ensures { result ≡ names_block node line.now.call }
{
    match &line.call {
        Call::Fork { block } => *block == node,
        _ => false,
    }
}

/// Whether one of the lines forks this node's block.
fn any_forks(lines: &[Line], node: Node) -> bool
    ensures { result ≡ list_any (λ line. names_block node line.call) lines.now }
{
    lines.iter().any(|line| forks(line, node))
}

/// Whether a line of the block of `from` forks this node's block.
pub fn is_forked_by(script: &Script, from: Node, node: Node) -> bool
    ensures { result ≡ is_forked_by script.now from node }
{
    match block_of(script, from) {
        Some(block) => any_forks(block.lines.as_slice(), node),
        None => false,
    }
}

/// How many semaphores a set has at most (profile).
const MAX_SEMAPHORES: u32 = 64;

/// Whether no set has so many semaphores (POSIX.1-2017, semget: EINVAL).
pub fn is_bad_count(count: u32) -> bool
    ensures { result ≡ is_bad_count count }
{
    count == 0 || count > MAX_SEMAPHORES
}
