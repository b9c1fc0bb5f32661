//! Whether the numbers that were read can be those of a process's children.
ghost use Rattle.std.specs.Prelude.{◌≡◌, ◌↔◌, ◌++◌, IsTrue, map, nat_eq};
ghost use Rattle.std.specs.List.{list_any};
ghost use Rattle.fork_wait.specs.Children.{AreChildren, are_different};

use crate::ended::Ended;
use crate::family::MOST;
use pico_base::Pid;

/// Whether the number is one of the living children's.
fn has_living(living: &[Pid], child: Pid) -> bool
    ensures { result ≡ list_any (nat_eq child) living.now }
{
    living.iter().any(|pid| child == *pid)
}

/// Whether the number is one of the ended children's.
fn has_ended(ended: &[Ended], child: Pid) -> bool
    ensures { result ≡ list_any (λ e. nat_eq child e.pid) ended.now }
{
    ended.iter().any(|e| child == e.pid)
}

/// Whether the number is one of the children's.
pub(crate) fn has(living: &[Pid], ended: &[Ended], child: Pid) -> bool
    ensures { result ≡ list_any (nat_eq child) (living.now ++ map (λ e. e.pid) ended.now) }
{
    has_living(living, child) | has_ended(ended, child)
}

/// Whether no ended child's number is there twice.
fn ended_differ(ended: &[Ended]) -> bool
    ensures { result ≡ are_different (map (λ e. e.pid) ended.now) }
{
    match ended {
        [] => true,
        [first, rest @ ..] => !has_ended(rest, first.pid) && ended_differ(rest),
    }
}

/// Whether no child's number is there twice.
fn all_differ(living: &[Pid], ended: &[Ended]) -> bool
    ensures { result ≡ are_different (living.now ++ map (λ e. e.pid) ended.now) }
{
    match living {
        [] => ended_differ(ended),
        [first, rest @ ..] => !has(rest, ended, *first) && all_differ(rest, ended),
    }
}

/// Whether these can be the children of a process: at most 31 numbers, all different and none 0.
pub(crate) fn are_children(living: &[Pid], ended: &[Ended]) -> bool
    ensures { IsTrue result ↔ AreChildren (living.now ++ map (λ e. e.pid) ended.now) }
{
    if living.len() > MOST || ended.len() > MOST - living.len() {
        return false;
    }
    if has(living, ended, Pid(0)) {
        return false;
    }
    all_differ(living, ended)
}
