//! The rule of the journal's lock, and what each kind of step tells the seat that makes it.
use crate::Journal;
use crate::view::View;
use atomic_table::{Join, Play, Split, TableRule};

/// The rule. Its key is the number of seats.
pub(crate) struct LockRule;

impl TableRule<Journal, View, u32> for LockRule {
    ghost use Rattle.journal_core.specs.Rule.{Kept, first_view};

    ghost holds = { Kept };

    ghost first = { λ _. first_view };
}

/// A seat draws a ticket.
pub(crate) struct Draw;

impl Play<Journal, View> for Draw {
    ghost use Rattle.journal_core.specs.Steps.{Draws};

    ghost then = { λ s m n m'. Draws m n m' };
}

/// A seat looks who is served, and takes the journal where it is the one.
pub(crate) struct Look;

impl Play<Journal, View> for Look {
    ghost use Rattle.journal_core.specs.Steps.{Looks};

    ghost then = { λ s m n m'. Looks m n m' };
}

/// A seat puts the journal back, and lets the next one be served.
pub(crate) struct PutBack;

impl Play<Journal, View> for PutBack {
    ghost use Rattle.journal_core.specs.Steps.{PutsBack};

    ghost then = { λ s m n m'. PutsBack m m' };
}

/// The first seat gives out the next number.
pub(crate) struct Another;

impl Split<View> for Another {
    ghost use Rattle.journal_core.specs.Rule.{one_more_given, newcomer};

    ghost left = { one_more_given };

    ghost right = { λ v. newcomer v.given };
}

/// The first seat takes in the share of the next one.
pub(crate) struct Gather;

impl Join<View> for Gather {
    ghost use Rattle.journal_core.specs.Rule.{with_share, spent_view};

    ghost both = { with_share };

    ghost spent = { spent_view };
}
