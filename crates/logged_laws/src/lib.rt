//! What the turns of a node that logs keep true: its log says all of them, with what was sent and taken. No call runs
//! here.
#![tactic(auto)]

ghost use Rattle.logged_laws.specs.Laws.{NewNodesAreLogged, TurnsKeepLogs};

/// A new node's log says all of its turns.
pub fn new_nodes_are_logged()
    ensures { NewNodesAreLogged }
{}

/// Each turn keeps what a node's log says of its turns: they are the machine's, in order, with what was sent and taken.
pub fn turns_keep_logs()
    ensures { TurnsKeepLogs }
{}
