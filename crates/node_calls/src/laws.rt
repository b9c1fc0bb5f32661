//! Laws of a caller's places. No code runs here.
ghost use Rattle.node_calls.specs.Law.{CallersBeginAtTheirBlocks, RepliesMovePlaces};

/// A reply moves the place as a history that fits the script has it.
pub fn replies_move_places()
    ensures { RepliesMovePlaces }
{}

/// A process begins where a history that fits the script has it begin.
pub fn callers_begin_at_their_blocks()
    ensures { CallersBeginAtTheirBlocks }
{}
