//! The laws of a body's bytes. No call runs here.
ghost use Rattle.node_serve.specs.Read.{ReadBodiesAreSpelled, SpelledBodiesAreRead};

/// Bytes that spell a body under a name that it goes with are those that the definitions write of it, and are read as
/// it.
pub fn spelled_bodies_are_read()
    ensures { SpelledBodiesAreRead }
{}

/// What the definitions read as a body is spelled by its bytes and goes with the name: bytes that spell no body are
/// read as none.
pub fn read_bodies_are_spelled()
    ensures { ReadBodiesAreSpelled }
{}
