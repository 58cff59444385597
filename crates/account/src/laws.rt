//! What an account says of an attached source, as a law of the definitions: a function that does nothing.
ghost use Rattle.account.specs.Gained.{TellsAttach, TellsChild};

/// Where an action attaches a source and names it by a slot of the lane, the source that the moment tells is the next one of its
/// context in the lane before it; where the action misses, none is told.
pub fn attached_is_next()
    ensures attach { TellsAttach }
    ensures child { TellsChild }
{}
