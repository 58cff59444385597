//! The numbers that a call from C answers, one for each class of fault.
ghost use Rattle.std.specs.Prelude.{◌≡◌};
ghost use Rattle.mainctx_c.specs.Room.{class_of};

use loop_script::ScriptFault;

/// The whole text is in the room.
pub(crate) const TEXT: u32 = 0;
/// The bytes are not one JSON value.
pub(crate) const NOT_JSON: u32 = 1;
/// A value of the wrong type, a key or a word that is unknown, a list of the wrong length.
pub(crate) const SHAPE: u32 = 2;
/// A number or a count outside its range.
pub(crate) const LIMIT: u32 = 3;
/// An index of something that the script has not.
pub(crate) const REFERENCE: u32 = 4;
/// A procedure that may not be connected or invoked, and the other rules.
pub(crate) const RULE: u32 = 5;
/// A request for memory was refused.
pub(crate) const MEMORY: u32 = 6;
/// The text is longer than the room.
pub(crate) const SHORT_ROOM: u32 = 7;
/// Something is wrong with the script, and all of it is told in the room.
pub(crate) const FAULTS: u32 = 8;

/// The number of no thread, by which a call tells of each.
pub(crate) const EACH_THREAD: u32 = u32::MAX;

/// The number of no step, by which a call tells of the end of a turn.
pub(crate) const END_OF_TURN: u64 = u64::MAX;

/// How many characters a line of a picture has at least.
pub(crate) const LEAST_COLUMNS: u32 = 50;

/// The version of the calls.
pub(crate) const VERSION: u32 = 2;

/// The number of a class of fault.
pub(crate) fn class_of(fault: ScriptFault) -> u32
    ensures { result ≡ class_of fault }
{
    match fault {
        ScriptFault::NotJson => NOT_JSON,
        ScriptFault::Shape => SHAPE,
        ScriptFault::Limit => LIMIT,
        ScriptFault::Reference => REFERENCE,
        ScriptFault::Rule => RULE,
        ScriptFault::OutOfMemory => MEMORY,
    }
}
