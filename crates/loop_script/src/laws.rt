//! Laws of the reading, as functions that do nothing.
ghost use Rattle.loop_script.specs.Laws.{NoFaultIsCleared, OneReading};
ghost use Rattle.loop_script.specs.EachWord.{EachWord};
ghost use Rattle.loop_script.specs.EachDefault.{EachDefault};
ghost use Rattle.loop_script.specs.ByTables.{ReadByTables, FirstGivesNone};

/// No part of the reading clears a fault that was seen before it, so the first class is that of all parts.
pub fn no_fault_is_cleared()
    ensures { NoFaultIsCleared }
{}

/// Bytes have one reading: two scripts, two classes of fault, or a script and a class are never both right for them.
/// So each class, and the script, is answered exactly for its bytes, running out of memory apart.
pub fn bytes_have_one_reading()
    ensures { OneReading }
{}

/// What one script with each word of an action, each word of a kind and each key says, computed.
pub fn each_word_is_read()
    ensures { EachWord }
{}

/// What two scripts without each key that may be absent say, computed.
pub fn each_default_is_read()
    ensures { EachDefault }
{}

/// A script is read by the tables of its objects, words and ranges. The fault is one of shape exactly where some part
/// has a wrong type, key, word, length or number, or where some action is `give` and the version is not 2, else one of limits exactly where some number or count is out of range;
/// else the one script that the value denotes is judged by its references and its rules.
pub fn scripts_are_read_by_tables()
    ensures { ReadByTables }
{}

/// A script that is read in version 1 hands no context over: no list of actions has a `give`.
pub fn version_1_gives_none()
    ensures { FirstGivesNone }
{}
