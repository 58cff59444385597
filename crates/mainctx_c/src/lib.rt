//! The engine for callers that are not Rattle, with C's calling convention.
#![tactic(auto)]

ghost use Rattle.std.specs.Prelude.{◌≡◌, ◌≤◌, ◌<◌, ◌⊎◌, true, false, length};
ghost use Rattle.mainctx_c.specs.Room.{HasAll, HasFront, HasFaultOf, HasEithersFaultOf, HoldsText, HoldsFront, HoldsNumbers, HoldsNumbersFront};
ghost use Rattle.script_report.specs.Verdict.{JudgesEither};

mod answer;
mod reading;
mod telling;

use crate::answer::{FAULTS, MEMORY, SHORT_ROOM, TEXT, VERSION, class_of};
use crate::reading::read_script;
use mainctx::{MainFault, OverWrite, run_alone};
use script_report::{Form, Language, check_either};
use std::alloc::Global;

/// Puts a text into a room, as much of it as fits, and answers whether that is the whole.
fn fill(text: &[u8], room: &mut [u8]) -> u32
    ensures whole { result ≡ TEXT → HasAll text.now room.old room.new }
    ensures front { result ≡ SHORT_ROOM → HasFront text.now room.new }
    ensures answers { (result ≡ TEXT) ⊎ (result ≡ SHORT_ROOM) }
{
    let most = room.len();
    if text.len() <= most {
        room[..text.len()].copy_from_slice(text);
        TEXT
    } else {
        room.copy_from_slice(&text[..most]);
        SHORT_ROOM
    }
}

/// Runs a script of numbers to its end in the caller's thread.
///
/// It answers 0 where the whole text is in the room, and 7 where the room is too short, and has as much of the text as fits; in both
/// cases `needed` is the text's length. Else it answers 1 to 5 where the bytes are no script, by the class of their fault, and 6
/// where a request for memory was refused: then `needed` is 0, and the room is as it was. What is behind the text in the room
/// stays too.
#[unsafe(no_mangle)]
pub extern "C" fn mainctx_run(
    alloc: Global,
    script: &[u8],
    room: &mut [u8],
    needed: &mut usize,
) -> u32
    ensures text { result ≡ TEXT → HoldsText script.now room.old room.new needed.new }
    ensures front { result ≡ SHORT_ROOM → HoldsFront script.now room.new needed.new }
    ensures fault { 1 ≤ result → result < MEMORY → HasFaultOf script.now result }
    ensures stays { 1 ≤ result → result ≤ MEMORY → room.new ≡ room.old }
    ensures none { 1 ≤ result → result ≤ MEMORY → needed.new ≡ 0 }
    ensures answers { result ≤ SHORT_ROOM }
{
    *needed = 0;
    let mut out = OverWrite::new(Vec::new(alloc));
    match run_alone(alloc, script, &mut out) {
        Ok(()) => {
            let text = out.into_inner();
            *needed = text.len();
            fill(&text, room)
        }
        Err(MainFault::Script(fault)) => class_of(fault),
        // (the writer is a list, which fails for want of memory alone)
        Err(MainFault::OutOfMemory | MainFault::Write) => MEMORY,
        Err(MainFault::Setup(_)) => unreachable!(),
    }
}

/// Puts the script of numbers that a script with names stands for into a room, and of a script of numbers its own bytes.
///
/// It answers 0 where the whole of it is in the room, and 7 where the room is too short, and has as much of it as fits; in both cases
/// `needed` is its length. Else it answers 1 to 5 where the bytes are a script of neither form, by the class of fault of the script of
/// numbers that they stand for, where they stand for one, else by their own as a script of numbers, and 6 where a request for memory was
/// refused: then `needed` is 0, and the room is as it was. What is behind the script in the room stays too.
#[unsafe(no_mangle)]
pub extern "C" fn mainctx_translate(
    alloc: Global,
    script: &[u8],
    room: &mut [u8],
    needed: &mut usize,
) -> u32
    ensures numbers { result ≡ TEXT → HoldsNumbers script.now room.old room.new needed.new }
    ensures front { result ≡ SHORT_ROOM → HoldsNumbersFront script.now room.new needed.new }
    ensures fault { 1 ≤ result → result < MEMORY → HasEithersFaultOf script.now result }
    ensures stays { 1 ≤ result → result ≤ MEMORY → room.new ≡ room.old }
    ensures none { 1 ≤ result → result ≤ MEMORY → needed.new ≡ 0 }
    ensures answers { result ≤ SHORT_ROOM }
{
    *needed = 0;
    match read_script(alloc, script) {
        Ok(reading) => {
            let numbers = reading.numbers(script);
            *needed = numbers.len();
            fill(numbers, room)
        }
        Err(fault) => class_of(fault),
    }
}

/// Tells what is wrong with a script of either form: each fault as a JSON object on a line, as `mainctx_check --json` tells it.
///
/// It answers 0 where nothing is wrong: then `mainctx_run` runs the script of numbers that `mainctx_translate` gives, `needed` is 0, and the
/// room is as it was. It answers 8 where
/// all that is wrong is told in the room, and 7 where the room is too short, and has as much of that as fits; in both cases `needed` is
/// its length. It answers 6 where a request for memory was refused: then `needed` is 0, and the room is as it was. What is behind
/// the text in the room stays too.
#[unsafe(no_mangle)]
pub extern "C" fn mainctx_check(
    alloc: Global,
    script: &[u8],
    room: &mut [u8],
    needed: &mut usize,
) -> u32
    ensures fine { result ≡ TEXT → JudgesEither script.now true }
    ensures faulty { (result ≡ FAULTS) ⊎ (result ≡ SHORT_ROOM) → JudgesEither script.now false }
    ensures stays { result ≤ MEMORY → room.new ≡ room.old }
    ensures none { result ≤ MEMORY → needed.new ≡ 0 }
    ensures answers { (result ≡ TEXT) ⊎ (MEMORY ≤ result × result ≤ FAULTS) }
{
    *needed = 0;
    let mut told = String::new(alloc);
    let form = Form {
        json: true,
        name: "",
        language: Language::Json,
    };
    match check_either(alloc, &form, script, &mut told) {
        Err(_) => MEMORY,
        Ok(true) => TEXT,
        Ok(false) => {
            *needed = told.len();
            match fill(told.as_bytes(), room) {
                TEXT => FAULTS,
                _ => SHORT_ROOM,
            }
        }
    }
}

/// The version of these calls. It rises where one of them is changed in a way that a caller may notice.
#[unsafe(no_mangle)]
pub extern "C" fn mainctx_version() -> u32
    ensures { result ≡ VERSION }
{
    VERSION
}
