//! What a run does and why, told to callers that are not Rattle.
ghost use Rattle.std.specs.Prelude.{◌≡◌, ◌≤◌, ◌<◌, ◌⊎◌, true, length};
ghost use Rattle.mainctx_c.specs.Room.{HasEithersFaultOf, LeavesRest, Tells};
ghost use Rattle.script_report.specs.Verdict.{JudgesEither};

use crate::answer::{EACH_THREAD, END_OF_TURN, LEAST_COLUMNS, MEMORY, SHORT_ROOM, TEXT, class_of};
use crate::fill;
use crate::reading::{names_of, read_script};
use inspect_picture::Point;
use inspect_run::{Asked, push_asked};
use inspect_words::{SourceName, Window};
use std::alloc::Global;

/// Puts what is asked of the run of a script of either form into a room, with its names where it has some.
fn tell(alloc: Global, script: &[u8], asked: Asked, room: &mut [u8], needed: &mut usize) -> u32
    ensures script { (result ≡ TEXT) ⊎ (result ≡ SHORT_ROOM) → JudgesEither script.now true }
    ensures whole { result ≡ TEXT → LeavesRest needed.new room.old room.new }
    ensures short { result ≡ SHORT_ROOM → length room.new < needed.new }
    ensures fault { 1 ≤ result → result < MEMORY → HasEithersFaultOf script.now result }
    ensures stays { 1 ≤ result → result ≤ MEMORY → room.new ≡ room.old }
    ensures none { 1 ≤ result → result ≤ MEMORY → needed.new ≡ 0 }
    ensures answers { result ≤ SHORT_ROOM }
{
    *needed = 0;
    let reading = match read_script(alloc, script) {
        Ok(reading) => reading,
        Err(fault) => return class_of(fault),
    };
    let Ok(names) = names_of(alloc, script, &reading.form) else {
        return MEMORY;
    };
    let mut told = String::new(alloc);
    match push_asked(alloc, reading.script, names, asked, &mut told) {
        Err(_) => MEMORY,
        Ok(()) => {
            *needed = told.len();
            fill(told.as_bytes(), room)
        }
    }
}

/// Puts the answer to a question about the run of a script of either form into a room.
fn answer(alloc: Global, script: &[u8], asked: Asked, room: &mut [u8], needed: &mut usize) -> u32
    ensures { Tells script.now result room.old room.new needed.new }
{
    tell(alloc, script, asked, room, needed)
}

/// The threads that a number names, and the ticks from one to another.
fn window_of(thread: u32, first: u32, last: u32) -> Window {
    let lane = if thread == EACH_THREAD {
        None
    } else {
        Some(thread)
    };
    Window { lane, first, last }
}

/// Tells the text of a run: of a script with names with these and with times in the place of ticks, and of one of numbers as `mainctx_run`
/// tells it. Where `notes` is not 0 a line stands behind what a move writes where the real GLib does otherwise in it.
///
/// The script is of either form. It answers 0 where all of that is in the room, and 7 where the room is too short, and has as much of it as
/// fits; in both cases `needed` is its length. Else it answers 1 to 5 where the bytes are a script of neither form, as `mainctx_translate`
/// does, and 6 where a request for memory was refused: then `needed` is 0, and the room is as it was. What is behind the text in the room
/// stays too. What is told has the names of the script where there are some, and none where the script is what `mainctx_translate` gives.
#[unsafe(no_mangle)]
pub extern "C" fn mainctx_text(
    alloc: Global,
    script: &[u8],
    notes: u32,
    room: &mut [u8],
    needed: &mut usize,
) -> u32
    ensures { Tells script.now result room.old room.new needed.new }
{
    let notes = notes != 0;
    answer(alloc, script, Asked::Text { notes }, room, needed)
}

/// Tells each source and loop of a run in one line, and what was silent: sources that were never dispatched, loops that did not end, threads
/// that halted, and why, as `mainctx_inspect summary` tells it.
///
/// Of which scripts it tells, with which names, what it answers, and what it leaves, is as of `mainctx_text`.
#[unsafe(no_mangle)]
pub extern "C" fn mainctx_summary(
    alloc: Global,
    script: &[u8],
    room: &mut [u8],
    needed: &mut usize,
) -> u32
    ensures { Tells script.now result room.old room.new needed.new }
{
    answer(alloc, script, Asked::Summary, room, needed)
}

/// Tells where the real GLib would do otherwise than a run, and by which row of docs/GLIB.md, as `mainctx_inspect notes` tells it.
///
/// Of which scripts it tells, with which names, what it answers, and what it leaves, is as of `mainctx_text`.
#[unsafe(no_mangle)]
pub extern "C" fn mainctx_notes(
    alloc: Global,
    script: &[u8],
    room: &mut [u8],
    needed: &mut usize,
) -> u32
    ensures { Tells script.now result room.old room.new needed.new }
{
    answer(alloc, script, Asked::Notes, room, needed)
}

/// Tells what a run does, a move at a time: the account of the run (docs/ACCOUNT.md), from the move `first` on, counted from 0, and of `most`
/// moves at most. The account's first line goes before them, and its last line comes where the run is over behind them.
///
/// Of which scripts it tells, with which names, what it answers, and what it leaves, is as of `mainctx_text`.
#[unsafe(no_mangle)]
pub extern "C" fn mainctx_account(
    alloc: Global,
    script: &[u8],
    first: u64,
    most: u64,
    room: &mut [u8],
    needed: &mut usize,
) -> u32
    ensures { Tells script.now result room.old room.new needed.new }
{
    let asked = Asked::Account {
        window: Window::whole(),
        first,
        most,
    };
    answer(alloc, script, asked, room, needed)
}

/// Tells why sources were dispatched or not, in words: each iteration that is begun in the ticks from `first` to `last`, with a table of its context's
/// sources, as `mainctx_inspect why` tells it.
///
/// Of which scripts it tells, with which names, what it answers, and what it leaves, is as of `mainctx_text`.
#[unsafe(no_mangle)]
pub extern "C" fn mainctx_why(
    alloc: Global,
    script: &[u8],
    first: u32,
    last: u32,
    room: &mut [u8],
    needed: &mut usize,
) -> u32
    ensures { Tells script.now result room.old room.new needed.new }
{
    let asked = Asked::Why(window_of(EACH_THREAD, first, last));
    answer(alloc, script, asked, room, needed)
}

/// Tells the life of one source, in words, in the ticks from `first` to `last`: attached by whom, each dispatch, each iteration that left it out and
/// why, destroyed by whom, as `mainctx_inspect why --source CONTEXT.ID` tells it. Where the script has no such context, or never such
/// a source, it says that it was not attached.
///
/// Of which scripts it tells, with which names, what it answers, and what it leaves, is as of `mainctx_text`.
#[unsafe(no_mangle)]
pub extern "C" fn mainctx_life(
    alloc: Global,
    script: &[u8],
    context: u32,
    id: u64,
    first: u32,
    last: u32,
    room: &mut [u8],
    needed: &mut usize,
) -> u32
    ensures { Tells script.now result room.old room.new needed.new }
{
    let name = SourceName { context, id };
    let asked = Asked::Life(name, window_of(EACH_THREAD, first, last));
    answer(alloc, script, asked, room, needed)
}

/// Tells each step of each turn of a thread, or of each where `thread` is 4,294,967,295, in the ticks from `first` to `last`: what is done, what is in
/// progress after it from the outermost inwards, and the lines of the text that it writes, as `mainctx_inspect steps` tells it.
///
/// Of which scripts it tells, with which names, what it answers, and what it leaves, is as of `mainctx_text`.
#[unsafe(no_mangle)]
pub extern "C" fn mainctx_steps(
    alloc: Global,
    script: &[u8],
    thread: u32,
    first: u32,
    last: u32,
    room: &mut [u8],
    needed: &mut usize,
) -> u32
    ensures { Tells script.now result room.old room.new needed.new }
{
    let asked = Asked::Steps(window_of(thread, first, last));
    answer(alloc, script, asked, room, needed)
}

/// Tells what a thread is in the middle of at one moment of a tick, after `step` steps of its turn, or at the turn's end where `step` is
/// 18,446,744,073,709,551,615, as `mainctx_inspect stack` tells it. Where the run has no such thread, tick or step, it tells nothing: the
/// answer is 0, and so is `needed`.
///
/// Of which scripts it tells, with which names, what it answers, and what it leaves, is as of `mainctx_text`.
#[unsafe(no_mangle)]
pub extern "C" fn mainctx_stack(
    alloc: Global,
    script: &[u8],
    thread: u32,
    tick: u32,
    step: u64,
    room: &mut [u8],
    needed: &mut usize,
) -> u32
    ensures { Tells script.now result room.old room.new needed.new }
{
    let step = if step == END_OF_TURN {
        None
    } else {
        Some(step)
    };
    let point = Point {
        lane: thread,
        tick,
        step,
    };
    answer(alloc, script, Asked::Stack(point), room, needed)
}

/// Draws the run of a thread, or of each where `thread` is 4,294,967,295, in the ticks from `first` to `last`: a row for each source, loop, task and
/// cancellable, with time going right, in lines of `columns` characters at most, as `mainctx_inspect timeline` draws it; of fewer than 50 as of
/// 50.
///
/// Of which scripts it tells, with which names, what it answers, and what it leaves, is as of `mainctx_text`.
#[unsafe(no_mangle)]
pub extern "C" fn mainctx_timeline(
    alloc: Global,
    script: &[u8],
    thread: u32,
    first: u32,
    last: u32,
    columns: u32,
    room: &mut [u8],
    needed: &mut usize,
) -> u32
    ensures { Tells script.now result room.old room.new needed.new }
{
    let asked = Asked::Timeline {
        window: window_of(thread, first, last),
        columns: columns.max(LEAST_COLUMNS),
    };
    answer(alloc, script, asked, room, needed)
}
