//! What a right script has, in words: how many lanes, sources, tasks.
use loop_script::{Action, LaneSpec, Script};
use std::alloc::{AllocError, Global};

/// What the threads of a script are called.
#[derive(Clone, Copy)]
pub(crate) enum Threads {
    /// In a script of numbers.
    Lanes,
    /// In one with names.
    Threads,
}

/// One line that sums a script up.
pub(crate) fn summary(
    alloc: Global,
    threads: Threads,
    script: &Script,
) -> Result<String, AllocError> {
    let lanes = script.lanes();
    let contexts = script.contexts();
    let ticks = script.ticks();
    let mut sources = 0u64;
    for n in 0..lanes {
        sources = sources.saturating_add(attached(script.lane(n)));
    }
    let lane_word = match (threads, lanes) {
        (Threads::Lanes, 1) => "lane",
        (Threads::Lanes, _) => "lanes",
        (Threads::Threads, 1) => "thread",
        (Threads::Threads, _) => "threads",
    };
    let context_word = if contexts == 1 { "context" } else { "contexts" };
    let source_word = if sources == 1 { "source" } else { "sources" };
    let tick_word = if ticks == 1 { "tick" } else { "ticks" };
    format!(in alloc;
        "no fault: {lanes} {lane_word}, {contexts} {context_word}, {sources} {source_word} attached at start, {ticks} {tick_word}\n"
    )
}

/// How many sources the start list of a lane attaches.
fn attached(lane: &LaneSpec) -> u64 {
    let mut count = 0u64;
    for action in lane.start.as_slice() {
        if matches!(action, Action::Attach { .. } | Action::Child { .. }) {
            count = count.saturating_add(1);
        }
    }
    count
}
