//! What the arguments ask of a run, in the words of what tells of it.
use inspect_arguments::{Command, Order};
use inspect_picture::Point;
use inspect_run::Asked;
use inspect_words::{SourceName, Window};

/// What is asked of a run as a whole.
pub(crate) fn asked_of(order: &Order<'_>) -> Asked {
    let window = window_of(order);
    match (order.command, source_of(order)) {
        (Command::Text, _) => Asked::Text { notes: order.notes },
        (Command::Summary, _) => Asked::Summary,
        (Command::Account, _) => Asked::Account {
            window,
            first: 0,
            most: u64::MAX,
        },
        (Command::Steps, _) => Asked::Steps(window),
        (Command::Timeline, _) => Asked::Timeline {
            window,
            columns: order.columns,
        },
        (Command::Notes, _) => Asked::Notes,
        (_, Some(name)) => Asked::Life(name, window),
        (_, None) => Asked::Why(window),
    }
}

/// The part of the run of which is asked.
fn window_of(order: &Order<'_>) -> Window {
    let mut window = Window::whole();
    window.lane = order.lane;
    if let Some(ticks) = order.ticks {
        window.first = ticks.first;
        window.last = ticks.last;
    }
    window
}

/// The source of which is asked.
fn source_of(order: &Order<'_>) -> Option<SourceName> {
    let source = order.source?;
    Some(SourceName {
        context: source.context,
        id: u64::from(source.id),
    })
}

/// The moment of a turn of which is asked, where a thread and a tick are named.
pub(crate) fn point_of(order: &Order<'_>) -> Option<Point> {
    Some(Point {
        lane: order.lane?,
        tick: order.tick?,
        step: order.step.map(u64::from),
    })
}
