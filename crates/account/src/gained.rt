//! What a move leaves in its lane: the source that it attached, and the ids that an iteration selected.
ghost use Rattle.std.specs.Prelude.{◌≡◌, map, option_map, slice_get};
ghost use Rattle.std.specs.Option.{option_copied};
ghost use Rattle.source_rows.specs.Rows.{in_order};
ghost use Rattle.lane_turn.specs.Lane.{context_at, place_at};
ghost use Rattle.account.specs.Gained.{attached_by, by_action, by_line, first_line, ids_left, newest, newest_of, selected_by};

use crate::moment::{Deed, Moment};
use lane_turn::{Activity, Event, Invoked, LaneState, Named, Place};
use loop_script::{Action, Script};
use source_rows::Rows;

/// The source that a slot names once an action of the lane has attached one to it.
fn named_by(lane: &LaneState, slot: u8) -> Option<Place>
    ensures { result ≡ place_at slot lane.now.lane }
{
    match lane.slots().get(slot as usize) {
        Some(Some(Named::Source(place))) => Some(*place),
        _ => None,
    }
}

/// The id that was given last of those that a context has now, or 0 where it has none.
fn newest(rows: &Rows) -> u64
    ensures { result ≡ newest 0 (map (λ r. r.id) (in_order rows.now.rows)) }
{
    let mut newest: u64 = 0;
    'ids: for id in rows.ordered() {
        newest = newest.max(*id);
    }
    newest
}

/// The source of a context that was attached last, of those that it has.
fn newest_of(lane: &LaneState, context: u32) -> Option<Place>
    ensures { result ≡ newest_of context (context_at context lane.now.lane) }
{
    match lane.sources(context) {
        None => None,
        Some(rows) => Some(Place {
            context,
            id: newest(rows),
        }),
    }
}

/// What an action attached.
fn by_action(line: Option<Event>, action: Option<&Action>, lane: &LaneState) -> Option<Place>
    ensures { result ≡ by_action line (option_copied action.entry) lane.now.lane }
{
    match (line, action) {
        (None, Some(Action::Attach { slot, .. } | Action::Child { slot, .. })) => {
            named_by(lane, *slot)
        }
        (Some(Event::Invoke(_, Invoked::Attached)), Some(Action::Invoke { context, .. })) => {
            newest_of(lane, *context)
        }
        _ => None,
    }
}

/// What a letter attached.
fn by_line(line: Option<Event>) -> Option<Place>
    ensures { result ≡ by_line line }
{
    match line {
        Some(Event::Arrive(context, id)) => Some(Place { context, id }),
        _ => None,
    }
}

/// The ids that the innermost iteration has left, where an iteration is innermost.
fn ids_left(lane: &LaneState) -> Option<&[u64]>
    ensures { option_map (λ r. r.now) result ≡ ids_left lane.now.lane.frames }
{
    match lane.frames().last() {
        None => None,
        Some(Activity::Call(_)) => None,
        Some(Activity::Iteration { left, .. }) => Some(left),
        Some(Activity::Loop { .. }) => None,
    }
}

impl Moment {
    /// The first line that the move wrote, in the lane as the move left it.
    fn first_line(&self, lane: &LaneState) -> Option<Event>
        ensures { result ≡ first_line self.now lane.now.lane }
    {
        if self.from < self.to {
            lane.trace().get(self.from).map(|line| line.event)
        } else {
            None
        }
    }

    /// The source that the move attached, by an action or a letter; None where it attached none. The lane is that of the moment, as
    /// the move left it.
    pub fn attached(&self, script: &Script, lane: &LaneState) -> Option<Place>
        ensures { result ≡ attached_by script.now self.now lane.now.lane }
    {
        let line = self.first_line(lane);
        match self.deed {
            Deed::Acted { body, place } => by_action(line, script.actions(body).get(place), lane),
            Deed::Received { .. } => by_line(line),
            _ => None,
        }
    }

    /// The ids that an iteration which the move began has selected, in the order of dispatch; None where it began none. The lane is
    /// that of the moment, as the move left it.
    pub fn selected<'a>(&self, script: &Script, lane: &'a LaneState) -> Option<&'a [u64]>
        ensures { option_map (λ r. r.now) result ≡ selected_by script.now self.now.deed lane.now.lane }
    {
        match self.deed {
            Deed::Acted { body, place } => match script.actions(body).get(place) {
                Some(Action::Iterate(_)) => ids_left(lane),
                _ => None,
            },
            Deed::Iterated { .. } => ids_left(lane),
            _ => None,
        }
    }
}
