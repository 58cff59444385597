//! What sources and handlers are called, given as they come, move by move, and the procedure that a source calls.
use account::{Account, Deed, Moment};
use lane_turn::{Event, LaneState, Named, Place};
use loop_script::{Action, Body};
use run_names::{Origin, RunNames};
use std::alloc::AllocError;

/// The id of a handler that is connected too late: it is called at once, and is none that has a name.
pub(crate) const TOO_LATE: u64 = 0;

/// Gives names to what the latest moment of a run attached or connected.
pub fn follow_names(
    names: &mut RunNames,
    account: &Account,
    moment: &Moment,
) -> Result<(), AllocError> {
    if !names.are_there() {
        return Ok(());
    }
    let Some(lane) = account.lane(moment.lane) else {
        return Ok(());
    };
    let action = match moment.deed {
        Deed::Acted { body, place } => account.script().actions(body).get(place),
        _ => None,
    };
    if let Some(Action::Connect { slot, .. }) = action {
        match lane.slots().get(usize::from(*slot)) {
            Some(Some(Named::Handler(id))) if *id != TOO_LATE => {
                names.add_handler(moment.lane, *id, Origin::Slot(u32::from(*slot)))?;
            }
            _ => {}
        }
    }
    if let Some(place) = moment.attached(account.script(), lane) {
        if let Some(origin) = origin_of(lane, action, place) {
            names.add_source(place.context, place.id, origin)?;
        }
    }
    Ok(())
}

/// What a source is named after that an action or a letter attached: a slot, a reply or a procedure.
fn origin_of(lane: &LaneState, action: Option<&Action>, place: Place) -> Option<Origin> {
    match action {
        Some(Action::Attach { slot, .. }) => Some(Origin::Slot(u32::from(*slot))),
        Some(Action::Child { slot, .. }) => Some(Origin::Slot(u32::from(*slot))),
        _ => match lane.awaited(place.context, place.id) {
            Some(awaited) => Some(Origin::Reply {
                lane: awaited.sender,
                number: awaited.reply.task,
            }),
            None => callee_of(lane, place).map(Origin::Invoke),
        },
    }
}

/// The procedure that a source calls; none where it calls none.
pub(crate) fn callee_of(lane: &LaneState, place: Place) -> Option<u32> {
    lane.sources(place.context)?.found(place.id)?.call
}
