//! Contexts go from lane to lane at the end of a tick, and the letters are delivered behind that, as `deliver` does it.
ghost use Rattle.std.specs.Prelude.{◌≡◌, ◌+◌, ◌<◌, ◌≤◌, Some, is_some, map, length, OnOk, IfOk};
ghost use Rattle.std.specs.Option.{option_and_then};
ghost use Rattle.loop_script.specs.Bounds.{most_lanes, most_ticks};
ghost use Rattle.post_office.specs.declared.letter.Body.TheVariants.{Give as GiveBody};
ghost use Rattle.lane_turn.specs.Turn.{turned};
ghost use Rattle.lane_turn.specs.Tick.{posted_at, lanes_at};
ghost use Rattle.lane_turn.specs.Handover.{handed_of, left_by, taken_over, lane_of_number, handing_by, moved, handed_over};
ghost use Rattle.tick_stepper.specs.Share.{unspent_all, lanes_in, at_number, AreLined, HasGone};

use crate::deliver::deliver_all;
use crate::fault::OutOfMemory;
use lane_turn::{HandFault, Held, LaneState};
use loop_script::Script;
use post_office::{Body, Letter};

/// What the lane of a number gave of a context, which is that lane's no more; none, and nothing is changed, where it gave none.
fn hand_over(lanes: &mut [LaneState], sender: u32, context: u32) -> Result<Option<Held>, HandFault>
    requires lined { AreLined lanes.old }
    ensures held { IfOk result (λ held. held ≡ option_and_then (handed_of context) (lane_of_number sender (lanes_in lanes.old))) }
    ensures left { OnOk result (lanes.new ≡ unspent_all (map (at_number sender (left_by context)) (lanes_in lanes.old))) }
{
    if sender as usize >= lanes.len() {
        return Ok(None);
    }
    match lanes[sender as usize].hand_over(context) {
        Ok(held) => Ok(Some(held)),
        Err(HandFault::NotGiven) => Ok(None),
        Err(fault) => Err(fault),
    }
}

/// The lane of a number takes a context over.
fn take_over(tick: u32, lanes: &mut [LaneState], to: u32, held: Held) -> Result<(), HandFault>
    requires lined { AreLined lanes.old }
    ensures { OnOk result (lanes.new ≡ unspent_all (map (at_number to (taken_over tick held)) (lanes_in lanes.old))) }
{
    if to as usize >= lanes.len() {
        return Ok(());
    }
    lanes[to as usize].take_over(tick, held)
}

/// Lets the context that a lane has given go over to the lane of a number, and answers whether one did: none does where that
/// lane gave none of its number. An error is want of memory; after it one of the lanes may be spent.
pub fn move_context(
    tick: u32,
    lanes: &mut [LaneState],
    sender: u32,
    context: u32,
    to: u32,
) -> Result<bool, HandFault>
    requires lined { AreLined lanes.old }
    ensures went { IfOk result (λ went. went ≡ is_some (handing_by sender (GiveBody context to) (lanes_in lanes.old))) }
    ensures gone { OnOk result (lanes.new ≡ unspent_all (moved tick (handing_by sender (GiveBody context to) (lanes_in lanes.old)) (lanes_in lanes.old))) }
{
    match hand_over(lanes, sender, context)? {
        None => Ok(false),
        Some(held) => {
            take_over(tick, lanes, to, held)?;
            Ok(true)
        }
    }
}

/// The context that a letter gives goes over; a letter that gives none changes nothing.
fn hand_by(tick: u32, lanes: &mut [LaneState], letter: &Letter) -> Result<(), HandFault>
    requires lined { AreLined lanes.old }
    ensures { OnOk result (HasGone tick letter.now lanes.old lanes.new) }
{
    match letter.body {
        Body::Give(context, to) => {
            move_context(tick, lanes, letter.sender, context, to)?;
            Ok(())
        }
        Body::Attach(_, _) | Body::Complete(_) | Body::Cancelled(_) => Ok(()),
    }
}

/// All contexts that letters give go over, in the order of the letters.
fn hand_all(tick: u32, lanes: &mut [LaneState], letters: &[Letter]) -> Result<(), HandFault>
    requires lined { AreLined lanes.old }
    ensures { OnOk result (lanes.new ≡ unspent_all (handed_over tick letters.now (lanes_in lanes.old))) }
{
    'letters: for letter in letters {
        hand_by(tick, lanes, letter)?;
    }
    Ok(())
}

/// Ends a tick of lanes that took their turns: the contexts that letters give go over, and then all letters are delivered.
pub(crate) fn hand_and_deliver(
    script: &Script,
    tick: u32,
    lanes: &mut [LaneState],
    letters: &[Letter],
) -> Result<(), OutOfMemory>
    requires tick { tick < most_ticks }
    requires lanes { lanes.old ≡ unspent_all (map (turned script.now tick) (lanes_at script.now tick)) }
    requires letters { letters.now ≡ posted_at script.now tick (lanes_at script.now tick) }
    requires few { length script.now.lanes ≤ most_lanes }
    ensures { OnOk result (lanes.new ≡ unspent_all (lanes_at script.now (tick + 1))) }
{
    hand_all(tick, lanes, letters)?;
    deliver_all(script, tick, lanes, letters)?;
    Ok(())
}
