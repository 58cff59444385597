//! The ticks of a run that are left, with workers that stay for all of them.
ghost use Rattle.std.specs.Prelude.{◌≡◌, ◌<◌, ◌≤◌, ◌+◌, None, map, length, IfOk};
ghost use Rattle.std.specs.List.{flat_map};
ghost use Rattle.loop_script.specs.Bounds.{most_lanes, most_ticks};
ghost use Rattle.tick_stepper.specs.Call.{AreOwn};
ghost use Rattle.tick_stepper.specs.Crew.{refusal_of};
ghost use Rattle.tick_stepper.specs.Rest.{AreAt};
ghost use Rattle.tick_stepper.specs.Share.{turned_one, out_of_one, IsRound};
ghost use denote.Param.Send.{IsSync};

use crate::calls::Planned;
use crate::channels::{Channels, Opened, open_channels};
use crate::crew::Crew;
use crate::deal::share_out;
use crate::fault::OutOfMemory;
use crate::gate::Gate;
use crate::rest::{Resting, any_due};
use crate::round::{Parted, begin_tick, end_tick, turn_alone};
use crate::share::in_order;
use crate::stay::{answer_all, calls_of, collect, have_numbers, numbers_of, work};
use lane_turn::LaneState;
use loop_script::Script;
use post_office::{Letter, merge};
use std::alloc::Global;
use std::sync::Wait;
use std::thread;
use std::thread::Threads;

/// Lanes after their turns at a tick, by number, and what they posted, by sender and number. The caller and workers that stay
/// take these turns; a caller that is alone takes them where the lanes stand. `OutOfMemory` stands for lanes of other numbers, too:
/// each worker gives back the lanes that it got, which no clause says.
fn turn_each<J: Planned, R: Wait, G: Gate>(
    rt: &R,
    alloc: Global,
    gate: &G,
    script: &Script,
    tick: u32,
    crew: &Crew,
    channels: &Channels<J>,
    lanes: Vec<LaneState>,
) -> Result<(Vec<LaneState>, Vec<Letter>), OutOfMemory>
    requires plan { script.now ≡ J.plan }
    requires few { length script.now.lanes ≤ most_lanes }
    requires tick { tick < most_ticks }
    requires crew { refusal_of script.now crew.now.workers crew.now.sharing ≡ None }
    requires lanes { IsRound script.now tick lanes.items }
    requires own { AreOwn script.now tick lanes.items }
    ensures lanes { IfOk result (λ r. r.0.items ≡ map (turned_one script.now tick) lanes.items) }
    ensures letters { IfOk result (λ r. r.1.items ≡ flat_map (out_of_one script.now tick) lanes.items) }
{
    if crew.workers == 1 {
        return turn_alone(alloc, gate, script, tick, lanes);
    }
    let numbers = numbers_of(alloc, lanes.as_slice())?;
    let shares = share_out(alloc, crew, lanes)?;
    let calls = calls_of::<J>(alloc, tick, shares)?;
    let replies = answer_all(rt, alloc, gate, script, channels, calls)?;
    let (lanes, letters) = collect(alloc, tick, replies)?;
    let lanes = in_order(lanes)?;
    if !have_numbers(lanes.as_slice(), numbers.as_slice()) {
        return Err(OutOfMemory);
    }
    let letters = merge(alloc, letters)?;
    Ok((lanes, letters))
}

/// A tick of the lanes of a run, as `run_tick`, with workers that stay.
fn step_tick<J: Planned, R: Wait, G: Gate>(
    rt: &R,
    alloc: Global,
    gate: &G,
    script: &Script,
    tick: u32,
    crew: &Crew,
    channels: &Channels<J>,
    lanes: Vec<Resting>,
) -> Result<Vec<Resting>, OutOfMemory>
    requires plan { script.now ≡ J.plan }
    requires few { length script.now.lanes ≤ most_lanes }
    requires tick { tick < most_ticks }
    requires left { tick < script.now.ticks }
    requires crew { refusal_of script.now crew.now.workers crew.now.sharing ≡ None }
    requires lanes { AreAt script.now tick lanes.items }
    ensures { IfOk result (λ lanes. AreAt script.now (tick + 1) lanes.items) }
{
    if !any_due(lanes.as_slice(), tick) {
        return Ok(lanes);
    }
    let Parted { due, resting } = begin_tick(alloc, script, tick, lanes)?;
    let (done, letters) = turn_each(rt, alloc, gate, script, tick, crew, channels, due)?;
    end_tick(alloc, script, tick, done, letters.as_slice(), resting)
}

/// All ticks of a run from one on, with workers that stay.
fn step_ticks<J: Planned, R: Wait, G: Gate>(
    rt: &R,
    alloc: Global,
    gate: &G,
    script: &Script,
    crew: &Crew,
    first: u32,
    channels: Channels<J>,
    mut lanes: Vec<Resting>,
) -> Result<Vec<Resting>, OutOfMemory>
    requires plan { script.now ≡ J.plan }
    requires few { length script.now.lanes ≤ most_lanes }
    requires first { first ≤ script.now.ticks }
    requires crew { refusal_of script.now crew.now.workers crew.now.sharing ≡ None }
    requires lanes { AreAt script.now first lanes.items }
    ensures { IfOk result (λ lanes. AreAt script.now script.now.ticks lanes.items) }
{
    for tick in first..script.ticks() {
        lanes = step_tick(rt, alloc, gate, script, tick, crew, &channels, lanes)?;
    }
    Ok(lanes)
}

/// All ticks of a run from one on. Workers are started once, and stay until the last; where one can't be started, there are
/// fewer.
#[tactic(auto, using(crate::proofs::Crossing::place_send, crate::proofs::Crossing::script_sync))]
pub(crate) fn run_ticks<J: Planned + Send + Sync, R: Threads + Wait + Sync, G: Gate>(
    rt: &R,
    alloc: Global,
    gate: &G,
    script: &Script,
    crew: &Crew,
    first: u32,
    lanes: Vec<Resting>,
) -> Result<Vec<Resting>, OutOfMemory>
    requires plan { script.now ≡ J.plan }
    requires few { length script.now.lanes ≤ most_lanes }
    requires first { first ≤ script.now.ticks }
    requires crew { refusal_of script.now crew.now.workers crew.now.sharing ≡ None }
    requires lanes { AreAt script.now first lanes.items }
    ensures { IfOk result (λ lanes. AreAt script.now script.now.ticks lanes.items) }
{
    thread::scope(
        thread::scope_env(),
        rt,
        move |scope| -> Result<Vec<Resting>, OutOfMemory>
            requires { IsSync R.row × IsSync G.row × (script.now ≡ J.plan) × (length script.now.lanes ≤ most_lanes) × (first ≤ script.now.ticks) × (refusal_of script.now crew.now.workers crew.now.sharing ≡ None) × AreAt script.now first lanes.items }
            ensures { IfOk result (λ lanes. AreAt script.entry.now script.entry.now.ticks lanes.items) }
        {
            let Opened {
                mut channels,
                places,
            } = open_channels::<J>(alloc, crew, lanes.len())?;
            for (before, place) in places.into_iter().enumerate() {
                let thread = scope.spawn(
                    move ||
                        requires { IsSync G.row × (script.now ≡ J.plan) }
                    { work::<J, R, G>(rt, gate, script, place) },
                );
                if thread.is_err() {
                    channels.keep(before);
                    break;
                }
            }
            step_ticks(rt, alloc, gate, script, crew, first, channels, lanes)
        },
    )
}
