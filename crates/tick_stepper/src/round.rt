//! One tick of all lanes: those that are due take their turns, by workers as in `deal` or `queue`, or alone, and what they sent is delivered.
ghost use Rattle.std.specs.Prelude.{◌≡◌, ℕ, true, ◌+◌, ◌<◌, ◌≤◌, ◌++◌, [], None, map, length, IfOk, IsPermutation, vec_len, slice_index_or};
ghost use Rattle.std.specs.List.{All, AllByRecursion, flat_map};
ghost use Rattle.loop_script.specs.Bounds.{most_lanes, most_ticks};
ghost use Rattle.lane_turn.specs.Turn.{turned};
ghost use Rattle.lane_turn.specs.Tick.{posted_at, lanes_at};
ghost use Rattle.tick_stepper.specs.Crew.{refusal_of};
ghost use Rattle.tick_stepper.specs.Known.{cancel_nothing};
ghost use Rattle.tick_stepper.specs.Rest.{all_woken, HasPassed, Rests, AreAt, IsParted, AreTurned};
ghost use Rattle.tick_stepper.specs.Share.{unspent_all, turned_one, out_of_one, IsFresh, IsTurned, IsRound};

use crate::crew::{Crew, Sharing};
use crate::deal::{deal, gather};
use crate::fault::OutOfMemory;
use crate::gate::{Gate, OpenGate};
use crate::hand::hand_and_deliver;
use crate::known::{apart, awake, by_lane, cancel_nothing, settle};
use crate::queue::turn_by_queue;
use crate::rest::{Resting, by_number, part, wake_all};
use crate::share::{Share, in_order, take_turns, turn_share};
use crate::side_by_side::map_side_by_side;
use lane_turn::{LaneFault, LaneState};
use loop_script::Script;
use post_office::{Letter, Tray, merge};
use std::alloc::{AllocError, Global};
use std::sync::Wait;
use std::thread::Threads;

/// Each share is turned in a thread of its own, the caller's among them.
fn turn_shares<R: Threads + Sync, G: Gate>(
    rt: &R,
    gate: &G,
    script: &Script,
    tick: u32,
    shares: Vec<Share>,
) -> Result<Vec<Result<Share, LaneFault>>, AllocError>
    requires tick { tick < most_ticks }
    requires fresh { All (IsFresh script.now tick) shares.items }
    ensures all { IfOk result (λ hauls. vec_len hauls ≡ vec_len shares) }
    ensures each { IfOk result (λ hauls. (i : ℕ) (d : _) (e : _) → i < vec_len shares → IfOk (slice_index_or hauls.items i d) (IsTurned script.now tick (slice_index_or shares.items i e))) }
{
    map_side_by_side(
        rt,
        shares,
        &|share: Share| -> Result<Share, LaneFault>
            requires { (tick < most_ticks) × IsFresh script.now tick share }
            ensures { IfOk result (IsTurned script.entry.now tick share) }
        { turn_share(gate, script, tick, share) },
    )
}

/// Lanes after their turns at a tick, by number, and what they posted, by sender and number. Each lane
/// is dealt to its worker, and each worker that has some turns them; the tick goes on when all are back.
fn turn_by_deal<R: Threads + Sync, G: Gate>(
    rt: &R,
    alloc: Global,
    gate: &G,
    script: &Script,
    tick: u32,
    crew: &Crew,
    lanes: Vec<LaneState>,
) -> Result<(Vec<LaneState>, Vec<Letter>), OutOfMemory>
    requires tick { tick < most_ticks }
    requires crew { refusal_of script.now crew.now.workers crew.now.sharing ≡ None }
    requires lanes { IsRound script.now tick lanes.items }
    ensures lanes { IfOk result (λ r. r.0.items ≡ map (turned_one script.now tick) lanes.items) }
    ensures letters { IfOk result (λ r. r.1.items ≡ flat_map (out_of_one script.now tick) lanes.items) }
{
    let shares = deal(alloc, crew, lanes)?;
    let hauls = turn_shares(rt, gate, script, tick, shares)?;
    let (lanes, letters) = gather(alloc, hauls)?;
    let lanes = in_order(lanes)?;
    let letters = merge(alloc, letters)?;
    Ok((lanes, letters))
}

/// Lanes after their turns at a tick, by number, and what they posted, by sender and number. They
/// are dealt out to workers, or these take them from a queue.
fn turn_all<R: Threads + Wait + Sync, G: Gate>(
    rt: &R,
    alloc: Global,
    gate: &G,
    script: &Script,
    tick: u32,
    crew: &Crew,
    lanes: Vec<LaneState>,
) -> Result<(Vec<LaneState>, Vec<Letter>), OutOfMemory>
    requires tick { tick < most_ticks }
    requires crew { refusal_of script.now crew.now.workers crew.now.sharing ≡ None }
    requires lanes { IsRound script.now tick lanes.items }
    ensures lanes { IfOk result (λ r. r.0.items ≡ map (turned_one script.now tick) lanes.items) }
    ensures letters { IfOk result (λ r. r.1.items ≡ flat_map (out_of_one script.now tick) lanes.items) }
{
    match crew.sharing {
        Sharing::Queue => turn_by_queue(rt, alloc, gate, script, tick, crew.workers, lanes),
        Sharing::Round | Sharing::Fixed(_) => turn_by_deal(
            rt, alloc, gate, script, tick, crew, lanes,
        ),
    }
}

/// Lanes after their turns, where these posted letters: they are delivered to all lanes, those that rested too.
fn deliver_to_all(
    alloc: Global,
    script: &Script,
    tick: u32,
    done: Vec<LaneState>,
    resting: Vec<Resting>,
    letters: &[Letter],
) -> Result<Vec<Resting>, OutOfMemory>
    requires tick { tick < most_ticks }
    requires passed { All (HasPassed (tick + 1)) resting.items }
    requires lanes { IsPermutation (unspent_all (map (turned script.now tick) (lanes_at script.now tick))) (done.items ++ all_woken (tick + 1) resting.items) }
    requires letters { letters.now ≡ posted_at script.now tick (lanes_at script.now tick) }
    requires few { length script.now.lanes ≤ most_lanes }
    ensures { IfOk result (λ ones. AreAt script.now (tick + 1) ones.items) }
{
    let lanes = wake_all(tick + 1, done, resting)?;
    let mut lanes = in_order(lanes)?;
    hand_and_deliver(script, tick, lanes.as_mut_slice(), letters)?;
    Ok(settle(alloc, script, tick, lanes, &[])?)
}

/// Lanes after their turns, where the letters that these posted tell no cancellation: a lane that rested and to which nothing is
/// written rests on.
fn deliver_quietly(
    alloc: Global,
    script: &Script,
    tick: u32,
    done: Vec<LaneState>,
    resting: Vec<Resting>,
    letters: &[Letter],
) -> Result<Vec<Resting>, OutOfMemory>
    requires tick { tick < most_ticks }
    requires rest { AllByRecursion (Rests script.now (tick + 1)) resting.items }
    requires lanes { IsPermutation (unspent_all (map (turned script.now tick) (lanes_at script.now tick))) (done.items ++ all_woken (tick + 1) resting.items) }
    requires letters { letters.now ≡ posted_at script.now tick (lanes_at script.now tick) }
    requires quiet { cancel_nothing letters.now ≡ true }
    requires few { length script.now.lanes ≤ most_lanes }
    ensures { IfOk result (λ ones. AreAt script.now (tick + 1) ones.items) }
{
    let all = awake(alloc, tick + 1, done, resting, letters)?;
    let (mut lanes, rested) = apart(alloc, by_lane(all)?)?;
    hand_and_deliver(script, tick, lanes.as_mut_slice(), letters)?;
    Ok(settle(alloc, script, tick, lanes, rested.as_slice())?)
}

/// Lanes after their turns, where these posted no letter, among those that rested.
fn put_back(
    alloc: Global,
    script: &Script,
    tick: u32,
    done: Vec<LaneState>,
    resting: Vec<Resting>,
) -> Result<Vec<Resting>, OutOfMemory>
    requires tick { tick < most_ticks }
    requires rest { AllByRecursion (Rests script.now (tick + 1)) resting.items }
    requires lanes { IsPermutation (unspent_all (map (turned script.now tick) (lanes_at script.now tick))) (done.items ++ all_woken (tick + 1) resting.items) }
    requires none { posted_at script.now tick (lanes_at script.now tick) ≡ [] }
    requires few { length script.now.lanes ≤ most_lanes }
    ensures { IfOk result (λ ones. AreAt script.now (tick + 1) ones.items) }
{
    let mut resting = resting;
    let mut ones = settle(alloc, script, tick, done, &[])?;
    ones.append(&mut resting)?;
    Ok(by_number(ones)?)
}

/// The lanes whose turn comes at a tick, by number, and those that rest.
pub(crate) struct Parted {
    pub(crate) due: Vec<LaneState>,
    pub(crate) resting: Vec<Resting>,
}

/// Parts the lanes of a run at a tick, and brings those to it whose turn comes.
pub(crate) fn begin_tick(
    alloc: Global,
    script: &Script,
    tick: u32,
    lanes: Vec<Resting>,
) -> Result<Parted, OutOfMemory>
    requires few { length script.now.lanes ≤ most_lanes }
    requires tick { tick < most_ticks }
    requires lanes { AreAt script.now tick lanes.items }
    ensures round { IfOk result (λ parted. IsRound script.now tick parted.due.items) }
    ensures parted { IfOk result (λ parted. IsParted tick lanes.items parted.due.items parted.resting.items) }
{
    let (due, resting) = part(alloc, tick, lanes)?;
    let due = wake_all(tick, Vec::new(alloc), due)?;
    Ok(Parted { due, resting })
}

/// Lanes after a tick in which some took their turns and posted letters: these are delivered. Without a letter no lane that
/// rests is looked at; where no letter tells a cancellation, only those to which a line is written are asked for their next turn.
pub(crate) fn end_tick(
    alloc: Global,
    script: &Script,
    tick: u32,
    done: Vec<LaneState>,
    letters: &[Letter],
    resting: Vec<Resting>,
) -> Result<Vec<Resting>, OutOfMemory>
    requires few { length script.now.lanes ≤ most_lanes }
    requires tick { tick < most_ticks }
    requires turns { AreTurned script.now tick done.items letters.now resting.items }
    ensures { IfOk result (λ lanes. AreAt script.now (tick + 1) lanes.items) }
{
    if letters.is_empty() {
        put_back(alloc, script, tick, done, resting)
    } else if cancel_nothing(letters) {
        deliver_quietly(alloc, script, tick, done, resting, letters)
    } else {
        deliver_to_all(alloc, script, tick, done, resting, letters)
    }
}

/// A tick of the lanes of a run: the turns of those whose turn comes, and then the delivery of what these posted. Every
/// other lane's turn would do nothing, and without a letter its delivery neither.
pub(crate) fn run_tick<R: Threads + Wait + Sync, G: Gate>(
    rt: &R,
    alloc: Global,
    gate: &G,
    script: &Script,
    tick: u32,
    crew: &Crew,
    lanes: Vec<Resting>,
) -> Result<Vec<Resting>, OutOfMemory>
    requires few { length script.now.lanes ≤ most_lanes }
    requires tick { tick < most_ticks }
    requires left { tick < script.now.ticks }
    requires crew { refusal_of script.now crew.now.workers crew.now.sharing ≡ None }
    requires lanes { AreAt script.now tick lanes.items }
    ensures { IfOk result (λ lanes. AreAt script.now (tick + 1) lanes.items) }
{
    let Parted { due, resting } = begin_tick(alloc, script, tick, lanes)?;
    let (done, letters) = turn_all(rt, alloc, gate, script, tick, crew, due)?;
    end_tick(alloc, script, tick, done, letters.as_slice(), resting)
}

/// Lanes after their turns at a tick, by number, and what they posted, by sender and number. The caller takes each turn.
pub(crate) fn turn_alone<G: Gate>(
    alloc: Global,
    gate: &G,
    script: &Script,
    tick: u32,
    mut lanes: Vec<LaneState>,
) -> Result<(Vec<LaneState>, Vec<Letter>), OutOfMemory>
    requires tick { tick < most_ticks }
    requires lanes { IsRound script.now tick lanes.items }
    ensures lanes { IfOk result (λ r. r.0.items ≡ map (turned_one script.now tick) lanes.items) }
    ensures letters { IfOk result (λ r. r.1.items ≡ flat_map (out_of_one script.now tick) lanes.items) }
{
    let mut tray = Tray::new(alloc);
    take_turns(gate, script, tick, 0, lanes.as_mut_slice(), &mut tray)?;
    Ok((lanes, tray.into_letters()))
}

/// A tick of the lanes of a run, as `run_tick`: the caller takes each turn.
pub(crate) fn run_tick_alone(
    alloc: Global,
    script: &Script,
    tick: u32,
    lanes: Vec<Resting>,
) -> Result<Vec<Resting>, OutOfMemory>
    requires few { length script.now.lanes ≤ most_lanes }
    requires tick { tick < most_ticks }
    requires left { tick < script.now.ticks }
    requires lanes { AreAt script.now tick lanes.items }
    ensures { IfOk result (λ lanes. AreAt script.now (tick + 1) lanes.items) }
{
    let Parted { due, resting } = begin_tick(alloc, script, tick, lanes)?;
    let (done, letters) = turn_alone(alloc, &OpenGate, script, tick, due)?;
    end_tick(alloc, script, tick, done, letters.as_slice(), resting)
}
