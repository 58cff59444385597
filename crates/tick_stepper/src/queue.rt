//! Lanes are taken from a queue in a single tick, by workers that start for it.
ghost use Rattle.std.specs.Prelude.{◌≡◌, ◌+◌, ◌<◌, ◌++◌, [], ◌∷◌, map, vec_len, OnOk, IfOk, IsPermutation};
ghost use Rattle.std.specs.List.{All, AllByRecursion, flat_map};
ghost use Rattle.loop_script.specs.Bounds.{most_ticks};
ghost use Rattle.post_office.specs.Merge.{concat};
ghost use Rattle.post_office.specs.Passes.{takes_in, closes};
ghost use Rattle.tick_stepper.specs.Share.{turned_one, out_of_one, IsReadyOne, IsRound};
ghost use Rattle.tick_stepper.specs.Queue.{filled, IsHired, MayWork, IsHaul, IsOf, IsTakenIn};

use crate::crew::workers_for;
use crate::fault::OutOfMemory;
use crate::gate::Gate;
use crate::share::in_order;
use crate::side_by_side::map_side_by_side;
use crate::work::{Haul, Hired, turn_with, work_through};
use lane_turn::LaneState;
use loop_script::Script;
use post_office::{Letter, LetterQueue, Office, OfficePass, WorkList, WorkQueue, merge};
use std::alloc::{AllocError, Global};
use std::sync::Wait;
use std::thread::Threads;

/// A work list of these lanes.
fn fill<R: Wait>(
    rt: &R,
    alloc: Global,
    lanes: Vec<LaneState>,
) -> Result<WorkList<LaneState>, OutOfMemory>
    ensures { IfOk result (λ list. list ≡ filled list.home lanes.items) }
{
    let mut list = WorkList::new(alloc)?;
    for lane in lanes {
        if list.put(rt, lane).is_err() {
            return Err(OutOfMemory);
        }
    }
    Ok(list)
}

/// Passes for each worker.
fn hire(
    alloc: Global,
    workers: u32,
    list: &mut WorkList<LaneState>,
    office: &mut Office,
) -> Result<Vec<Hired>, OutOfMemory>
    ensures hired { IfOk result (λ all. All (IsHired list.old.home office.old.home list.old.put) all.items) }
    ensures as_many { IfOk result (λ all. vec_len all ≡ workers) }
    ensures list { OnOk result (list.new ≡ record list.old { out = list.old.out + workers }) }
    ensures office { OnOk result (office.new ≡ record office.old { out = office.old.out + workers }) }
{
    let mut all = Vec::new(alloc);
    for worker in 0..workers {
        let work = list.pass()?;
        let post = office.pass()?;
        if all.push(Hired { worker, work, post }).is_err() {
            return Err(OutOfMemory);
        }
    }
    Ok(all)
}

/// Each worker takes lanes and turns them, in a thread of its own, the caller's among them.
fn run_hired<R: Threads + Wait + Sync, G: Gate>(
    rt: &R,
    alloc: Global,
    gate: &G,
    script: &Script,
    tick: u32,
    list: &WorkQueue<LaneState>,
    office: &LetterQueue,
    all: Vec<Hired>,
) -> Result<Vec<Result<Haul, OutOfMemory>>, AllocError>
    requires tick { tick < most_ticks }
    requires hired { All (MayWork script.now tick list.now office.now) all.items }
    ensures hauls { IfOk result (λ hauls. All (λ haul. IfOk haul (IsHaul script.now tick list.now office.now)) hauls.items) }
    ensures all { IfOk result (λ hauls. vec_len hauls ≡ vec_len all) }
{
    map_side_by_side(
        rt,
        all,
        &|hired: Hired| -> Result<Haul, OutOfMemory>
            requires { (tick < most_ticks) × MayWork script.now tick list.now office.now hired }
            ensures { IfOk result (IsHaul script.entry.now tick list.entry.now office.entry.now) }
        { work_through(rt, alloc, gate, script, tick, list, office, hired) },
    )
}

/// Takes the passes of one worker back, and its lanes.
fn take_in(
    list: &mut WorkList<LaneState>,
    office: &mut Office,
    lanes: &mut Vec<LaneState>,
    haul: Haul,
) -> Result<(), OutOfMemory>
    requires { IsOf list.old.home office.old.home haul }
    ensures list { OnOk result (list.new ≡ takes_in list.old haul.work) }
    ensures office { OnOk result (office.new ≡ closes office.old haul.post) }
    ensures lanes { OnOk result (lanes.new.items ≡ lanes.old.items ++ haul.lanes.items) }
{
    let Haul {
        lanes: mut more,
        work,
        post,
    } = haul;
    lanes.append(&mut more)?;
    list.take_back(work);
    office.take_back(post);
    Ok(())
}

/// Takes all passes back where no worker failed, and puts the lanes into one list.
fn gather(
    alloc: Global,
    list: &mut WorkList<LaneState>,
    office: &mut Office,
    hauls: Vec<Result<Haul, OutOfMemory>>,
) -> Result<Vec<LaneState>, OutOfMemory>
    requires { All (λ haul. IfOk haul (IsOf list.old.home office.old.home)) hauls.items }
    ensures { IfOk result (λ lanes. IsTakenIn hauls.items list.old list.new office.old office.new lanes.items) }
{
    let mut lanes = Vec::new(alloc);
    for haul in hauls {
        take_in(list, office, &mut lanes, haul?)?;
    }
    Ok(lanes)
}

/// Turns the lanes that the workers left.
fn finish<R: Wait, G: Gate>(
    rt: &R,
    gate: &G,
    script: &Script,
    tick: u32,
    list: &mut WorkList<LaneState>,
    office: &LetterQueue,
    mut pass: OfficePass,
    mut lanes: Vec<LaneState>,
) -> Result<(Vec<LaneState>, OfficePass), OutOfMemory>
    requires tick { tick < most_ticks }
    requires ready { AllByRecursion (IsReadyOne script.now tick) list.old.put }
    requires list { (list.old.taken ≡ []) × (list.old.out ≡ 0) }
    requires pass { pass ≡ record { home = office.now; posted = [] } }
    ensures list { OnOk result (list.new ≡ record list.old { taken = list.new.taken }) }
    ensures all { OnOk result (IsPermutation list.old.put (concat (list.new.taken ∷ list.old.recorded))) }
    ensures lanes { IfOk result (λ r. r.0.items ≡ lanes.items ++ map (turned_one script.now tick) list.new.taken) }
    ensures letters { IfOk result (λ r. r.1 ≡ record { home = office.now; posted = flat_map (out_of_one script.now tick) list.new.taken }) }
{
    for _ in rt.forever() {
        lanes.reserve(1)?;
        let Some(mut lane) = list.take_rest(rt) else {
            return Ok((lanes, pass));
        };
        pass = turn_with(rt, gate, script, tick, 0, office, pass, &mut lane)?;
        lanes.push_reserved(lane);
    }
    unreachable!()
}

/// Lanes after their turns at a tick, by number, and what they posted, by sender and number. Each worker
/// takes a lane that waits and turns it, until none does; the tick goes on when all are back.
pub(crate) fn turn_by_queue<R: Threads + Wait + Sync, G: Gate>(
    rt: &R,
    alloc: Global,
    gate: &G,
    script: &Script,
    tick: u32,
    workers: u32,
    lanes: Vec<LaneState>,
) -> Result<(Vec<LaneState>, Vec<Letter>), OutOfMemory>
    requires tick { tick < most_ticks }
    requires lanes { IsRound script.now tick lanes.items }
    ensures lanes { IfOk result (λ r. r.0.items ≡ map (turned_one script.now tick) lanes.items) }
    ensures letters { IfOk result (λ r. r.1.items ≡ flat_map (out_of_one script.now tick) lanes.items) }
{
    let workers = workers_for(workers, lanes.len());
    let mut list = fill(rt, alloc, lanes)?;
    let mut office = Office::new(alloc)?;
    let all = hire(alloc, workers, &mut list, &mut office)?;
    let hauls = run_hired(
        rt,
        alloc,
        gate,
        script,
        tick,
        list.queue(),
        office.queue(),
        all,
    )?;
    let lanes = gather(alloc, &mut list, &mut office, hauls)?;
    let pass = office.pass()?;
    let (lanes, pass) = finish(
        rt,
        gate,
        script,
        tick,
        &mut list,
        office.queue(),
        pass,
        lanes,
    )?;
    office.take_back(pass);
    let lanes = in_order(lanes)?;
    let letters = office.drain(rt, alloc)?;
    let letters = merge(alloc, letters)?;
    Ok((lanes, letters))
}
