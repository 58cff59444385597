//! Where lanes are dealt in a tick: they go to their workers as shares, and come back.
ghost use Rattle.std.specs.Prelude.{◌≡◌, ◌<◌, [], ◌∷◌, ◌++◌, List, OnOk, IfOk, true, vec_len, IsPermutation};
ghost use Rattle.std.specs.List.{All, filter};
ghost use Rattle.lane_turn.specs.Lane.{State};
ghost use Rattle.tick_stepper.specs.Crew.{worker_of};
ghost use Rattle.tick_stepper.specs.Share.{has_lanes, handed, AreWorkers, HasTheirs, IsGathered};
ghost use Rattle.tick_stepper.specs.declared.crew.Crew.{Crew};

use crate::crew::{Crew, Sharing};
use crate::share::Share;
use lane_turn::{LaneFault, LaneState};
use post_office::{Letter, Numbered, Tray};
use std::alloc::{AllocError, Global};

/// A share for each worker, without a lane.
fn empty_shares(alloc: Global, workers: u32) -> Result<Vec<Share>, AllocError>
    ensures one_each { IfOk result (λ shares. vec_len shares ≡ workers) }
    ensures lanes { IfOk result (λ shares. handed shares.items ≡ []) }
    ensures trays { IfOk result (λ shares. All (λ share. share.tray ≡ []) shares.items) }
    ensures workers { IfOk result (λ shares. AreWorkers 0 shares.items) }
    ensures none { IfOk result (λ shares. All (λ share. share.lanes.items ≡ []) shares.items) }
{
    let mut shares = Vec::new(alloc);
    for worker in 0..workers {
        shares.push(Share {
            worker,
            lanes: Vec::new(alloc),
            tray: Tray::new(alloc),
        })?;
    }
    Ok(shares)
}

/// Leaves out the shares without a lane, whose workers have nothing to do.
fn leave_out_idle(shares: &mut Vec<Share>)
    ensures { shares.new.items ≡ filter has_lanes shares.old.items }
{
    shares.retain(|share| !share.lanes.is_empty());
}

/// Hands a lane to a worker.
fn give(shares: &mut Vec<Share>, worker: u32, lane: LaneState) -> Result<(), AllocError>
    requires { worker < vec_len shares.old }
    ensures lanes { OnOk result (IsPermutation (handed shares.new.items) (lane ∷ handed shares.old.items)) }
    ensures trays { OnOk result (All (λ share. share.tray ≡ []) shares.old.items → All (λ share. share.tray ≡ []) shares.new.items) }
    ensures as_many { vec_len shares.new ≡ vec_len shares.old }
    ensures workers { OnOk result (AreWorkers 0 shares.old.items → AreWorkers 0 shares.new.items) }
    ensures theirs { OnOk result ((crew : Crew) (dealt : List State) → worker_of crew lane.lane.number ≡ worker → AreWorkers 0 shares.old.items → All (HasTheirs crew dealt) shares.old.items → All (HasTheirs crew (dealt ++ lane ∷ [])) shares.new.items) }
{
    shares[worker as usize].lanes.push(lane)?;
    Ok(())
}

/// Hands each lane to its worker: a share for each worker, with an empty tray.
fn hand_out(alloc: Global, crew: &Crew, lanes: Vec<LaneState>) -> Result<Vec<Share>, AllocError>
    requires some { 0 < crew.now.workers }
    requires named { All (λ s. worker_of crew.now s.lane.number < crew.now.workers) lanes.items }
    ensures lanes { IfOk result (λ shares. IsPermutation lanes.items (handed shares.items)) }
    ensures trays { IfOk result (λ shares. All (λ share. share.tray ≡ []) shares.items) }
    ensures theirs { IfOk result (λ shares. All (HasTheirs crew.now lanes.items) shares.items) }
{
    let mut shares = empty_shares(alloc, crew.workers)?;
    for lane in lanes {
        let worker = crew.worker_of(lane.number());
        give(&mut shares, worker, lane)?;
    }
    Ok(shares)
}

/// Deals lanes out to their workers: a share for each that has some, with an empty tray.
pub(crate) fn deal(
    alloc: Global,
    crew: &Crew,
    lanes: Vec<LaneState>,
) -> Result<Vec<Share>, AllocError>
    requires some { 0 < crew.now.workers }
    requires named { All (λ s. worker_of crew.now s.lane.number < crew.now.workers) lanes.items }
    ensures lanes { IfOk result (λ shares. IsPermutation lanes.items (handed shares.items)) }
    ensures trays { IfOk result (λ shares. All (λ share. share.tray ≡ []) shares.items) }
    ensures theirs { IfOk result (λ shares. All (HasTheirs crew.now lanes.items) shares.items) }
    ensures busy { IfOk result (λ shares. All (λ share. has_lanes share ≡ true) shares.items) }
{
    let mut shares = hand_out(alloc, crew, lanes)?;
    leave_out_idle(&mut shares);
    Ok(shares)
}

/// A share for each lane, with an empty tray, of no worker until one takes it.
fn one_each(alloc: Global, lanes: Vec<LaneState>) -> Result<Vec<Share>, AllocError>
    ensures lanes { IfOk result (λ shares. handed shares.items ≡ lanes.items) }
    ensures trays { IfOk result (λ shares. All (λ share. share.tray ≡ []) shares.items) }
{
    let mut shares = Vec::new(alloc);
    for lane in lanes {
        let mut one = Vec::new(alloc);
        one.push(lane)?;
        shares.push(Share {
            worker: 0,
            lanes: one,
            tray: Tray::new(alloc),
        })?;
    }
    Ok(shares)
}

/// Deals lanes out in shares, with empty trays: those of each worker, or each lane by itself where workers take them from a queue.
pub(crate) fn share_out(
    alloc: Global,
    crew: &Crew,
    lanes: Vec<LaneState>,
) -> Result<Vec<Share>, AllocError>
    requires some { 0 < crew.now.workers }
    requires named { All (λ s. worker_of crew.now s.lane.number < crew.now.workers) lanes.items }
    ensures lanes { IfOk result (λ shares. IsPermutation lanes.items (handed shares.items)) }
    ensures trays { IfOk result (λ shares. All (λ share. share.tray ≡ []) shares.items) }
{
    match crew.sharing {
        Sharing::Queue => one_each(alloc, lanes),
        Sharing::Round | Sharing::Fixed(_) => deal(alloc, crew, lanes),
    }
}

/// All lanes and letters that the workers bring back, where none failed.
pub(crate) fn gather(
    alloc: Global,
    hauls: Vec<Result<Share, LaneFault>>,
) -> Result<(Vec<LaneState>, Vec<Letter>), LaneFault>
    ensures { IfOk result (λ r. IsGathered hauls.items r.0.items r.1.items) }
{
    let mut lanes = Vec::new(alloc);
    let mut letters = Vec::new(alloc);
    for haul in hauls {
        let mut share = haul?;
        lanes.append(&mut share.lanes)?;
        letters.append(&mut share.tray.into_letters())?;
    }
    Ok((lanes, letters))
}
