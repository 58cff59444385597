//! Workers that stay for a run: the turns that they take, and how their caller sends them calls and takes what they answer.
ghost use Rattle.std.specs.Prelude.{◌≡◌, ◌++◌, true, map, IfOk, OnOk};
ghost use Rattle.std.specs.List.{All, flat_map};
ghost use Rattle.lane_turn.specs.Lane.{State};
ghost use Rattle.tick_stepper.specs.Call.{IsCall, IsReply};

use crate::calls::{Call, Planned, Reply};
use crate::channels::{Channels, Ends, Place, Shared};
use crate::fault::OutOfMemory;
use crate::gate::Gate;
use crate::share::{Share, turn_share};
use crate::wait::next;
use lane_turn::{LaneFault, LaneState};
use loop_script::Script;
use post_office::{Letter, Numbered};
use std::alloc::{AllocError, Global};
use std::marker::PhantomData;
use std::sync::Wait;

/// The number of the worker that the caller is.
const CALLER: u32 = 0;

/// A call for the turns of a share.
fn call_with<J: Planned>(tick: u32, share: Share) -> Call<J>
    requires { IsCall J.plan tick share }
{
    Call {
        tick,
        share,
        of: PhantomData,
    }
}

/// The answer to a call.
fn reply_with<J: Planned>(tick: u32, share: Share) -> Reply<J>
    requires { IsReply J.plan tick share.lanes.items share.tray }
{
    Reply {
        tick,
        share,
        of: PhantomData,
    }
}

/// A call with the number of the worker that takes it from a queue. None is given where lanes are dealt out: then it has that of
/// the worker to which they are dealt.
fn taken_by<J: Planned>(worker: Option<u32>, call: Call<J>) -> Call<J> {
    let Call {
        tick,
        mut share,
        of: _,
    } = call;
    share.worker = worker.unwrap_or(share.worker);
    call_with(tick, share)
}

/// Takes the turns of a call, and answers it.
fn answer<J: Planned, G: Gate>(
    gate: &G,
    script: &Script,
    call: Call<J>,
) -> Result<Reply<J>, LaneFault>
    requires plan { script.now ≡ J.plan }
{
    let Call { tick, share, of: _ } = call;
    let share = turn_share(gate, script, tick, share)?;
    Ok(reply_with(tick, share))
}

/// Answers the calls that come, until none comes any more.
pub(crate) fn work<J: Planned, R: Wait, G: Gate>(rt: &R, gate: &G, script: &Script, place: Place<J>)
    requires plan { script.now ≡ J.plan }
{
    for _ in rt.forever() {
        let Some(call) = next(rt, &place.calls) else {
            return;
        };
        let reply = answer(gate, script, taken_by(place.worker, call));
        if place.replies.send(rt, reply).is_err() {
            return;
        }
    }
}

/// A call for each share.
pub(crate) fn calls_of<J: Planned>(
    alloc: Global,
    tick: u32,
    shares: Vec<Share>,
) -> Result<Vec<Call<J>>, AllocError>
    requires { All (IsCall J.plan tick) shares.items }
{
    let mut calls = Vec::new(alloc);
    for share in shares {
        calls.push(call_with(tick, share))?;
    }
    Ok(calls)
}

/// Hands a call to a worker, or to whichever takes it. `OutOfMemory` stands for workers that are gone: each stays until the last
/// tick, which no clause says.
fn send<J: Planned, R: Wait>(rt: &R, ends: &Ends<J>, call: Call<J>) -> Result<(), OutOfMemory> {
    match ends.calls.send(rt, call) {
        Ok(()) => Ok(()),
        Err(_) => Err(OutOfMemory),
    }
}

/// What a worker answers to a call. `OutOfMemory` stands for workers that are gone, too: each stays until the last tick, which no
/// clause says.
fn receive<J: Planned, R: Wait>(rt: &R, ends: &Ends<J>) -> Result<Reply<J>, OutOfMemory> {
    match next(rt, &ends.replies) {
        Some(Ok(reply)) => Ok(reply),
        Some(Err(_)) | None => Err(OutOfMemory),
    }
}

/// The calls of a tick, when those for workers went out.
#[derive(Drop)]
struct Sent<J: Planned> {
    /// Those that the caller answers.
    kept: Vec<Call<J>>,
    /// How many workers have one, the first of all workers.
    sent: usize,
}

/// Hands each call but the first to a worker, as long as there is one.
fn send_each<J: Planned, R: Wait>(
    rt: &R,
    alloc: Global,
    ends: &[Ends<J>],
    calls: Vec<Call<J>>,
) -> Result<Sent<J>, OutOfMemory> {
    let mut kept = Vec::new(alloc);
    let mut sent = 0;
    for call in calls {
        if kept.is_empty() || sent >= ends.len() {
            if kept.push(call).is_err() {
                return Err(OutOfMemory);
            }
        } else {
            send(rt, &ends[sent], call)?;
            sent += 1;
        }
    }
    Ok(Sent { kept, sent })
}

/// The answers to calls that are dealt out. The caller answers the first, and those that are too many for the workers; these
/// answer the others.
fn answer_dealt<J: Planned, R: Wait, G: Gate>(
    rt: &R,
    alloc: Global,
    gate: &G,
    script: &Script,
    ends: &[Ends<J>],
    calls: Vec<Call<J>>,
) -> Result<Vec<Reply<J>>, OutOfMemory>
    requires plan { script.now ≡ J.plan }
{
    let Sent { kept, sent } = send_each(rt, alloc, ends, calls)?;
    let mut replies = Vec::new(alloc);
    for call in kept {
        let reply = answer(gate, script, call)?;
        if replies.push(reply).is_err() {
            return Err(OutOfMemory);
        }
    }
    for one in ends.iter().take(sent) {
        let reply = receive(rt, one)?;
        if replies.push(reply).is_err() {
            return Err(OutOfMemory);
        }
    }
    Ok(replies)
}

/// An answer to one of the calls that are out: the caller's own where one waits in the queue, else that of a worker.
fn next_answer<J: Planned, R: Wait, G: Gate>(
    rt: &R,
    gate: &G,
    script: &Script,
    shared: &Shared<J>,
) -> Result<Reply<J>, OutOfMemory>
    requires plan { script.now ≡ J.plan }
{
    match shared.waiting.try_recv(rt) {
        Ok(call) => Ok(answer(gate, script, taken_by(Some(CALLER), call))?),
        Err(_) => receive(rt, &shared.ends),
    }
}

/// The answers to calls that go into a queue. The caller takes the next as long as some wait, as each worker does.
fn answer_queued<J: Planned, R: Wait, G: Gate>(
    rt: &R,
    alloc: Global,
    gate: &G,
    script: &Script,
    shared: &Shared<J>,
    calls: Vec<Call<J>>,
) -> Result<Vec<Reply<J>>, OutOfMemory>
    requires plan { script.now ≡ J.plan }
{
    let out = calls.len();
    for call in calls {
        send(rt, &shared.ends, call)?;
    }
    let mut replies = Vec::new(alloc);
    for _ in 0..out {
        let reply = next_answer(rt, gate, script, shared)?;
        if replies.push(reply).is_err() {
            return Err(OutOfMemory);
        }
    }
    Ok(replies)
}

/// The answers to all calls of a tick, of the caller and of the workers.
pub(crate) fn answer_all<J: Planned, R: Wait, G: Gate>(
    rt: &R,
    alloc: Global,
    gate: &G,
    script: &Script,
    channels: &Channels<J>,
    calls: Vec<Call<J>>,
) -> Result<Vec<Reply<J>>, OutOfMemory>
    requires plan { script.now ≡ J.plan }
{
    match channels {
        Channels::Own(ends) => answer_dealt(rt, alloc, gate, script, ends.as_slice(), calls),
        Channels::Queue(shared) => answer_queued(rt, alloc, gate, script, shared, calls),
    }
}

/// The lanes and letters of all answers of a tick.
pub(crate) fn collect<J: Planned>(
    alloc: Global,
    tick: u32,
    replies: Vec<Reply<J>>,
) -> Result<(Vec<LaneState>, Vec<Letter>), OutOfMemory>
    ensures reply { IfOk result (λ r. IsReply J.plan tick r.0.items r.1.items) }
    ensures lanes { IfOk result (λ r. r.0.items ≡ flat_map (λ reply. reply.share.lanes.items) replies.items) }
{
    let mut lanes = Vec::new(alloc);
    let mut letters = Vec::new(alloc);
    for reply in replies {
        take_in(tick, &mut lanes, &mut letters, reply)?;
    }
    Ok((lanes, letters))
}

/// Adds the lanes and letters of an answer. `OutOfMemory` stands for one of another tick: none is, since a worker has answered
/// each call before it gets the next, which no clause says.
fn take_in<J: Planned>(
    tick: u32,
    lanes: &mut Vec<LaneState>,
    letters: &mut Vec<Letter>,
    reply: Reply<J>,
) -> Result<(), OutOfMemory>
    requires { IsReply J.plan tick lanes.old.items letters.old.items }
    ensures reply { OnOk result (IsReply J.plan tick lanes.new.items letters.new.items) }
    ensures lanes { OnOk result (lanes.new.items ≡ lanes.old.items ++ reply.share.lanes.items) }
{
    if reply.tick != tick {
        return Err(OutOfMemory);
    }
    let Reply { share, .. } = reply;
    let Share {
        lanes: mut more,
        tray,
        ..
    } = share;
    lanes.append(&mut more)?;
    letters.append(&mut tray.into_letters())?;
    Ok(())
}

/// The numbers of lanes, in their order.
pub(crate) fn numbers_of(alloc: Global, lanes: &[LaneState]) -> Result<Vec<u32>, AllocError>
    ensures { IfOk result (λ v. v.items ≡ map (λ (s : State). s.lane.number) lanes.now) }
{
    let mut numbers = Vec::new(alloc);
    for lane in lanes {
        numbers.push(lane.number())?;
    }
    Ok(numbers)
}

/// Whether lanes have these numbers, in this order.
pub(crate) fn have_numbers(lanes: &[LaneState], numbers: &[u32]) -> bool
    ensures { result ≡ true → map (λ (s : State). s.lane.number) lanes.now ≡ numbers.now }
{
    if lanes.len() != numbers.len() {
        return false;
    }
    for i in 0..lanes.len() {
        if lanes[i].number() != numbers[i] {
            return false;
        }
    }
    true
}
