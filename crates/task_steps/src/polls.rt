//! What a poll of all tasks makes of one, its reply and its late end added; whether it goes on, and whether the next poll replies to it as cancelled.
ghost use Rattle.std.specs.Prelude.{◌≡◌, ◌++◌, ◌∷◌, [], if◌then◌else◌, option_to_list, IfOk, OnOk};
ghost use Rattle.task_steps.specs.Book.{sees};
ghost use Rattle.task_steps.specs.Polls.{CanPollAll, HasPolledAll, owes_reply};

use crate::entry::{Entry, Reply};
use crate::mark::Round;
use cancel_view::View;
use std::alloc::AllocError;

/// Whether the view has the cancellable.
fn sees(view: &View, cancel: Option<u32>) -> bool
    ensures { result ≡ sees view.now cancel }
{
    match cancel {
        None => false,
        Some(c) => view.is_cancelled(c),
    }
}

/// Adds a reply, where there is one.
fn add_reply(replies: &mut Vec<Reply>, reply: Option<Reply>) -> Result<(), AllocError>
    ensures { OnOk result (replies.new.items ≡ replies.old.items ++ option_to_list reply) }
{
    if let Some(reply) = reply {
        replies.push(reply)?;
    }
    Ok(())
}

/// Adds a number, where it is late.
fn add_late(late: &mut Vec<u64>, is_late: bool, number: u64) -> Result<(), AllocError>
    ensures { OnOk result (late.new.items ≡ late.old.items ++ (if is_late then number ∷ [] else [])) }
{
    if is_late {
        late.push(number)?;
    }
    Ok(())
}

/// Polls a task, where that gives anything, and adds its reply and its late number; whether it goes on.
pub(crate) fn poll_entry(
    entry: &mut Entry,
    round: Round,
    view: &View,
    replies: &mut Vec<Reply>,
    late: &mut Vec<u64>,
) -> Result<bool, AllocError>
    requires { CanPollAll round.tick round.polled view.now (entry.old ∷ []) }
    ensures { IfOk result (λ goes. HasPolledAll round.tick round.polled view.now (entry.old ∷ []) (if goes then entry.new ∷ [] else []) replies.old.items replies.new.items late.old.items late.new.items) }
{
    let cancelled = sees(view, entry.cancel);
    if entry.sleeps_on(round.tick, cancelled) {
        return Ok(true);
    }
    entry.catch_up(round.polled);
    let answer = entry.poll(round.tick, cancelled);
    let reply = entry.reply(answer.reply);
    add_reply(replies, reply)?;
    add_late(late, answer.late, entry.number)?;
    Ok(!entry.run.is_done())
}

/// Whether the next poll replies that the task is cancelled.
pub(crate) fn owes_reply(entry: &Entry, view: &View) -> bool
    ensures { result ≡ owes_reply view.now entry.now }
{
    entry.return_on_cancel && sees(view, entry.cancel) && !entry.run.was_cancelled()
}
