//! Tasks side by side, with their marks in a list of their own, so that a poll reads nothing else of those that it passes over.
ghost use Rattle.std.specs.Prelude.{◌≡◌, ◌-◌, ◌<◌, ◌≤◌, ◌^◌, ◌++◌, ◌∷◌, [], Some, None, true, is_some, filter, IsOk, IfOk, OnOk, length, set, take, drop, map};
ghost use Rattle.std.specs.List.{list_any};
ghost use Rattle.loop_script.specs.Bounds.{tick_end};
ghost use Rattle.task_steps.specs.BookInside.{entries_in, held, mark_at, mark_of, place_at, wake_of_all, IsKnown, IsQuiet};
ghost use Rattle.task_steps.specs.Polls.{CanPollAll, HasPolledAll, NoneComes, owes_reply};
ghost use Rattle.task_steps.specs.Shown.{entry_shown};

use crate::entry::{Entry, Reply};
use crate::look::TaskShown;
use crate::mark::{Mark, Round, sooner_wake};
use crate::polls::{owes_reply, poll_entry};
use cancel_view::View;
use std::alloc::{AllocError, Global};

/// Places of tasks that are gone are left out where no more than one in so many places has a task.
const ROOMY: usize = 4;

/// Tasks side by side, in start order. The mark of each stands where it stands itself. A task that goes leaves its place, with the mark
/// of no task.
#[derive(Drop)]
pub(crate) struct Leaf {
    pub marks: Vec<Mark>,
    /// None where a task is gone.
    pub places: Vec<Option<Entry>>,
    /// How many tasks went since places were left out.
    gone: usize,
}

/// The mark of a place.
fn mark_at(place: &Option<Entry>) -> Mark
    ensures { result ≡ mark_at place.now }
{
    match place {
        None => Mark::of_none(),
        Some(entry) => Mark::of_one(entry),
    }
}

impl Leaf {
    /// No task.
    pub(crate) fn new(alloc: Global) -> Leaf
        ensures entries { entries_in result ≡ [] }
        ensures known { IsKnown result }
    {
        Leaf {
            marks: Vec::new(alloc),
            places: Vec::new(alloc),
            gone: 0,
        }
    }

    /// No task, with room for so many.
    pub(crate) fn with_room(alloc: Global, tasks: usize) -> Result<Leaf, AllocError>
        ensures entries { IfOk result (λ l. entries_in l ≡ []) }
        ensures known { IfOk result (λ l. IsKnown l) }
    {
        Ok(Leaf {
            marks: Vec::with_capacity(alloc, tasks)?,
            places: Vec::with_capacity(alloc, tasks)?,
            gone: 0,
        })
    }

    /// How many places there are, of tasks that are gone too.
    pub(crate) fn len(&self) -> usize {
        self.places.len()
    }

    /// Whether there is no place.
    pub(crate) fn is_empty(&self) -> bool
        ensures { result ≡ true → entries_in self.now ≡ [] }
    {
        self.places.is_empty()
    }

    /// Adds a task at the end. After an error nothing is known of the tasks.
    pub(crate) fn push(&mut self, entry: Entry) -> Result<(), AllocError>
        requires { IsKnown self.old }
        ensures entries { OnOk result (entries_in self.new ≡ entries_in self.old ++ entry ∷ []) }
        ensures known { OnOk result (IsKnown self.new) }
    {
        self.marks.push(Mark::of_one(&entry))?;
        self.places.push(Some(entry))?;
        Ok(())
    }

    /// The mark of all tasks.
    pub(crate) fn mark(&self) -> Mark
        requires { IsKnown self.now }
        ensures { result ≡ mark_of (entries_in self.now) }
    {
        let mut all = Mark::of_none();
        for mark in &self.marks {
            all = all.join(*mark);
        }
        all
    }

    /// The next place, from one on, whose task wakes or may be seen as cancelled; the number of places where there is none.
    fn next_loud(&self, from: usize, round: Round) -> usize
        requires known { IsKnown self.now }
        requires tick { round.tick < tick_end }
        requires from { from ≤ length self.now.places.items }
        ensures later { from ≤ result }
        ensures there { result ≤ length self.now.places.items }
        ensures quiet { IsQuiet round (mark_of (held (take (result - from) (drop from self.now.places.items)))) }
    {
        let mut at = from;
        while at < self.marks.len() && self.marks[at].is_quiet(round) {
            at += 1;
        }
        at
    }

    /// Polls the task of a place, where it is not gone, and adds its reply and its late number. It goes if it ends.
    fn poll_at(
        &mut self,
        at: usize,
        round: Round,
        view: &View,
        replies: &mut Vec<Reply>,
        late: &mut Vec<u64>,
    ) -> Result<(), AllocError>
        requires known { IsKnown self.old }
        requires there { at < length self.old.places.items }
        requires can { CanPollAll round.tick round.polled view.now (held (place_at at self.old ∷ [])) }
        ensures polled { OnOk result (HasPolledAll round.tick round.polled view.now (held (place_at at self.old ∷ [])) (held (place_at at self.new ∷ [])) replies.old.items replies.new.items late.old.items late.new.items) }
        ensures others { OnOk result (self.new.places.items ≡ set self.old.places.items at (place_at at self.new)) }
        ensures known { OnOk result (IsKnown self.new) }
        ensures none { place_at at self.old ≡ None → IsOk result }
        ensures stays { place_at at self.old ≡ None → place_at at self.new ≡ None }
    {
        let Some(entry) = &mut self.places[at] else {
            return Ok(());
        };
        if poll_entry(entry, round, view, replies, late)? {
            self.marks[at] = Mark::of_one(entry);
        } else {
            self.marks[at] = Mark::of_none();
            self.places[at] = None;
            self.gone = self.gone.saturating_add(1);
        }
        Ok(())
    }

    /// Writes the mark of each place anew, for at most as many places as there are marks.
    fn mark_all(&mut self)
        requires { length self.old.places.items ≤ length self.old.marks.items }
        ensures places { self.new.places.items ≡ self.old.places.items }
        ensures known { IsKnown self.new }
    {
        self.marks.truncate(self.places.len());
        let mut at = 0;
        while at < self.places.len() {
            self.marks[at] = mark_at(&self.places[at]);
            at += 1;
        }
    }

    /// Leaves out the places of tasks that are gone, once most are such, and gives back their room.
    fn leave_out_gone(&mut self)
        requires { IsKnown self.old }
        ensures entries { entries_in self.new ≡ entries_in self.old }
        ensures known { IsKnown self.new }
    {
        let places = self.places.len();
        if places.saturating_sub(self.gone) <= places / ROOMY {
            self.places.retain(|place| place.is_some());
            self.mark_all();
            self.places.shrink_to_fit();
            self.marks.shrink_to_fit();
            self.gone = 0;
        }
    }

    /// Polls tasks in their order, and adds their replies and late numbers. Those that end go. The answer is the mark of those that go on.
    pub(crate) fn poll_tasks(
        &mut self,
        round: Round,
        view: &View,
        replies: &mut Vec<Reply>,
        late: &mut Vec<u64>,
    ) -> Result<Mark, AllocError>
        requires known { IsKnown self.old }
        requires tick { round.tick < tick_end }
        requires can { CanPollAll round.tick round.polled view.now (entries_in self.old) }
        requires came { NoneComes round.came view.now (entries_in self.old) }
        ensures polled { OnOk result (HasPolledAll round.tick round.polled view.now (entries_in self.old) (entries_in self.new) replies.old.items replies.new.items late.old.items late.new.items) }
        ensures mark { IfOk result (λ m. m ≡ mark_of (entries_in self.new)) }
        ensures known { OnOk result (IsKnown self.new) }
        ensures none { entries_in self.old ≡ [] → IsOk result }
    {
        let mut at = self.next_loud(0, round);
        while at < self.places.len() {
            self.poll_at(at, round, view, replies, late)?;
            at = self.next_loud(at + 1, round);
        }
        self.leave_out_gone();
        Ok(self.mark())
    }

    /// Whether the next poll replies that one of the tasks is cancelled.
    pub(crate) fn reply_next(&self, view: &View) -> bool
        ensures { result ≡ list_any (owes_reply view.now) (entries_in self.now) }
    {
        for place in &self.places {
            if let Some(entry) = place
                && owes_reply(entry, view)
            {
                return true;
            }
        }
        false
    }

    /// The least wake of the tasks, by a look at each.
    pub(crate) fn wake(&self) -> Option<u64>
        ensures { result ≡ wake_of_all (entries_in self.now) }
    {
        let mut wake = None;
        for place in &self.places {
            if let Some(entry) = place {
                wake = sooner_wake(wake, entry.wake());
            }
        }
        wake
    }

    /// Adds what is shown of each task.
    pub(crate) fn show(&self, list: &mut Vec<TaskShown>) -> Result<(), AllocError>
        ensures { OnOk result (list.new.items ≡ list.old.items ++ map entry_shown (entries_in self.now)) }
    {
        for place in &self.places {
            if let Some(entry) = place {
                list.push(entry.show())?;
            }
        }
        Ok(())
    }
}
