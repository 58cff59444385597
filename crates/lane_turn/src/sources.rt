//! A lane's calls on one source of one of its contexts; another lane's context has none.
ghost use Rattle.std.specs.Prelude.{◌≡◌, ◌≤◌, ◌+◌, ◌*◌, pos, is_some, is_none, IfOk, OnOk, IfSome, OnSome, None, true, false};
ghost use Rattle.source_rows.specs.Rows.{attached, destroyed, ready_set, reprioritised, counted, priority_fault};
ghost use Rattle.lane_turn.specs.Sources.{due_after, restarted};
ghost use Rattle.lane_turn.specs.Lane.{context_at, next_id, edited, row_of};
ghost use Rattle.lane_turn.specs.Acted.{born, can_bear_in};
ghost use Rattle.lane_turn.specs.Sound.{IsWithin};
ghost use Rattle.lane_turn.specs.Meaning.{lane_of};
ghost use Rattle.loop_script.specs.Bounds.{latest};
ghost use Rattle.lane_turn.specs.Limits.{most_count};

use crate::lane::Lane;
use crate::slot::Place;
use loop_script::{Kind, SourceSpec};
use source_rows::{Row, RowsFault};
use std::alloc::AllocError;

/// The ready time in microseconds that a lane gives a timeout: so many milliseconds after now.
fn due_after(ms: u32, now: u64) -> i64
    requires { now ≤ latest }
    ensures { result ≡ due_after ms now }
{
    (now + u64::from(ms) * 1000) as i64
}

impl Lane {
    /// Attaches a source to a context, and answers its id; to another lane's nothing.
    pub(crate) fn attach(
        &mut self,
        context: u32,
        spec: SourceSpec,
        now: u64,
    ) -> Result<u64, AllocError>
        requires within { IsWithin most_count (lane_of self.old) }
        requires now { now ≤ latest }
        ensures attached { OnOk result (lane_of self.new ≡ edited context (attached spec now) (lane_of self.old)) }
        ensures id { IfOk result (λ id. id ≡ next_id (context_at context (lane_of self.old))) }
    {
        match self.context_mut(context) {
            None => Ok(0),
            Some(context) => match context.rows_mut().attach(spec, now) {
                Ok(id) => Ok(id),
                Err(_) => Err(AllocError),
            },
        }
    }

    /// Attaches a source below another, and answers its id; none where the other is not there or can have no child.
    pub(crate) fn add_child(
        &mut self,
        parent: Place,
        spec: SourceSpec,
        now: u64,
    ) -> Result<Option<u64>, AllocError>
        requires within { IsWithin most_count (lane_of self.old) }
        requires now { now ≤ latest }
        ensures bears { IfOk result (λ child. is_some child ≡ can_bear_in parent.id (context_at parent.context (lane_of self.old))) }
        ensures id { IfOk result (λ child. IfSome child (λ id. id ≡ next_id (context_at parent.context (lane_of self.old)))) }
        ensures born { IfOk result (λ child. OnSome child (lane_of self.new ≡ edited parent.context (born spec now parent.id) (lane_of self.old))) }
        ensures none { IfOk result (λ child. child ≡ None → lane_of self.new ≡ lane_of self.old) }
    {
        match self.context_mut(parent.context) {
            None => Ok(None),
            Some(context) => match context.rows_mut().add_child(parent.id, spec, now) {
                Ok(id) => Ok(Some(id)),
                Err(RowsFault::OutOfMemory) => Err(AllocError),
                Err(_) => Ok(None),
            },
        }
    }

    /// Gives a source a priority, and answers whether it is there and no child.
    pub(crate) fn set_priority(&mut self, place: Place, priority: i32) -> Result<bool, AllocError>
        requires { IsWithin most_count (lane_of self.old) }
        ensures moves { IfOk result (λ moves. moves ≡ is_none (priority_fault (row_of place.context place.id (lane_of self.old)))) }
        ensures moved { IfOk result (λ moves. moves ≡ true → lane_of self.new ≡ edited place.context (reprioritised place.id priority) (lane_of self.old)) }
        ensures none { IfOk result (λ moves. moves ≡ false → lane_of self.new ≡ lane_of self.old) }
    {
        match self.context_mut(place.context) {
            None => Ok(false),
            Some(context) => match context.rows_mut().set_priority(place.id, priority) {
                Ok(()) => Ok(true),
                Err(RowsFault::OutOfMemory) => Err(AllocError),
                Err(_) => Ok(false),
            },
        }
    }

    /// Destroys a source of a context with all that are under it, and answers whether it is there.
    pub(crate) fn destroy(&mut self, context: u32, id: u64) -> bool
        ensures there { result ≡ is_some (row_of context id (lane_of self.old)) }
        ensures destroyed { lane_of self.new ≡ edited context (destroyed id) (lane_of self.old) }
        ensures none { result ≡ false → lane_of self.new ≡ lane_of self.old }
    {
        match self.context_mut(context) {
            None => false,
            Some(context) => context.rows_mut().destroy(id),
        }
    }

    /// Gives a source of a context a ready time, and answers whether it is there.
    pub(crate) fn set_ready(&mut self, context: u32, id: u64, ready: i64) -> bool
        ensures there { result ≡ is_some (row_of context id (lane_of self.old)) }
        ensures set { lane_of self.new ≡ edited context (ready_set id ready) (lane_of self.old) }
        ensures none { result ≡ false → lane_of self.new ≡ lane_of self.old }
    {
        match self.context_mut(context) {
            None => false,
            Some(context) => context.rows_mut().set_ready(id, ready),
        }
    }

    /// Counts a dispatch of a source of a context.
    pub(crate) fn count(&mut self, context: u32, id: u64)
        requires { IsWithin most_count (lane_of self.old) }
        ensures { lane_of self.new ≡ edited context (counted id) (lane_of self.old) }
    {
        if let Some(context) = self.context_mut(context) {
            context.rows_mut().dispatched(id);
        }
    }

    /// Gives a timeout of a context that stays after a call its next ready time.
    pub(crate) fn restart(&mut self, context: u32, id: u64, now: u64)
        requires { now ≤ latest }
        ensures { lane_of self.new ≡ edited context (restarted now id) (lane_of self.old) }
    {
        if let Some(context) = self.context_mut(context) {
            if let Some(row) = context.rows().found(id) {
                if let Kind::Timeout(interval) = row.kind {
                    context.rows_mut().set_ready(id, due_after(interval, now));
                }
            }
        }
    }

    /// The row of a context's source.
    #[inline]
    pub(crate) fn row(&self, context: u32, id: u64) -> Option<Row>
        ensures { result ≡ row_of context id (lane_of self.now) }
    {
        match self.context(context) {
            None => None,
            Some(context) => context.rows().row(id),
        }
    }
}
