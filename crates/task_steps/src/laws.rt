//! Laws of a book over all of its polls.
ghost use Rattle.task_steps.specs.Once.{EachReplyOnce};

/// Each task's reply comes once over polls at rising ticks, where its tick is polled: the tick that first sees the task as cancelled,
/// where it returns on that, else the tick of its end. This call does nothing; its clause is the law.
pub fn each_reply_once()
    ensures { EachReplyOnce }
{}
