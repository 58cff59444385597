//! A pass that is lent to a turn, so that it posts into an office and comes back.
ghost use Rattle.std.specs.Prelude.{◌≡◌};

use crate::letter::Letter;
use crate::letter_queue::{LetterQueue, OfficePass};
use crate::post::Post;
use std::marker::Model;
use std::sync::Wait;

/// A post that owns a pass of an office, and is turned back into it after the turn. Contracts see the pass.
#[derive(Drop)]
pub struct Lent<'a, R: Wait> {
    rt: &'a R,
    queue: &'a LetterQueue,
    pass: OfficePass,
}

impl<'a, R: Wait> Model for Lent<'a, R> {
    ghost use Rattle.std.specs.Prelude.{◌≡◌};
    ghost use Rattle.post_office.specs.Passes.{Posting};

    ghost Value = { Posting };

    ghost view = { λ l. l.pass };

    ghost invariant = { λ l. l.pass.home ≡ l.queue.now };
}

impl<'a, R: Wait> Lent<'a, R> {
    pub(crate) fn new(rt: &'a R, queue: &'a LetterQueue, pass: OfficePass) -> Lent<'a, R>
        requires home { pass.home ≡ queue.now }
        ensures pass { result ≡ pass }
    {
        Lent { rt, queue, pass }
    }
}

impl<R: Wait> Lent<'_, R> {
    /// The pass, with what was posted by it. It takes no memory.
    pub fn into_pass(self) -> OfficePass
        ensures pass { result ≡ self.entry }
    {
        let Lent {
            rt: _,
            queue: _,
            pass,
        } = self;
        pass
    }
}

impl<R: Wait> Post for Lent<'_, R> {
    ghost letters = { λ l. l.posted };

    ghost home = { λ l. l.home };

    fn post(&mut self, letter: Letter) -> Result<(), Letter> {
        self.queue.post_as(self.rt, &mut self.pass, letter)
    }
}
