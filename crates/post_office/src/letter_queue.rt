//! The queue of an office, into which the workers post side by side.
ghost use Rattle.std.specs.Prelude.{◌≡◌, MatchResult};
ghost use Rattle.post_office.specs.Passes.{posts};

use crate::lent::Lent;
use crate::letter::Letter;
use crate::views::PostView;
use crossbeam_queue::protocol::{Join, Lesson, Outcome, Protocol, Split};
use crossbeam_queue::{RuledSegQueue, SegPass};
use std::marker::Model;
use std::sync::Wait;

/// The rule: at every moment posts of single letters led there.
pub(crate) struct Posted;

impl Protocol<Letter, PostView> for Posted {
    ghost use Rattle.std.specs.Prelude.{[]};
    ghost use Rattle.post_office.specs.LetterQueue.{WasPosted, keeper};

    ghost holds = { WasPosted };

    ghost first = { keeper [] [] 0 };
}

/// A pass posts a letter.
struct Posts;

impl Outcome<Letter, PostView> for Posts {
    ghost use Rattle.std.specs.Prelude.{◌≡◌};
    ghost use Rattle.post_office.specs.LetterQueue.{posted};

    ghost then = { λ v x w. w ≡ posted v x };
}

/// The office's own pass drains a letter, one of those that were recorded, or learns that none is left.
pub(crate) struct Drains;

impl Outcome<Letter, PostView> for Drains {
    ghost use Rattle.std.specs.Prelude.{◌≡◌, [], ◌∷◌, ◌++◌, ◌<◌, length};
    ghost use Rattle.post_office.specs.Merge.{concat};
    ghost use Rattle.post_office.specs.LetterQueue.{keeper};

    ghost then = { λ v x w. (w ≡ keeper v.recorded (v.drained ++ x ∷ []) v.out) × (length v.drained < length (concat v.recorded)) };
}

impl Lesson<Letter, PostView> for Drains {
    ghost use Rattle.post_office.specs.LetterQueue.{WasSeen};

    ghost fact = { WasSeen };
}

/// A pass goes out from the office's own, and comes back to it.
pub(crate) struct Out;

impl Split<PostView> for Out {
    ghost use Rattle.std.specs.Prelude.{[], ◌+◌};
    ghost use Rattle.post_office.specs.LetterQueue.{keeper, poster};

    ghost left = { λ v. keeper v.recorded v.drained (v.out + 1) };

    ghost right = { λ v. poster [] 1 };
}

impl Join<PostView> for Out {
    ghost use Rattle.std.specs.Prelude.{[], ◌∷◌, ◌++◌, ◌-◌};
    ghost use Rattle.post_office.specs.LetterQueue.{keeper, poster};

    ghost both = { λ v w. keeper (v.recorded ++ w.posted ∷ []) v.drained (v.out - 1) };

    ghost spent = { poster [] 0 };
}

pub(crate) type Queue = RuledSegQueue<Letter, PostView, Posted>;

pub(crate) type Seat = SegPass<Letter, PostView>;

/// With this one worker posts to an office. It counts its letters, and takes no memory. Contracts see of which office it is,
/// and what it posted.
#[derive(Drop)]
pub struct OfficePass {
    pub(crate) seat: Seat,
    pub(crate) count: usize,
}

impl Model for OfficePass {
    ghost use Rattle.std.specs.Prelude.{◌≡◌, ◌<◌, None, length};
    ghost use Rattle.post_office.specs.Passes.{Posting};
    ghost use Rattle.post_office.specs.LetterQueue.{poster};

    ghost Value = { Posting };

    ghost view = { λ p. record { home = p.seat.web; posted = p.seat.me.view.client.posted } };

    ghost invariant = { λ p. (p.seat.me.view.client ≡ poster p.seat.me.view.client.posted 1) × (p.seat.me.hand ≡ None) × (p.seat.me.spare ≡ None) × (p.count < 18446744073709551615 → length p.seat.me.view.client.posted ≡ p.count) };
}

/// The part of an office that workers share. Contracts see which office it is of.
pub struct LetterQueue {
    pub(crate) queue: Queue,
}

impl Model for LetterQueue {
    ghost use Rattle.std.specs.Prelude.{ℕ};

    ghost Value = { ℕ × ℕ };

    ghost view = { λ q. q.queue.web };
}

impl LetterQueue {
    /// Posts a letter behind those that the pass posted. Only where memory runs out it comes back, and then nothing is changed.
    pub fn post_as<R: Wait>(
        &self,
        rt: &R,
        pass: &mut OfficePass,
        letter: Letter,
    ) -> Result<(), Letter>
        requires home { pass.old.home ≡ self.now }
        ensures posted { MatchResult result (λ _. pass.new ≡ posts pass.old letter) (λ back. (back ≡ letter) × (pass.new ≡ pass.old)) }
    {
        self.queue.push_as::<Posts, R>(rt, &mut pass.seat, letter)?;
        pass.count = pass.count.saturating_add(1);
        Ok(())
    }

    /// A post over a pass, for one turn. It takes no memory.
    pub fn lend<'a, R: Wait>(&'a self, rt: &'a R, pass: OfficePass) -> Lent<'a, R>
        requires home { pass.home ≡ self.now }
        ensures pass { result ≡ pass }
    {
        Lent::new(rt, self, pass)
    }
}
