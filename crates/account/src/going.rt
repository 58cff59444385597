//! What comes next in a run of which an account is asked: a step, a turn's begin or end, a letter, a context that goes over, a tick's begin.
ghost use Rattle.std.specs.Prelude.{◌≡◌, ◌+◌, ◌<◌, ◌≤◌, ◌++◌, Ok, None, Some, length, IfOk, IfSome, OnOk};
ghost use Rattle.loop_script.specs.declared.plan.Plan.{Plan};
ghost use Rattle.loop_script.specs.Bounds.{most_lanes, most_ticks};
ghost use Rattle.lane_turn.specs.Tick.{lanes_at};
ghost use Rattle.tick_stepper.specs.Account.{started, moved};
ghost use Rattle.account.specs.Told.{trace_at, told, IsMoment, TellsNext, TellsNothing};
ghost use Rattle.account.specs.Standing.{AreUnspent, place_of, Stands};
ghost use Rattle.tick_stepper.specs.Share.{lanes_in as lanes_of, AreLined};

use crate::foreseen::{done, foreseen};
use crate::gift::gift_of;
use crate::letters::receive;
use crate::moment::{Deed, Moment};
use crate::turns::{Begun, begin, step};
use lane_turn::LaneState;
use loop_script::Script;
use post_office::Letter;
use std::alloc::Global;
use tick_stepper::{OutOfMemory, move_context};

/// How far a tick has come.
#[derive(Clone, Copy)]
pub(crate) enum Phase {
    /// The turns of the lanes before this one are over.
    Turning(usize),
    /// What the letters before this one give has gone over.
    Giving(usize),
    /// The lanes before this one have all letters, and it has those before a letter.
    Bringing { lane: usize, letter: usize },
}

/// The lanes of a run by number, the letters of the tick, how far it has come, and the turn that is in progress, where one is.
#[derive(Drop)]
pub(crate) struct Going {
    pub lanes: Vec<LaneState>,
    pub letters: Vec<Letter>,
    pub phase: Phase,
    pub begun: Option<Begun>,
}

impl Going {
    /// Goes on by one move of a tick, and tells what it was; None where the tick is over.
    pub(crate) fn next(
        &mut self,
        alloc: Global,
        script: &Script,
        tick: u32,
    ) -> Result<Option<Moment>, OutOfMemory>
        requires few { length script.now.lanes ≤ most_lanes }
        requires tick { tick < most_ticks }
        requires stands { Stands script.now tick self.old }
        ensures stands { OnOk result (Stands script.now tick self.new) }
        ensures over { result ≡ Ok None → lanes_of self.new.lanes.items ≡ lanes_at script.now (tick + 1) }
        ensures moment { IfOk result (λ found. IfSome found (TellsNext script.now tick (place_of self.old) (place_of self.new))) }
        ensures passed { result ≡ Ok None → TellsNothing script.now tick (place_of self.old) (place_of self.new) }
    {
        match self.phase {
            Phase::Turning(lane) => {
                if lane < self.lanes.len() {
                    return Ok(Some(self.go_on(alloc, script, tick, lane)?));
                }
                self.phase = Phase::Giving(0);
                self.give(script, tick, 0)
            }
            Phase::Giving(letter) => self.give(script, tick, letter),
            Phase::Bringing { lane, letter } => self.bring(script, tick, lane, letter),
        }
    }

    /// How many lines a lane has written.
    fn lines_of(&self, lane: usize) -> usize
        ensures { result ≡ length (trace_at lane (lanes_of self.now.lanes.items)) }
    {
        match self.lanes.get(lane) {
            None => 0,
            Some(lane) => lane.trace().len(),
        }
    }

    /// The moment of what a lane has just done, which had written so many lines before.
    fn moment(&self, tick: u32, lane: u32, deed: Deed, from: usize) -> Moment
        ensures { result ≡ record { tick = tick; lane = lane; deed = deed; from = from; to = length (trace_at lane (lanes_of self.now.lanes.items)) } }
    {
        Moment {
            tick,
            lane,
            deed,
            from,
            to: self.lines_of(lane as usize),
        }
    }

    /// The turn of a lane begins, takes its next step or is over.
    fn go_on(
        &mut self,
        alloc: Global,
        script: &Script,
        tick: u32,
        lane: usize,
    ) -> Result<Moment, OutOfMemory>
        requires few { length script.now.lanes ≤ most_lanes }
        requires tick { tick < most_ticks }
        requires stands { Stands script.now tick self.old }
        requires phase { self.old.phase ≡ Phase.Turning lane }
        requires lane { lane < length self.old.lanes.items }
        ensures stands { OnOk result (Stands script.now tick self.new) }
        ensures moment { IfOk result (IsMoment script.now tick (place_of self.old) (place_of self.new)) }
    {
        match self.begun.take() {
            None => self.begin(alloc, script, tick, lane),
            Some(begun) => self.step(script, tick, lane, begun),
        }
    }

    /// The turn of a lane begins.
    fn begin(
        &mut self,
        alloc: Global,
        script: &Script,
        tick: u32,
        lane: usize,
    ) -> Result<Moment, OutOfMemory>
        requires few { length script.now.lanes ≤ most_lanes }
        requires tick { tick < most_ticks }
        requires stands { Stands script.now tick self.old }
        requires phase { self.old.phase ≡ Phase.Turning lane }
        requires begun { self.old.begun ≡ None }
        requires lane { lane < length self.old.lanes.items }
        ensures stands { OnOk result (Stands script.now tick self.new) }
        ensures moment { IfOk result (IsMoment script.now tick (place_of self.old) (place_of self.new)) }
    {
        let from = self.lines_of(lane);
        let begun = begin(alloc, script, tick, self.lanes.as_mut_slice(), lane)?;
        self.begun = Some(begun);
        Ok(self.moment(tick, lane as u32, Deed::Polled, from))
    }

    /// The turn of a lane, which was taken out, takes its next step, or is over.
    fn step(
        &mut self,
        script: &Script,
        tick: u32,
        lane: usize,
        mut begun: Begun,
    ) -> Result<Moment, OutOfMemory>
        requires few { length script.now.lanes ≤ most_lanes }
        requires tick { tick < most_ticks }
        requires stands { Stands script.now tick (record self.old { begun = Some begun }) }
        requires phase { self.old.phase ≡ Phase.Turning lane }
        requires lane { lane < length self.old.lanes.items }
        ensures stands { OnOk result (Stands script.now tick self.new) }
        ensures moment { IfOk result (IsMoment script.now tick (place_of (record self.old { begun = Some begun })) (place_of self.new)) }
    {
        let from = self.lines_of(lane);
        let ahead = foreseen(script, &self.lanes[lane]);
        let more = step(script, tick, self.lanes.as_mut_slice(), lane, &mut begun)?;
        let deed = done(ahead, more);
        if more {
            self.begun = Some(begun);
        } else {
            self.end_turn(lane, begun)?;
        }
        Ok(self.moment(tick, lane as u32, deed, from))
    }

    /// The turn of a lane is over: what it posted is behind the letters of the turns before.
    fn end_turn(&mut self, lane: usize, begun: Begun) -> Result<(), OutOfMemory>
        requires lane { lane < length self.old.lanes.items }
        ensures lanes { OnOk result (self.new.lanes ≡ self.old.lanes) }
        ensures letters { OnOk result (self.new.letters.items ≡ self.old.letters.items ++ begun.post) }
        ensures phase { OnOk result (self.new.phase ≡ Phase.Turning (lane + 1)) }
        ensures begun { OnOk result (self.new.begun ≡ None) }
    {
        let mut posted = begun.into_letters();
        self.letters.append(&mut posted)?;
        self.begun = None;
        self.phase = Phase::Turning(lane + 1);
        Ok(())
    }

    /// Contexts that the letters from one on give go over, up to the first that does; then letters are brought.
    fn give(
        &mut self,
        script: &Script,
        tick: u32,
        first: usize,
    ) -> Result<Option<Moment>, OutOfMemory>
        requires few { length script.now.lanes ≤ most_lanes }
        requires tick { tick < most_ticks }
        requires stands { Stands script.now tick self.old }
        requires phase { self.old.phase ≡ Phase.Giving first }
        ensures stands { OnOk result (Stands script.now tick self.new) }
        ensures over { result ≡ Ok None → lanes_of self.new.lanes.items ≡ lanes_at script.now (tick + 1) }
        ensures moment { IfOk result (λ found. IfSome found (TellsNext script.now tick (place_of self.old) (place_of self.new))) }
        ensures passed { result ≡ Ok None → TellsNothing script.now tick (place_of self.old) (place_of self.new) }
    {
        for place in first..self.letters.len() {
            if let Some(moment) = self.hand(tick, place)? {
                return Ok(Some(moment));
            }
        }
        self.phase = Phase::Bringing { lane: 0, letter: 0 };
        self.bring(script, tick, 0, 0)
    }

    /// The context that a letter gives goes over, where it gives one. It tells nothing where none did.
    fn hand(&mut self, tick: u32, place: usize) -> Result<Option<Moment>, OutOfMemory>
        requires lined { AreLined self.old.lanes.items }
        requires phase { self.old.phase ≡ Phase.Giving place }
        requires place { place < length self.old.letters.items }
        ensures moved { OnOk result ((script : Plan) → moved script tick (place_of self.old) ≡ Some (place_of self.new)) }
        ensures phase { OnOk result (self.new.phase ≡ Phase.Giving (place + 1)) }
        ensures letters { OnOk result (self.new.letters ≡ self.old.letters) }
        ensures unspent { OnOk result (AreUnspent self.new.lanes.items) }
        ensures count { OnOk result (length self.new.lanes.items ≡ length self.old.lanes.items) }
        ensures moment { IfOk result (λ found. IfSome found (λ m. (script : Plan) → IsMoment script tick (place_of self.old) (place_of self.new) m)) }
        ensures quiet { result ≡ Ok None → (script : Plan) → told script tick (place_of self.old) ≡ None }
        ensures still { result ≡ Ok None → lanes_of self.new.lanes.items ≡ lanes_of self.old.lanes.items }
    {
        self.phase = Phase::Giving(place + 1);
        let Some(gift) = gift_of(&self.letters[place]) else {
            return Ok(None);
        };
        let from = self.lines_of(gift.to as usize);
        if !move_context(
            tick,
            self.lanes.as_mut_slice(),
            gift.from,
            gift.context,
            gift.to,
        )? {
            return Ok(None);
        }
        let deed = Deed::HandedOver {
            context: gift.context,
            from: gift.from,
        };
        Ok(Some(self.moment(tick, gift.to, deed, from)))
    }

    /// The next letter is brought: to a lane, or where that has them all to the one behind it. None where all lanes have all letters.
    fn bring(
        &mut self,
        script: &Script,
        tick: u32,
        first: usize,
        letter: usize,
    ) -> Result<Option<Moment>, OutOfMemory>
        requires few { length script.now.lanes ≤ most_lanes }
        requires tick { tick < most_ticks }
        requires stands { Stands script.now tick self.old }
        requires phase { self.old.phase ≡ Phase.Bringing first letter }
        ensures stands { OnOk result (Stands script.now tick self.new) }
        ensures over { result ≡ Ok None → lanes_of self.new.lanes.items ≡ lanes_at script.now (tick + 1) }
        ensures moment { IfOk result (λ found. IfSome found (TellsNext script.now tick (place_of self.old) (place_of self.new))) }
        ensures passed { result ≡ Ok None → TellsNothing script.now tick (place_of self.old) (place_of self.new) }
    {
        let mut letter = letter;
        for lane in first..self.lanes.len() {
            if letter < self.letters.len() {
                return Ok(Some(self.receive(script, tick, lane, letter)?));
            }
            self.phase = Phase::Bringing {
                lane: lane + 1,
                letter: 0,
            };
            letter = 0;
        }
        Ok(None)
    }

    /// A letter is brought to a lane.
    fn receive(
        &mut self,
        script: &Script,
        tick: u32,
        lane: usize,
        letter: usize,
    ) -> Result<Moment, OutOfMemory>
        requires few { length script.now.lanes ≤ most_lanes }
        requires tick { tick < most_ticks }
        requires stands { Stands script.now tick self.old }
        requires phase { self.old.phase ≡ Phase.Bringing lane letter }
        requires lane { lane < length self.old.lanes.items }
        requires letter { letter < length self.old.letters.items }
        ensures stands { OnOk result (Stands script.now tick self.new) }
        ensures moment { IfOk result (IsMoment script.now tick (place_of self.old) (place_of self.new)) }
    {
        let from = self.lines_of(lane);
        let sender = self.letters[letter].sender;
        receive(
            script,
            tick,
            self.lanes.as_mut_slice(),
            lane,
            self.letters.as_slice(),
            letter,
        )?;
        self.phase = Phase::Bringing {
            lane,
            letter: letter + 1,
        };
        Ok(self.moment(tick, lane as u32, Deed::Received { letter, sender }, from))
    }

    /// A tick is over, and the next begins: no turn is begun, and nothing posted.
    pub(crate) fn begin_tick(&mut self)
        ensures lanes { self.new.lanes ≡ self.old.lanes }
        ensures begun { self.new.begun ≡ None }
        ensures phase { self.new.phase ≡ Phase.Turning 0 }
        ensures place { place_of self.new ≡ started (lanes_of self.old.lanes.items) }
    {
        self.letters.clear();
        self.phase = Phase::Turning(0);
        self.begun = None;
    }
}
