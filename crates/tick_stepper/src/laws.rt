//! Laws of the order of turns: that lanes commute, that quiet turns need not be taken, and what moves of contexts lead to.
//! As functions that do nothing.
ghost use Rattle.tick_stepper.specs.Law.{EachTurnedOnce, DeliveryIsOne, TickIsOne, ChangesArePartial, ClaimsHappen};
ghost use Rattle.tick_stepper.specs.Sparse.{SparseIsDense};
ghost use Rattle.tick_stepper.specs.Tie.{QueuesMove};
ghost use Rattle.tick_stepper.specs.Account.{MovesLead, MovesChangeOne};

/// Within a tick lanes commute: whatever workers take their turns, in any order and step by step between one another,
/// each lane is turned once, as on one thread, and what is delivered is what one thread delivers.
pub fn lanes_commute()
    ensures turned { EachTurnedOnce }
    ensures delivered { DeliveryIsOne }
    ensures tick { TickIsOne }
    ensures parts { ChangesArePartial }
    ensures happens { ClaimsHappen }
{}

/// A lane whose turn would be quiet may be left alone: whichever lanes take their turns at each tick, where the turn of
/// each other one would write nothing, send nothing and leave the lane as it was, the run is the one in which all take
/// them.
pub fn quiet_turns_need_not_be_taken()
    ensures { SparseIsDense }
{}

/// A tick of one thread, one move at a time, comes to the lanes after it: no move changes where it comes to, and when none is left
/// the lanes are there. Each move changes one lane at most, which keeps its lines and writes those of the move behind them, or hands one
/// context over.
pub fn moves_lead()
    ensures leads { MovesLead }
    ensures one { MovesChangeOne }
{}

/// The queues that workers share take the moves of that machine, each queue by itself: where what waits and what was taken is what the
/// machine has, a take that gives a lane leaves what the claim of a worker without a lane leaves, and where the letters are those of
/// the machine, a push leaves what the step leaves that posts the letter.
pub fn queues_move()
    ensures { QueuesMove }
{}
