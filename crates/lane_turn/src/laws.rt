//! Laws of turns, deliveries and whole runs of lanes: letters, replies, traces, depths, contexts that move. As functions that do nothing.
ghost use Rattle.lane_turn.specs.Turn.{TurnsEnd};
ghost use Rattle.lane_turn.specs.Iterations.{IterationsGoOn};
ghost use Rattle.lane_turn.specs.Levels.{LevelsHold};
ghost use Rattle.lane_turn.specs.Letters.{LettersTell};
ghost use Rattle.lane_turn.specs.Views.{ViewsAgree};
ghost use Rattle.lane_turn.specs.Arrivals.{LettersArrive};
ghost use Rattle.lane_turn.specs.Owed.{RepliesComeOnce};
ghost use Rattle.lane_turn.specs.Taken.{RepliesAreTakenOnce};
ghost use Rattle.lane_turn.specs.Traces.{TracesGrow};
ghost use Rattle.lane_turn.specs.Depths.{DepthsHold};
ghost use Rattle.lane_turn.specs.Rest.{EndedLanesRest};
ghost use Rattle.lane_turn.specs.Blocked.{BlockedWait};
ghost use Rattle.lane_turn.specs.Selected.{IterationsHaveOrder};
ghost use Rattle.lane_turn.specs.Stays.{SourcesStay};
ghost use Rattle.lane_turn.specs.Worked.{ContextsGo};
ghost use Rattle.lane_turn.specs.Holding.{ContextsAreHeld, ContextsMove, GivenContextsStand, LettersFollow, RunsStay};
ghost use Rattle.lane_turn.specs.Limited.{StepsAreLimited};
ghost use Rattle.lane_turn.specs.Stands.{StandingsStay};

/// A turn leaves a lane with no step left: it rests, has ended or is halted.
pub fn turns_end()
    ensures { TurnsEnd }
{}

/// An iteration never dispatches a source that was not selected when it began, and none after a newer iteration of its
/// context began: by each step it keeps some of the ids that it had left, from some place on; where a newer one begins
/// none is left; and what is dispatched is the next id of the innermost, which is taken. What goes on is the call, the
/// iteration or the run of a loop that it was. A call begins where fewer than 32 are in progress. The next id is dispatched, and
/// its line shows the priority of that moment; it is passed over where its source is destroyed. An `iterate` is told whether
/// anything was selected.
pub fn iterations_go_on()
    ensures { IterationsGoOn }
{}

/// Before and after each step of a run the sources of each context stand in trees at no more levels than the script's
/// version has: two in version 1, four in version 2. So in version 1 what is selected, where a child or a priority is refused, and
/// what a destroy and a change of priority leave is what the rules of a root and its children say.
pub fn levels_go_by_version()
    ensures { LevelsHold }
{}

/// The letters of a turn carry its tick, its lane's number, and their own from 0 on; neither turns, nor contexts that go over, nor
/// deliveries change the number of a lane.
pub fn letters_tell()
    ensures { LettersTell }
{}

/// At the beginning of each tick all lanes have seen the same cancellables cancelled: within its turn a lane sees what it
/// cancels itself, and each other lane sees it by the letter of that, at the delivery.
pub fn views_agree()
    ensures { ViewsAgree }
{}

/// Each letter that attaches, a reply or an invoke, is attached once, in its tick, by the lane that has its context once contexts
/// went over: with the next id, in the order of the letters, and with the line `arrive`. In a run that lane has there after the
/// delivery the rows that it had, but for what handlers of a cancellation did to them, and then the row of each letter's source;
/// that of a reply holds the reply. A source that a letter tells is that of an invoke.
pub fn letters_arrive()
    ensures { LettersArrive }
{}

/// Of each task of a lane there is one reply, whatever letters the lane is sent: until it is posted it is owed, by a task that
/// is still to be started or goes on, and it is posted once. The lanes of a run are such lanes.
pub fn replies_come_once()
    ensures { RepliesComeOnce }
{}

/// What came to the lanes of a run of a task's replies they hold still, or they told the result, each once; and so does one lane,
/// whatever letters it is sent, where no context goes over. So of each task of a run at most one result is told, in all lanes together,
/// and none as long as a reply of it is held; and no reply is lost where the script has a context: what a lane posted earlier is then held, or its result told.
pub fn replies_are_taken_once()
    ensures { RepliesAreTakenOnce }
{}

/// A trace only grows, by lines of the tick: a step, a turn, contexts that go over, and a delivery leave the lines that there are, and
/// add lines of their own tick behind them. So the lines of each lane of a run stand by their ticks.
pub fn traces_grow()
    ensures { TracesGrow }
{}

/// A lane that has ended or is halted takes no step: its turns poll its tasks, and write no other line than that one is late.
/// Where contexts go over at the end of a tick, the lines that a lane takes one over are written and nothing else of a lane is changed
/// than what it has. Deliveries write what comes with letters, take no step of a lane, and let none go on. So
/// in a run such a lane stays as it is in each tick that comes, but for its tasks, its contexts, and what it sees cancelled.
pub fn ended_lanes_rest()
    ensures { EndedLanesRest }
{}

/// The depth of a dispatch is the number of dispatches that are in progress in its lane, itself among them, and it is 1 to 32.
/// A lane halts at a depth only where 32 calls are in progress.
pub fn depths_hold()
    ensures { DepthsHold }
{}

/// In a run no source is dispatched while it, or one above it, is in a call that may not recurse.
pub fn blocked_sources_wait()
    ensures { BlockedWait }
{}

/// What an iteration selects: the most urgent ready sources of its context, all of these and no other, of one priority, in the
/// order of their numbers and each behind those under it. None is dispatched twice by it.
pub fn iterations_have_order()
    ensures { IterationsHaveOrder }
{}

/// In a run each dispatch begins a call of its source, and the n-th one that knows that it is the n-th. When that call ends the
/// source is there exactly where it was not destroyed before, was no reply's, and `keep` lets it stay.
pub fn sources_stay_as_kept()
    ensures { SourcesStay }
{}

/// A turn takes at most 10,000 actions and dispatches, those of a handler's list not counted: each takes one of the number that
/// the turn began with, any other step none, and no step gives one back. Where none is left the lane is halted in its place, by the
/// line `halt steps` alone. So a turn starts at most 10,000 tasks, and sends at most as many letters as it polls tasks, and 10,000.
pub fn steps_are_limited()
    ensures { StepsAreLimited }
{}

/// Once an iteration is begun, what an iteration would do with each source is what it was when this one was begun: so it may be
/// asked for right after the step.
pub fn standings_stay()
    ensures { StandingsStay }
{}

/// At the beginning of each tick each context is the lane's to which it was given last, at first the one to which the script gives
/// it, and no other's; none is on its way then. A script in whose lists no context is given leaves each where it was.
pub fn contexts_are_held()
    ensures { ContextsAreHeld }
{}

/// A context is handed over as it stands, with all rows, their ready times and counts, and the replies that they hold; the
/// lane that takes it over has the context so. No other context is changed.
pub fn contexts_move_whole()
    ensures { ContextsMove }
{}

/// In a run each step of a lane leaves a context that was given in this tick as it stood, with its rows and the replies that they
/// hold, and given: what goes over at the end of the tick is the context as it was when it was given.
pub fn given_contexts_stand()
    ensures { GivenContextsStand }
{}

/// Letters for a context reach the lane that has it after the handing over of the tick: each is attached there once.
pub fn letters_follow()
    ensures { LettersFollow }
{}

/// A script in whose lists no context is given runs as it would where none ever went over: at each tick its lanes are the same.
pub fn runs_stay()
    ensures { RunsStay }
{}

/// Two scripts whose lanes give contexts, computed: what is handed over keeps its ready times, a letter of the same tick follows it,
/// and gives that miss.
pub fn contexts_go()
    ensures { ContextsGo }
{}
