//! Laws of what is selected, blocked and standing in a context, as functions that do nothing.
ghost use Rattle.context_core.specs.TwoLevels.{LevelLaws};
ghost use Rattle.context_core.specs.FourLevels.{ParentLaws};
ghost use Rattle.context_core.specs.Standing.{StandingsTell, StandingsNameWhatIsSo};

/// What calls in progress and sources below a source do to it goes by parents: a call of it or of any source above it
/// blocks it. Where sources stand at two levels at most, a call of it or of its parent does, a child that is ready and not
/// blocked lends its readiness to its parent, and what is dispatched next is what these rules say.
pub fn blocking_goes_by_parents()
    ensures { LevelLaws }
{}

/// What is dispatched next goes by parents alone, at each of the four levels at which sources may stand: a call of a source or of
/// any above it blocks it, a source is ready where no call blocks it and it is so by itself or a child of it is ready, and the most
/// urgent of these come by the numbers from the root down, each behind those under it.
pub fn selection_goes_by_parents()
    ensures { ParentLaws }
{}

/// What a standing tells. A source's standing is `Selected` exactly where an iteration begun now would dispatch it, and `Blocked`
/// exactly where a call in progress blocks it, which is then a call of it or of one above it. What any other names is so: the
/// one that goes first is selected and more urgent, the ready time has not come, the descriptor shows no bit that is asked for,
/// and the cancellable is not cancelled.
pub fn standings_tell()
    ensures which { StandingsTell }
    ensures names { StandingsNameWhatIsSo }
{}
