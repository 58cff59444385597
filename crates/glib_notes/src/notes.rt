//! The notes of a run: each move with its scene comes in here, is noted in what is kept (`Kept`), and goes on to the file of its kind.
use crate::acted::acted;
use crate::called::{arrived, begun_call, polled, returned, settle};
use crate::cancelled::handlers_called;
use crate::difference::Difference;
use crate::kept::{Called, ContextKept, IterationKept, ThreadKept, contexts_of, threads_of};
use crate::selected::{Look, look_over};
use crate::shared::Shared;
use account::{Account, Deed, Moment};
use context_core::Standing;
use lane_turn::{Activity, Event, LaneState, Line, Origin, Word};
use loop_script::{Action, Script};
use std::alloc::{AllocError, Global};

/// Where GLib parts from the rules: of the same script its text may be another from there on.
#[derive(Clone, Copy, Debug, PartialEq, Eq)]
pub struct Note {
    pub tick: u32,
    /// The thread in whose move that is.
    pub lane: u32,
    pub difference: Difference,
    /// The context of which it is.
    pub context: Option<u32>,
    /// The source of that context, where it is of one.
    pub source: Option<u64>,
}

/// What a move is looked at with.
#[derive(Clone, Copy)]
pub(crate) struct Scene<'a> {
    pub alloc: Global,
    pub account: &'a Account,
    pub script: &'a Script,
    pub lane: &'a LaneState,
    pub moment: &'a Moment,
    /// What the iteration that the move began does with each source, where that is known already.
    pub begun: Option<&'a [Standing]>,
}

impl<'a> Scene<'a> {
    /// The lines that the move wrote.
    pub(crate) fn lines(&self) -> &'a [Line] {
        match self.lane.trace().get(self.moment.from..self.moment.to) {
            Some(lines) => lines,
            None => &[],
        }
    }

    /// A note of the move.
    pub(crate) fn note(
        &self,
        difference: Difference,
        context: Option<u32>,
        source: Option<u64>,
    ) -> Note {
        Note {
            tick: self.moment.tick,
            lane: self.moment.lane,
            difference,
            context,
            source,
        }
    }

    /// Whether an action of the move missed.
    pub(crate) fn has_missed(&self, word: Word) -> bool {
        self.lines()
            .iter()
            .any(|line| line.event == Event::Miss(word))
    }

    /// Whether the move halted the lane.
    fn halts(&self) -> bool {
        self.lines().iter().any(|line| line.event == Event::HaltSteps
            || line.event == Event::HaltDepth)
    }
}

/// Adds a note of a context, or of none.
pub(crate) fn add_note(
    scene: &Scene<'_>,
    difference: Difference,
    context: Option<u32>,
    found: &mut Vec<Note>,
) -> Result<(), AllocError> {
    found.push(scene.note(difference, context, None))?;
    Ok(())
}

/// What is kept of a run, to know where GLib parts from the rules.
#[derive(Drop)]
pub(crate) struct Kept {
    pub contexts: Vec<ContextKept>,
    pub threads: Vec<ThreadKept>,
    pub shared: Shared,
}

/// The notes of a run, move by move.
#[derive(Drop)]
pub struct Notes {
    alloc: Global,
    kept: Kept,
    /// Those of the latest move.
    found: Vec<Note>,
}

impl Notes {
    /// Nothing was looked at yet.
    pub fn new(alloc: Global, script: &Script) -> Result<Notes, AllocError> {
        Ok(Notes {
            alloc,
            kept: Kept {
                contexts: contexts_of(alloc, script)?,
                threads: threads_of(alloc, script)?,
                shared: Shared::new(alloc, script)?,
            },
            found: Vec::new(alloc),
        })
    }

    /// Looks at the latest moment of a run, and answers where GLib parts from the rules in it. Each moment has to be looked at, in
    /// order. Who has the standings of the iteration that the moment began gives them, so that they are not made again.
    pub fn look(
        &mut self,
        account: &Account,
        moment: &Moment,
        begun: Option<&[Standing]>,
    ) -> Result<&[Note], AllocError> {
        self.found.clear();
        self.kept.shared.go_to(moment.tick);
        if let Some(lane) = account.lane(moment.lane) {
            let script = account.script();
            let scene = Scene {
                alloc: self.alloc,
                account,
                script,
                lane,
                moment,
                begun,
            };
            if !scene.halts() {
                self.kept.look(&scene, &mut self.found)?;
            }
            self.kept.settle(&scene, &mut self.found)?;
        }
        Ok(self.found.as_slice())
    }
}

impl Kept {
    /// Notes a move of any deed, and adds what GLib does otherwise in it.
    fn look(&mut self, scene: &Scene<'_>, found: &mut Vec<Note>) -> Result<(), AllocError> {
        match scene.moment.deed {
            Deed::Polled => polled(self, scene, found),
            Deed::Acted { body, place } => {
                let Some(action) = scene.script.actions(body).get(place) else {
                    return Ok(());
                };
                if let Action::Iterate(context) = action {
                    if self.shared.is_own(*context, scene.lane) {
                        return self.begin(scene, *context, found);
                    }
                }
                acted(self, scene, action, found)
            }
            Deed::Returned { .. } => returned(self, scene, found),
            Deed::Dispatched { context, source } => {
                self.take(scene);
                begun_call(
                    self,
                    scene,
                    Called {
                        context,
                        id: source,
                    },
                    found,
                )
            }
            Deed::PassedOver { context, source } => {
                self.take(scene);
                self.clear_flag(context, source)
            }
            Deed::IterationEnded { .. } => {
                if let Some(thread) = self.threads.get_mut(scene.moment.lane as usize) {
                    let _ = thread.iterations.pop();
                }
                Ok(())
            }
            Deed::Iterated { context, .. } => self.begin(scene, context, found),
            Deed::Received { .. } => {
                arrived(self, scene, found)?;
                handlers_called(self, scene, found)
            }
            Deed::LoopEnded { .. } | Deed::Rests | Deed::HandedOver { .. } => Ok(()),
        }
    }

    /// An iteration of a context begins.
    fn begin(
        &mut self,
        scene: &Scene<'_>,
        context: u32,
        found: &mut Vec<Note>,
    ) -> Result<(), AllocError> {
        if let Some(thread) = self.threads.get_mut(scene.moment.lane as usize) {
            thread.iterations.push(IterationKept { context, taken: 0 })?;
        }
        if let Some(kept) = self.contexts.get_mut(context as usize) {
            look_over(scene, context, Look::Iteration, kept, &self.shared, found)?;
        }
        Ok(())
    }

    /// The innermost iteration takes an id.
    fn take(&mut self, scene: &Scene<'_>) {
        if let Some(thread) = self.threads.get_mut(scene.moment.lane as usize) {
            if let Some(iteration) = thread.iterations.last_mut() {
                iteration.taken = iteration.taken.saturating_add(1);
            }
        }
    }

    /// A source is not ready any more, for GLib.
    fn clear_flag(&mut self, context: u32, id: u64) -> Result<(), AllocError> {
        if let Some(of) = self.contexts.get_mut(context as usize) {
            let mut kept = of.source(id);
            kept.flagged = false;
            of.keep(id, kept)?;
        }
        Ok(())
    }

    /// After a move: calls of replies that are over, and whose call is innermost.
    fn settle(&mut self, scene: &Scene<'_>, found: &mut Vec<Note>) -> Result<(), AllocError> {
        if let Some(thread) = self.threads.get_mut(scene.moment.lane as usize) {
            settle(thread, scene, found)?;
            thread.innermost = innermost(scene.lane);
        }
        Ok(())
    }
}

/// Whose call is innermost of all that is in progress, where it is a source's.
fn innermost(lane: &LaneState) -> Option<Called> {
    match lane.frames().last() {
        Some(Activity::Call(call)) => match call.origin {
            Origin::Source(caller) => Some(Called {
                context: caller.context,
                id: caller.id,
            }),
            _ => None,
        },
        _ => None,
    }
}
