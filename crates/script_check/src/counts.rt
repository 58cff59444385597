//! How many contexts, loops, descriptors and so on a script has.
ghost use Rattle.std.specs.Prelude.{◌≡◌, ◌≤◌, length};
ghost use Rattle.loop_script.specs.Tables.{index};
ghost use Rattle.script_check.specs.PlanFaults.{counts_of, count};
ghost use Rattle.script_check.specs.Views.{form_of};

use crate::wanted::Wanted;
use loop_script::{Plan, context_count};

/// What goes by its number in the script.
#[derive(Clone, Copy)]
pub(crate) enum Sort {
    Lane,
    Context,
    Loop,
    Cancellable,
    Proc,
    Descriptor,
}

/// How many of each a script has.
#[derive(Clone, Copy)]
pub(crate) struct Counts {
    pub lanes: u64,
    pub contexts: u64,
    pub loops: u64,
    pub cancellables: u64,
    pub procs: u64,
    pub fds: u64,
}

impl Counts {
    /// Counts what a script has of each sort that goes by a number, to find the numbers that name nothing.
    pub(crate) fn of(plan: &Plan) -> Counts
        requires { length plan.now.lanes ≤ 64 }
        ensures { result ≡ counts_of plan.now }
    {
        Counts {
            lanes: plan.lanes.as_slice().len() as u64,
            contexts: context_count(plan.lanes.as_slice()),
            loops: plan.loops.as_slice().len() as u64,
            cancellables: u64::from(plan.cancellables),
            procs: plan.procs.as_slice().len() as u64,
            fds: plan.fds.as_slice().len() as u64,
        }
    }

    /// How many of one sort, as lanes or procedures, the script has, below which each number of that sort has to be.
    pub(crate) fn count(&self, sort: Sort) -> u64
        ensures { result ≡ count self.now sort }
    {
        match sort {
            Sort::Lane => self.lanes,
            Sort::Context => self.contexts,
            Sort::Loop => self.loops,
            Sort::Cancellable => self.cancellables,
            Sort::Proc => self.procs,
            Sort::Descriptor => self.fds,
        }
    }
}

impl Sort {
    /// What should stand where such a number stands.
    pub(crate) fn wanted(self) -> Wanted
        ensures { form_of result ≡ index }
    {
        match self {
            Sort::Lane => Wanted::LaneNumber,
            Sort::Context => Wanted::Context,
            Sort::Loop => Wanted::Loop,
            Sort::Cancellable => Wanted::Cancellable,
            Sort::Proc => Wanted::Proc,
            Sort::Descriptor => Wanted::Descriptor,
        }
    }
}
