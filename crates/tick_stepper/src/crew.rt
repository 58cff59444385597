//! The workers: which lanes are whose, and how many of them so many lanes need.
ghost use Rattle.std.specs.Prelude.{◌≡◌, ◌<◌, nat_lt, length};
ghost use Rattle.std.specs.List.{list_all};
ghost use Rattle.tick_stepper.specs.Crew.{worker_of, names_workers, refusal_of};

use crate::fault::StepFault;
use loop_script::Script;

/// The most workers.
const MOST: u32 = 64;

/// Which worker takes the turns of which lane. Lanes and workers go by their numbers, from 0.
#[derive(Drop)]
pub enum Sharing {
    /// Lane i is that of worker i modulo the number of workers.
    Round,
    /// The worker of each lane.
    Fixed(Vec<u32>),
    /// Each worker takes the next lane that waits, until none does: which worker takes which lane is not determined.
    Queue,
}

impl Sharing {
    /// Whether each lane has one of the workers.
    fn names_workers(&self, lanes: u32, workers: u32) -> bool
        ensures { result ≡ names_workers lanes workers self.now }
    {
        match self {
            Sharing::Round | Sharing::Queue => true,
            Sharing::Fixed(table) => {
                table.len() == lanes as usize && are_below(table.as_slice(), workers)
            }
        }
    }
}

/// Whether all numbers are below this one.
fn are_below(numbers: &[u32], most: u32) -> bool
    ensures { result ≡ list_all (λ n. nat_lt n most) numbers.now }
{
    numbers.iter().all(|n| *n < most)
}

/// Workers, and which lanes are whose.
#[derive(Drop)]
pub(crate) struct Crew {
    pub(crate) workers: u32,
    pub(crate) sharing: Sharing,
}

impl Crew {
    /// The worker of a lane, where lanes are dealt out.
    pub(crate) fn worker_of(&self, lane: u32) -> u32
        requires { 0 < self.now.workers }
        ensures { result ≡ worker_of self.now lane }
    {
        match &self.sharing {
            Sharing::Round => lane % self.workers,
            Sharing::Fixed(table) => table.get(lane as usize).copied().unwrap_or(0),
            Sharing::Queue => 0,
        }
    }

    /// Why these workers can't share the lanes of a script so.
    pub(crate) fn refusal(&self, script: &Script) -> Option<StepFault>
        ensures { result ≡ refusal_of script.now self.now.workers self.now.sharing }
    {
        if self.workers == 0 || self.workers > MOST {
            return Some(StepFault::Workers);
        }
        if !self.sharing.names_workers(script.lanes(), self.workers) {
            return Some(StepFault::Table);
        }
        None
    }
}

/// So many workers, or as many as there are lanes where these are fewer.
pub(crate) fn workers_for(workers: u32, lanes: usize) -> u32 {
    if lanes < workers as usize {
        lanes as u32
    } else {
        workers
    }
}
