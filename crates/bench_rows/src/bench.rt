//! The rounds that are measured: each makes its rows and takes one of the calls for each.
ghost use Rattle.std.specs.Prelude.{◌+◌, ◌≡◌, ◌≤◌, ◌<◌};
ghost use Rattle.loop_script.specs.Bounds.{count_end};

use crate::orders::Orders;
use crate::refusal::Refusal;
use crate::request::{Request, Work};
use loop_script::{Kind, SourceSpec};
use source_rows::{Levels, Rows};
use std::alloc::Global;

/// Rows, and how many edits are left that take an id or an order number. There are more than a request can ask for.
#[derive(Drop)]
struct Bench {
    rows: Rows,
    left: u64,
    ghost ids: { rows.next_id + left ≤ count_end },
    ghost orders: { rows.next_order + left ≤ count_end },
}

/// How many edits new rows have left.
const EDITS: u64 = 1_000_000_000_000_000;

/// Does what a request asks for, and answers a checksum of what the measured calls answered.
pub(crate) fn run(alloc: Global, request: Request) -> Result<u64, Refusal> {
    let mut bench = Bench::new(alloc);
    bench.attach_all(request)?;
    let orders = Orders::of(alloc, &bench.rows, request.order)?;
    let mut checksum = 0_u64;
    for round in 1..=request.rounds {
        let answers = bench.round(alloc, request, orders.of_round(round), round)?;
        checksum = checksum.wrapping_add(answers);
    }
    Ok(checksum)
}

impl Bench {
    /// No rows yet.
    fn new(alloc: Global) -> Bench {
        Bench {
            rows: Rows::new(alloc, Levels::Two),
            left: EDITS,
        }
    }

    /// One round: the measured call on each row, and what they answered, in sum.
    fn round(
        &mut self,
        alloc: Global,
        request: Request,
        ids: &[u32],
        round: u32,
    ) -> Result<u64, Refusal>
        requires { round ≤ 1000000 }
    {
        match request.work {
            Work::Attach => {
                *self = Bench::new(alloc);
                self.attach_all(request)
            }
            Work::Destroy => {
                let destroyed = self.destroy_all(ids)?;
                *self = Bench::new(alloc);
                self.attach_all(request)?;
                Ok(destroyed)
            }
            Work::SetPriority => self.set_priorities(ids, round),
            Work::SetReady => self.set_ready_times(ids, round),
            Work::NextReady => Ok(self.next_ready_times(ids)),
        }
    }

    /// Attaches the rows of a request, and answers the sum of their ids.
    fn attach_all(&mut self, request: Request) -> Result<u64, Refusal> {
        let mut sum = 0_u64;
        for number in 1..=request.count {
            let id = self.attach(source(request.work, number))?;
            sum = sum.wrapping_add(id);
        }
        Ok(sum)
    }

    fn attach(&mut self, spec: SourceSpec) -> Result<u64, Refusal> {
        if self.left == 0 {
            return Err(Refusal::Call);
        }
        self.left -= 1;
        Ok(self.rows.attach(spec, 0)?)
    }

    /// Destroys each row, and answers how many there were.
    fn destroy_all(&mut self, ids: &[u32]) -> Result<u64, Refusal> {
        let mut sum = 0_u64;
        for id in ids {
            if !self.rows.destroy(u64::from(*id)) {
                return Err(Refusal::Call);
            }
            sum = sum.wrapping_add(1);
        }
        Ok(sum)
    }

    /// Gives each row the priority below the one that it has, so that rows which were in order stay so. Answers how many
    /// there were.
    fn set_priorities(&mut self, ids: &[u32], round: u32) -> Result<u64, Refusal>
        requires { round ≤ 1000000 }
    {
        let mut sum = 0_u64;
        for id in ids {
            self.set_priority(u64::from(*id), (*id % 4 + round) as i32)?;
            sum = sum.wrapping_add(1);
        }
        Ok(sum)
    }

    fn set_priority(&mut self, id: u64, priority: i32) -> Result<(), Refusal> {
        if self.left == 0 {
            return Err(Refusal::Call);
        }
        self.left -= 1;
        Ok(self.rows.set_priority(id, priority)?)
    }

    /// Makes each row ready later than any was in the round before. Answers how many there were.
    fn set_ready_times(&mut self, ids: &[u32], round: u32) -> Result<u64, Refusal> {
        let mut sum = 0_u64;
        for id in ids {
            let ready = i64::from(round) * 1_000_000_000 + i64::from(*id) * 1_000;
            if !self.rows.set_ready(u64::from(*id), ready) {
                return Err(Refusal::Call);
            }
            sum = sum.wrapping_add(1);
        }
        Ok(sum)
    }

    /// Asks, once for each row, for the least ready time, before any has come, and answers the sum of those times.
    fn next_ready_times(&self, ids: &[u32]) -> u64 {
        let mut sum = 0_u64;
        for _ in ids {
            if let Some(ready) = self.rows.next_ready(0) {
                sum = sum.wrapping_add(ready.unsigned_abs());
            }
        }
        sum
    }
}

/// The source of a number, one of four priorities; where ready times are measured, a timeout of so many milliseconds.
fn source(work: Work, number: u32) -> SourceSpec {
    SourceSpec {
        kind: match work {
            Work::SetReady | Work::NextReady => Kind::Timeout(number),
            _ => Kind::Idle,
        },
        priority: (number % 4) as i32,
        recurse: false,
        call: None,
    }
}
