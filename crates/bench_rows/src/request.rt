//! What is to be measured, as the arguments say it.
ghost use Rattle.std.specs.Prelude.{◌≡◌, ◌≤◌, ◌*◌, IfSome};

/// The call that is measured.
#[derive(Clone, Copy)]
pub(crate) enum Work {
    Attach,
    Destroy,
    SetPriority,
    SetReady,
    NextReady,
}

/// The order in which a round takes the rows.
#[derive(Clone, Copy, PartialEq, Eq)]
pub(crate) enum Order {
    /// As an iteration dispatches them.
    Loop,
    Random,
}

/// What is to be measured: a call, on each of so many rows, so many times.
#[derive(Clone, Copy)]
pub(crate) struct Request {
    pub(crate) work: Work,
    pub(crate) order: Order,
    pub(crate) count: u32,
    pub(crate) rounds: u32,
    ghost not_empty: { 1 ≤ count },
    ghost count_bound: { count ≤ 1000000 },
    ghost rounds_bound: { rounds ≤ 1000000 },
}

impl Request {
    /// The request of the words `WORK ORDER COUNT ROUNDS`; None where they are none.
    pub(crate) fn read(words: &[String]) -> Option<Request> {
        let [work, order, count, rounds] = words else {
            return None;
        };
        Some(Request {
            work: read_work(work.as_str())?,
            order: read_order(order.as_str())?,
            count: read_number(count.as_str(), 1)?,
            rounds: read_number(rounds.as_str(), 0)?,
        })
    }

    /// How many measured calls it asks for.
    pub(crate) fn operations(&self) -> u64
        ensures { result ≡ self.now.count * self.now.rounds }
    {
        u64::from(self.count) * u64::from(self.rounds)
    }
}

fn read_work(word: &str) -> Option<Work> {
    match word {
        "attach" => Some(Work::Attach),
        "destroy" => Some(Work::Destroy),
        "set_priority" => Some(Work::SetPriority),
        "set_ready" => Some(Work::SetReady),
        "next_ready" => Some(Work::NextReady),
        _ => None,
    }
}

fn read_order(word: &str) -> Option<Order> {
    match word {
        "loop" => Some(Order::Loop),
        "random" => Some(Order::Random),
        _ => None,
    }
}

/// A number from `least` to a million.
fn read_number(word: &str, least: u32) -> Option<u32>
    ensures { IfSome result (λ n. (least ≤ n) × (n ≤ 1000000)) }
{
    match word.parse::<u32>() {
        Ok(number) if least <= number && number <= 1_000_000 => Some(number),
        _ => None,
    }
}
