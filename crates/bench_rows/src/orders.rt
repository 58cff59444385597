//! The orders in which rounds take rows.
ghost use Rattle.std.specs.Prelude.{◌<◌, ◌≡◌, ◌%◌, map, IfOk, IfErr};
ghost use Rattle.std.specs.List.Sorted.{IsPermutation};
ghost use Rattle.source_rows.specs.Rows.{in_order};
ghost use Rattle.bench_rows.specs.declared.refusal.Refusal.TheVariants.{Call};
ghost use Rattle.bench_rows.specs.declared.request.Order.TheVariants.{Loop};

use crate::refusal::Refusal;
use crate::request::Order;
use rand::seq::SliceRandom;
use rand_pcg::Pcg32;
use source_rows::Rows;
use std::alloc::{AllocError, Global};

/// From which numbers that look random the orders of both rounds come, of one stream of them.
const ODD_SEED: u64 = 1;

const EVEN_SEED: u64 = 2;

const STREAM: u64 = 0;

/// The ids of rows, once for the odd rounds and once for the even ones. In random order the two are not the same: a call
/// that puts a row behind the others would else find it in front of them in the next round.
#[derive(Drop)]
pub(crate) struct Orders {
    odd: Vec<u32>,
    even: Vec<u32>,
}

impl Orders {
    /// The orders of rows.
    pub(crate) fn of(alloc: Global, rows: &Rows, order: Order) -> Result<Orders, Refusal>
        ensures of_loop { order ≡ Loop → IfOk result (λ o. (o.odd.items ≡ map (λ r. r.id) (in_order rows.now.rows)) × (o.even.items ≡ map (λ r. r.id) (in_order rows.now.rows))) }
        ensures odd { IfOk result (λ o. IsPermutation (map (λ r. r.id) (in_order rows.now.rows)) o.odd.items) }
        ensures even { IfOk result (λ o. IsPermutation (map (λ r. r.id) (in_order rows.now.rows)) o.even.items) }
        ensures refused { IfErr result (λ refusal. refusal ≡ Call) }
    {
        let mut odd = ids_in_order(alloc, rows)?;
        let mut even = ids_in_order(alloc, rows)?;
        if order == Order::Random {
            shuffle(odd.as_mut_slice(), ODD_SEED);
            shuffle(even.as_mut_slice(), EVEN_SEED);
        }
        Ok(Orders { odd, even })
    }

    /// The ids as a round takes them.
    pub(crate) fn of_round(&self, round: u32) -> &[u32]
        ensures odd { round % 2 ≡ 1 → result.now ≡ self.now.odd.items }
        ensures even { round % 2 ≡ 0 → result.now ≡ self.now.even.items }
    {
        if round % 2 == 1 {
            self.odd.as_slice()
        } else {
            self.even.as_slice()
        }
    }
}

/// The ids in the order in which an iteration dispatches their rows. Rows that are new have ids as small as their number.
fn ids_in_order(alloc: Global, rows: &Rows) -> Result<Vec<u32>, Refusal>
    ensures ids { IfOk result (λ ids. ids.items ≡ map (λ r. r.id) (in_order rows.now.rows)) }
    ensures refused { IfErr result (λ refusal. refusal ≡ Call) }
{
    let mut ids = Vec::new(alloc);
    for id in rows.ordered() {
        let Ok(id) = u32::try_from(*id) else {
            return Err(Refusal::Call);
        };
        ids.push(id).map_err(AllocError::from)?;
    }
    Ok(ids)
}

/// Puts the ids into an order that looks random, the same for the same seed.
fn shuffle(ids: &mut [u32], seed: u64)
    ensures { IsPermutation ids.old ids.new }
{
    ids.shuffle(&mut Pcg32::new(seed, STREAM));
}
