//! The levels of one descriptor: which holds at a tick, and when the next begins. `script` has the calls that ask for them.
ghost use Rattle.std.specs.Prelude.{◌≡◌, true};
ghost use Rattle.loop_script.specs.Level.{rises, come, to_come, bits_at, change_after};

use crate::bounds::MOST_TICKS;
use crate::faults::Faults;
use crate::form::{Form, rows_within};
use crate::items::Items;
use crate::number::{bits_number, whole_number};
use crate::part::{check_arity, part_of};
use serde_json::Value;
use std::alloc::{AllocError, Global};

/// What a descriptor shows from a tick on.
///
/// The bits are added up: in 1, pri 2, out 4, err 8, hup 16, nval 32.
#[derive(Clone, Copy, Debug, PartialEq, Eq)]
pub struct Level {
    pub tick: u32,
    pub bits: u8,
}

impl Form for Level {
    ghost use Rattle.loop_script.specs.Level.{level};

    ghost form = { level };

    /// Reads a pair `[TICK, BITS]` of a descriptor from its JSON value.
    #[tactic(auto, unfolding(crate::specs::Level::level))]
    fn read(
        _alloc: Global,
        value: Option<&Value>,
        faults: &mut Faults,
    ) -> Result<Level, AllocError> {
        check_arity(value, 2, faults);
        let tick = whole_number(part_of(value, 0), 0, 4095, faults);
        let bits = bits_number(part_of(value, 1), faults);
        Ok(Level {
            tick: tick as u32,
            bits,
        })
    }
}

impl Form for Items<Level> {
    ghost use Rattle.loop_script.specs.Level.{levels};

    ghost form = { levels };

    /// Reads the levels of one descriptor, a list of at most 4096 pairs; whether their ticks rise is not looked at.
    #[tactic(auto, unfolding(crate::specs::Level::levels))]
    fn read(
        alloc: Global,
        value: Option<&Value>,
        faults: &mut Faults,
    ) -> Result<Items<Level>, AllocError> {
        rows_within(alloc, value, 0, MOST_TICKS, faults)
    }
}

/// Whether each tick is above the one before it.
pub(crate) fn rises(levels: &[Level]) -> bool
    ensures { result ≡ rises levels.now }
{
    levels.is_sorted_by(|a, b| a.tick < b.tick)
}

/// The levels that have come by a tick, and those that are to come.
fn parted(levels: &[Level], tick: u32) -> (&[Level], &[Level])
    requires { rises levels.now ≡ true }
    ensures come { result.0.now ≡ come tick levels.now }
    ensures to_come { result.1.now ≡ to_come tick levels.now }
{
    levels.split_at(levels.partition_point(|level| level.tick <= tick))
}

/// The bits at a tick; none before the first level.
pub(crate) fn bits_at(levels: &[Level], tick: u32) -> u8
    requires { rises levels.now ≡ true }
    ensures { result ≡ bits_at tick levels.now }
{
    parted(levels, tick).0.last().map_or(0, |level| level.bits)
}

/// The first tick after this one at which there is a level.
#[tactic(auto, using(crate::proofs::Rising::first_to_come))]
pub(crate) fn change_after(levels: &[Level], tick: u32) -> Option<u32>
    requires { rises levels.now ≡ true }
    ensures { result ≡ change_after tick levels.now }
{
    parted(levels, tick).1.first().map(|level| level.tick)
}
