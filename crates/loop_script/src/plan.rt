//! The types of a script as a whole, its lanes and procedures, and their reading from a value. Of bytes it stands in `script`.
ghost use Rattle.std.specs.Prelude.{◌≡◌, ◌≤◌, length, sum_by, IfOk, IfSome, OnOk};
ghost use Rattle.serde_json.specs.View.{view};
ghost use Rattle.loop_script.specs.Bounds.{most_items, most_lanes};
ghost use Rattle.loop_script.specs.Read.{after};
ghost use Rattle.loop_script.specs.Plan.{actions, few_contexts, keep_or, lanes, plan};
ghost use Rattle.loop_script.specs.Limits.{IsBounded};
ghost use Rattle.loop_script.specs.Script.{sound_plan};
ghost use Rattle.loop_script.specs.Seen.{seen};

use crate::action::Action;
use crate::bounds::{LONGEST_TICK, MOST_ITEMS, MOST_LANES, MOST_PROCS, MOST_TICKS};
use crate::faults::Faults;
use crate::form::{Form, rows_or_none, rows_within};
use crate::items::Items;
use crate::level::Level;
use crate::number::{index_number, optional_count, whole_number};
use crate::object::only_keys;
use crate::part::field_of;
use crate::references::context_count;
use crate::version::gives_too_early;
use serde_json::Value;
use std::alloc::{AllocError, Global};

/// A lane: a thread of the script.
#[derive(Drop)]
pub struct LaneSpec {
    /// How many contexts it holds.
    pub contexts: u32,
    /// What it does first.
    pub start: Items<Action>,
}

/// A procedure, which sources call.
#[derive(Drop)]
pub struct Proc {
    pub actions: Items<Action>,
    /// How many dispatches a source outlives; none is all of them.
    pub keep: Option<u32>,
}

/// What a script says.
#[derive(Drop)]
pub struct Plan {
    /// Of the rules: 1 or 2.
    pub version: u32,
    /// How many ticks it runs.
    pub ticks: u32,
    /// How long a tick is, in microseconds.
    pub tick_us: u64,
    pub lanes: Items<LaneSpec>,
    /// How many cancellables there are.
    pub cancellables: u32,
    /// What each descriptor shows.
    pub fds: Items<Items<Level>>,
    /// The context of each loop.
    pub loops: Items<u32>,
    pub procs: Items<Proc>,
}

impl Form for LaneSpec {
    ghost use Rattle.loop_script.specs.Plan.{lane};

    ghost form = { lane };

    /// Reads a lane, an object with the keys `contexts` and `start`, from its JSON value.
    #[tactic(auto, unfolding(crate::specs::Plan::lane))]
    fn read(
        alloc: Global,
        value: Option<&Value>,
        faults: &mut Faults,
    ) -> Result<LaneSpec, AllocError> {
        only_keys(value, &["contexts", "start"], faults);
        let contexts = whole_number(field_of(value, "contexts"), 1, MOST_ITEMS as u64, faults);
        let start = read_actions(alloc, field_of(value, "start"), faults)?;
        Ok(LaneSpec {
            contexts: contexts as u32,
            start,
        })
    }
}

impl Form for Proc {
    ghost use Rattle.loop_script.specs.Plan.{procedure};

    ghost form = { procedure };

    /// Reads a procedure, an object with the keys `do` and `keep`, from its JSON value.
    #[tactic(auto, unfolding(crate::specs::Plan::procedure))]
    fn read(alloc: Global, value: Option<&Value>, faults: &mut Faults) -> Result<Proc, AllocError> {
        only_keys(value, &["do", "keep"], faults);
        let actions = read_actions(alloc, field_of(value, "do"), faults)?;
        let keep = read_keep(field_of(value, "keep"), faults);
        Ok(Proc { actions, keep })
    }
}

/// Reads the key `keep` of a procedure, which is 0 where it is absent; null is read as none, with which a source always stays.
#[tactic(auto, unfolding(crate::specs::Plan::keep_or))]
fn read_keep(value: Option<&Value>, faults: &mut Faults) -> Option<u32>
    ensures value { result ≡ (keep_or (seen value.entry)).value }
    ensures faults { faults.new ≡ after faults.old (keep_or (seen value.entry)) }
{
    match value {
        None => Some(0),
        Some(given) => if given.is_null() {
            None
        } else {
            Some(whole_number(value, 0, 4_294_967_295, faults) as u32)
        },
    }
}

impl Form for u32 {
    ghost use Rattle.loop_script.specs.Number.{index};

    ghost form = { index };

    /// Reads the context of a loop, an item of the script's list `loops`, from its JSON value.
    fn read(_alloc: Global, value: Option<&Value>, faults: &mut Faults) -> Result<u32, AllocError> {
        Ok(index_number(value, faults))
    }
}

/// Reads a lane's `start` or a procedure's `do`, a list of at most 256 actions, from its JSON value.
#[tactic(auto, unfolding(crate::specs::Plan::actions))]
fn read_actions(
    alloc: Global,
    value: Option<&Value>,
    faults: &mut Faults,
) -> Result<Items<Action>, AllocError>
    ensures value { IfOk result (λ xs. xs ≡ (actions (seen value.entry)).value) }
    ensures faults { OnOk result (faults.new ≡ after faults.old (actions (seen value.entry))) }
{
    rows_within(alloc, value, 0, MOST_ITEMS, faults)
}

/// Reads the script's key `lanes`: 1 to 64 lanes, with at most 256 contexts together.
#[tactic(auto, unfolding(crate::specs::Plan::lanes))]
fn read_lanes(
    alloc: Global,
    value: Option<&Value>,
    faults: &mut Faults,
) -> Result<Items<LaneSpec>, AllocError>
    ensures value { IfOk result (λ xs. xs ≡ (lanes (seen value.entry)).value) }
    ensures faults { OnOk result (faults.new ≡ after faults.old (lanes (seen value.entry))) }
    ensures few { IfOk result (λ xs. length xs ≤ most_lanes) }
    ensures contexts { IfOk result (λ xs. sum_by (λ l. l.contexts) xs ≤ most_items) }
{
    let lanes = rows_within(alloc, value, 1, MOST_LANES, faults)?;
    Ok(with_few_contexts(alloc, lanes, faults))
}

/// The lanes, where they have few enough contexts together.
fn with_few_contexts(alloc: Global, lanes: Items<LaneSpec>, faults: &mut Faults) -> Items<LaneSpec>
    requires { length lanes ≤ most_lanes }
    ensures value { result ≡ (few_contexts lanes).value }
    ensures faults { faults.new ≡ after faults.old (few_contexts lanes) }
    ensures few { length result ≤ most_lanes }
    ensures contexts { sum_by (λ l. l.contexts) result ≤ most_items }
{
    if context_count(lanes.as_slice()) <= MOST_ITEMS as u64 {
        lanes
    } else {
        faults.limit = true;
        Items::from_vec(Vec::new(alloc))
    }
}

impl Plan {
    /// What a value says, where its shape and its limits are right, and else none. Whether its numbers name something of it,
    /// and whether it keeps the rules, is not looked at.
    pub fn of_value(alloc: Global, value: &Value) -> Result<Option<Plan>, AllocError>
        ensures plan { IfOk result (λ found. found ≡ sound_plan (view value.now)) }
        ensures bounded { IfOk result (λ found. IfSome found IsBounded) }
    {
        let mut faults = Faults {
            shape: false,
            limit: false,
        };
        let plan = Plan::read(alloc, Some(value), &mut faults)?;
        Ok(if gives_too_early(value, &plan, faults) || faults.shape || faults.limit {
            None
        } else {
            Some(plan)
        })
    }

    /// Reads a whole script from its JSON object with `version`, `ticks`, `lanes` and so on, and marks faults of shape and limit.
    #[tactic(auto, unfolding(crate::specs::Plan::plan))]
    pub(crate) fn read(
        alloc: Global,
        value: Option<&Value>,
        faults: &mut Faults,
    ) -> Result<Plan, AllocError>
        ensures value { IfOk result (λ p. p ≡ (plan (seen value.entry)).value) }
        ensures faults { OnOk result (faults.new ≡ after faults.old (plan (seen value.entry))) }
        ensures bounded { IfOk result IsBounded }
    {
        only_keys(
            value,
            &[
                "version",
                "ticks",
                "tick_us",
                "lanes",
                "cancellables",
                "fds",
                "loops",
                "procs",
            ],
            faults,
        );
        let version = whole_number(field_of(value, "version"), 1, 2, faults);
        let ticks = whole_number(field_of(value, "ticks"), 1, MOST_TICKS as u64, faults);
        let tick_us = whole_number(field_of(value, "tick_us"), 1, LONGEST_TICK, faults);
        let lanes = read_lanes(alloc, field_of(value, "lanes"), faults)?;
        let cancellables = optional_count(
            field_of(value, "cancellables"),
            MOST_ITEMS as u64,
            faults,
        );
        let fds = rows_or_none(alloc, field_of(value, "fds"), MOST_ITEMS, faults)?;
        let loops = rows_or_none(alloc, field_of(value, "loops"), MOST_ITEMS, faults)?;
        let procs = rows_or_none(alloc, field_of(value, "procs"), MOST_PROCS, faults)?;
        Ok(Plan {
            version: version as u32,
            ticks: ticks as u32,
            tick_us,
            lanes,
            cancellables: cancellables as u32,
            fds,
            loops,
            procs,
        })
    }
}
