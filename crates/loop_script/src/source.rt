//! The type of a source in a script, its kinds, and their reading.
ghost use Rattle.std.specs.Prelude.{◌≡◌};
ghost use Rattle.loop_script.specs.Read.{after};
ghost use Rattle.loop_script.specs.Source.{kind, idle, timeout, ready, fd, cancel, source_spec, child_spec, usual_priority, priority_or};
ghost use Rattle.loop_script.specs.Seen.{seen};

use crate::faults::Faults;
use crate::number::{
    bits_number, index_number, optional_flag, optional_index, priority_number, ready_time,
    whole_number,
};
use crate::object::only_keys;
use crate::part::{check_arity, field_of, part_of, word_of};
use serde_json::Value;

/// What makes a source ready.
#[derive(Clone, Copy, Debug, PartialEq, Eq)]
pub enum Kind {
    /// Always.
    Idle,
    /// Its interval, in milliseconds.
    Timeout(u32),
    /// A ready time, in microseconds; -1 is never.
    ReadyTime(i64),
    /// A descriptor, and the bits that are asked of it.
    Fd(u32, u8),
    /// A cancellable.
    Cancel(u32),
}

/// A source as a script describes it.
#[derive(Clone, Copy, Debug, PartialEq, Eq)]
pub struct SourceSpec {
    pub kind: Kind,
    /// A smaller number is more urgent. A child has its parent's, and here 0.
    pub priority: i32,
    /// Whether it may be dispatched again while it is in a call.
    pub recurse: bool,
    /// The procedure that it calls; without one its call does nothing.
    pub call: Option<u32>,
}

/// Reads the source of an `attach`, an object with the keys `kind`, `priority`, `recurse` and `call`, from its JSON value.
#[tactic(auto, unfolding(crate::specs::Source::source_spec))]
pub(crate) fn read_source(value: Option<&Value>, faults: &mut Faults) -> SourceSpec
    ensures value { result ≡ (source_spec (seen value.entry)).value }
    ensures faults { faults.new ≡ after faults.old (source_spec (seen value.entry)) }
{
    only_keys(value, &["kind", "priority", "recurse", "call"], faults);
    let kind = read_kind(field_of(value, "kind"), faults);
    let priority = read_source_priority(field_of(value, "priority"), kind, faults);
    let recurse = optional_flag(field_of(value, "recurse"), false, faults);
    let call = optional_index(field_of(value, "call"), faults);
    SourceSpec {
        kind,
        priority,
        recurse,
        call,
    }
}

/// A child, whose priority is its parent's: 0 stands in its place.
#[tactic(auto, unfolding(crate::specs::Source::child_spec))]
pub(crate) fn read_child(value: Option<&Value>, faults: &mut Faults) -> SourceSpec
    ensures value { result ≡ (child_spec (seen value.entry)).value }
    ensures faults { faults.new ≡ after faults.old (child_spec (seen value.entry)) }
{
    only_keys(value, &["kind", "recurse", "call"], faults);
    let kind = read_kind(field_of(value, "kind"), faults);
    let recurse = optional_flag(field_of(value, "recurse"), false, faults);
    let call = optional_index(field_of(value, "call"), faults);
    SourceSpec {
        kind,
        priority: 0,
        recurse,
        call,
    }
}

/// Reads the key `priority` of a source; where it is absent it goes by the kind.
#[tactic(auto, unfolding(crate::specs::Source::priority_or))]
fn read_source_priority(value: Option<&Value>, kind: Kind, faults: &mut Faults) -> i32
    ensures value { result ≡ (priority_or kind (seen value.entry)).value }
    ensures faults { faults.new ≡ after faults.old (priority_or kind (seen value.entry)) }
{
    match value {
        None => usual_priority(kind),
        Some(_) => priority_number(value, faults),
    }
}

/// The priority of a source that gives none.
fn usual_priority(kind: Kind) -> i32
    ensures { result ≡ usual_priority kind }
{
    match kind {
        Kind::Idle => 200,
        _ => 0,
    }
}

/// Reads the kind of a source or a child from its JSON value by the word at its front; another word is a fault of shape.
#[tactic(auto, unfolding(crate::specs::Source::kind))]
fn read_kind(value: Option<&Value>, faults: &mut Faults) -> Kind
    ensures value { result ≡ (kind (seen value.entry)).value }
    ensures faults { faults.new ≡ after faults.old (kind (seen value.entry)) }
{
    match word_of(value) {
        "idle" => read_idle(value, faults),
        "timeout" => read_timeout(value, faults),
        "ready" => read_ready(value, faults),
        "fd" => read_fd(value, faults),
        "cancel" => read_cancel(value, faults),
        _ => {
            faults.shape = true;
            Kind::Idle
        }
    }
}

/// Reads the kind `["idle"]` of a source from its JSON value.
#[tactic(auto, unfolding(crate::specs::Source::idle))]
fn read_idle(value: Option<&Value>, faults: &mut Faults) -> Kind
    ensures value { result ≡ (idle (seen value.entry)).value }
    ensures faults { faults.new ≡ after faults.old (idle (seen value.entry)) }
{
    check_arity(value, 1, faults);
    Kind::Idle
}

/// Reads the kind `["timeout", MS]` of a source from its JSON value.
#[tactic(auto, unfolding(crate::specs::Source::timeout))]
fn read_timeout(value: Option<&Value>, faults: &mut Faults) -> Kind
    ensures value { result ≡ (timeout (seen value.entry)).value }
    ensures faults { faults.new ≡ after faults.old (timeout (seen value.entry)) }
{
    check_arity(value, 2, faults);
    Kind::Timeout(whole_number(part_of(value, 1), 0, 4_294_967_295, faults) as u32)
}

/// Reads the kind `["ready", US]` of a source from its JSON value.
#[tactic(auto, unfolding(crate::specs::Source::ready))]
fn read_ready(value: Option<&Value>, faults: &mut Faults) -> Kind
    ensures value { result ≡ (ready (seen value.entry)).value }
    ensures faults { faults.new ≡ after faults.old (ready (seen value.entry)) }
{
    check_arity(value, 2, faults);
    Kind::ReadyTime(ready_time(part_of(value, 1), faults))
}

/// Reads the kind `["fd", DESCRIPTOR, BITS]` of a source from its JSON value.
#[tactic(auto, unfolding(crate::specs::Source::fd))]
fn read_fd(value: Option<&Value>, faults: &mut Faults) -> Kind
    ensures value { result ≡ (fd (seen value.entry)).value }
    ensures faults { faults.new ≡ after faults.old (fd (seen value.entry)) }
{
    check_arity(value, 3, faults);
    let descriptor = index_number(part_of(value, 1), faults);
    let bits = bits_number(part_of(value, 2), faults);
    Kind::Fd(descriptor, bits)
}

/// Reads the kind `["cancel", CANCELLABLE]` of a source from its JSON value.
#[tactic(auto, unfolding(crate::specs::Source::cancel))]
fn read_cancel(value: Option<&Value>, faults: &mut Faults) -> Kind
    ensures value { result ≡ (cancel (seen value.entry)).value }
    ensures faults { faults.new ≡ after faults.old (cancel (seen value.entry)) }
{
    check_arity(value, 2, faults);
    Kind::Cancel(index_number(part_of(value, 1), faults))
}
