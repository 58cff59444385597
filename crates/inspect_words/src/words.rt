//! Sources in words: kind, descriptor, conditions, priority, and what an iteration does with one.
use crate::named_line::push_priority;
use crate::run::Words;
use crate::time::push_time_to_come;
use context_core::Standing;
use loop_script::{Kind, Script};
use run_names::{RunNames, Thing};
use source_rows::Row;
use std::alloc::AllocError;

/// The bits that a descriptor may show.
const IN: u8 = 1;

const PRI: u8 = 2;

const OUT: u8 = 4;

const ERR: u8 = 8;

const HUP: u8 = 16;

const NVAL: u8 = 32;

/// Adds the name of a bit, where it is one of some bits, and answers whether it or one before it is.
fn push_bit(
    out: &mut String,
    bits: u8,
    bit: u8,
    name: &str,
    any: bool,
) -> Result<bool, AllocError> {
    if bits & bit == 0 {
        return Ok(any);
    }
    if any {
        out.push_str(" and ")?;
    }
    out.push_str(name)?;
    Ok(true)
}

/// Adds the names of bits that a descriptor may show.
fn push_bits(out: &mut String, bits: u8) -> Result<(), AllocError> {
    let any = push_bit(out, bits, IN, "IN", false)?;
    let any = push_bit(out, bits, PRI, "PRI", any)?;
    let any = push_bit(out, bits, OUT, "OUT", any)?;
    let any = push_bit(out, bits, ERR, "ERR", any)?;
    let any = push_bit(out, bits, HUP, "HUP", any)?;
    let any = push_bit(out, bits, NVAL, "NVAL", any)?;
    if any {
        return Ok(());
    }
    out.push_str("nothing")
}

/// Adds what kind of source it is.
fn push_kind(out: &mut String, names: &RunNames, kind: Kind) -> Result<(), AllocError> {
    match kind {
        Kind::Idle => out.push_str("idle"),
        Kind::Timeout(ms) => write!(out, "timeout of {ms} ms"),
        Kind::ReadyTime(_) => out.push_str("ready time"),
        Kind::Fd(fd, _) => names.push(out, Thing::Descriptor(fd)),
        Kind::Cancel(cancellable) => names.push(out, Thing::Cancellable(cancellable)),
    }
}

/// Adds what a source of a context is: its kind and its priority, and of which it is a child.
pub fn push_source(
    out: &mut String,
    names: &RunNames,
    context: u32,
    row: &Row,
) -> Result<(), AllocError> {
    push_kind(out, names, row.kind)?;
    out.push_str(", priority ")?;
    push_priority(out, names, row.priority)?;
    match row.parent {
        Some(parent) => {
            out.push_str(", child of ")?;
            names.push_source(out, context, parent)
        }
        None => Ok(()),
    }
}

/// Adds a ready time that a source has beside what it waits for.
fn push_or_time(out: &mut String, script: &Script, until: Option<u64>) -> Result<(), AllocError> {
    match until {
        Some(us) => {
            out.push_str(", or for ")?;
            push_time_to_come(out, script, us)
        }
        None => Ok(()),
    }
}

/// Adds that another source goes first.
fn push_less_urgent(
    out: &mut String,
    names: &RunNames,
    context: u32,
    than: u64,
    priority: i32,
) -> Result<(), AllocError> {
    out.push_str("ready, but ")?;
    names.push_source(out, context, than)?;
    out.push_str(" of priority ")?;
    push_priority(out, names, priority)?;
    out.push_str(" goes first")
}

/// Adds which bits of a descriptor were asked for, and which it shows.
fn push_not_shown(
    out: &mut String,
    names: &RunNames,
    fd: u32,
    asked: u8,
    shown: u8,
) -> Result<(), AllocError> {
    out.push_str("waits for ")?;
    names.push(out, Thing::Descriptor(fd))?;
    out.push_str(": ")?;
    push_bits(out, asked)?;
    out.push_str(" asked, ")?;
    push_bits(out, shown)?;
    out.push_str(" shown")
}

/// Adds what an iteration does with a source of a context, and why.
pub fn push_standing(
    out: &mut String,
    words: Words<'_>,
    context: u32,
    id: u64,
    standing: Standing,
) -> Result<(), AllocError> {
    let names = words.names;
    match standing {
        Standing::Selected => out.push_str("to be dispatched"),
        Standing::LessUrgent { than, priority } => {
            push_less_urgent(out, names, context, than, priority)
        }
        Standing::Blocked { by } if by == id => {
            out.push_str("blocked: it is in a call and may not recurse")
        }
        Standing::Blocked { by } => {
            out.push_str("blocked: ")?;
            names.push_source(out, context, by)?;
            out.push_str(" above it is in a call and may not recurse")
        }
        Standing::Asleep { until: Some(us) } => {
            out.push_str("due at ")?;
            push_time_to_come(out, words.script, us)
        }
        Standing::Asleep { until: None } => {
            out.push_str("has no time set: never ready by itself")
        }
        Standing::NotShown {
            fd,
            shown,
            asked,
            until,
        } => {
            push_not_shown(out, names, fd, asked, shown)?;
            push_or_time(out, words.script, until)
        }
        Standing::NotCancelled { cancellable, until } => {
            out.push_str("waits for ")?;
            names.push(out, Thing::Cancellable(cancellable))?;
            push_or_time(out, words.script, until)
        }
    }
}
