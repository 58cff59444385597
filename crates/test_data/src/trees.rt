//! For tests: the task that an action starts, and scripts of one task whose tree is from a seed.
ghost use Rattle.std.specs.Prelude.{◌<◌};

use loop_script::{Action, TaskSpec};
use std::alloc::{AllocError, Global};
use std::fmt::Write;

/// The task that an action starts; none where there is no such action, or it does something else.
pub(crate) fn task_at(actions: &[Action], place: usize) -> Option<&TaskSpec> {
    match actions.get(place) {
        Some(Action::Task(spec)) => Some(spec),
        _ => None,
    }
}

/// Numbers from a seed.
#[derive(Drop)]
pub(crate) struct Seed {
    pub state: u64,
}

impl Seed {
    pub(crate) fn below(&mut self, n: u64) -> u64
        requires { 0 < n }
        ensures { result < n }
    {
        self.state = self
            .state
            .wrapping_mul(6_364_136_223_846_793_005)
            .wrapping_add(1_442_695_040_888_963_407);
        (self.state >> 33) % n
    }
}

/// A script whose one lane starts a task, with a tree of a depth, whose top has one of the four forms of that depth.
pub(crate) fn script_of(
    alloc: Global,
    seed: &mut Seed,
    form: u64,
    depth: u64,
) -> Result<String, AllocError> {
    let mut text = String::new(alloc);
    text.push_str(
        r#"{"version":1,"ticks":1,"tick_us":1000,"cancellables":1,"procs":[{"do":[]}],"lanes":[{"contexts":1,"start":[["task",{"tree":"#,
    )?;
    add_tree(&mut text, seed, form, depth)?;
    text.push_str(r#","call":0}]]}]}"#)?;
    Ok(text)
}

/// Adds a tree that has no parts.
fn add_leaf(text: &mut String, seed: &mut Seed, form: u64) -> Result<(), AllocError> {
    match form {
        0 => write!(text, r#"["value",{}]"#, seed.below(100))?,
        1 => text.push_str(r#"["fail"]"#)?,
        2 => text.push_str(r#"["check"]"#)?,
        _ => write!(text, r#"["sleep",{}]"#, seed.below(4000))?,
    }
    Ok(())
}

/// Adds a tree. One part of it has the whole depth below it, the other at most 3.
fn add_tree(text: &mut String, seed: &mut Seed, form: u64, depth: u64) -> Result<(), AllocError> {
    if depth <= 1 {
        return add_leaf(text, seed, form);
    }
    let deep = depth - 1;
    if form == 3 {
        write!(text, r#"["within",{},"#, seed.below(9000))?;
        let part = any_form(seed, deep);
        add_tree(text, seed, part, deep)?;
    } else {
        text.push_str(word_of(form))?;
        let small = 1 + seed.below(3);
        let begins_deep = seed.below(2) == 0;
        let one = (if begins_deep { deep } else { small }).min(deep);
        let part = any_form(seed, one);
        add_tree(text, seed, part, one)?;
        text.push_str(",")?;
        let other = (if begins_deep { small } else { deep }).min(deep);
        let part = any_form(seed, other);
        add_tree(text, seed, part, other)?;
    }
    text.push_str("]")
}

/// How a tree of two parts begins.
fn word_of(form: u64) -> &'static str {
    match form {
        0 => r#"["seq","#,
        1 => r#"["both","#,
        _ => r#"["first","#,
    }
}

/// The form of a part: sleeps often, faults seldom.
fn any_form(seed: &mut Seed, depth: u64) -> u64 {
    if depth > 1 {
        seed.below(4)
    } else {
        match seed.below(8) {
            0 => 0,
            1 => 1,
            2 => 2,
            _ => 3,
        }
    }
}
