//! Which place of the script with names a value of the script of numbers comes from, step by step down both.
use crate::field::{each, fields, pair};
use crate::piece::{Step, chosen};
use crate::sort::{Object, Sort};
use crate::table::{At, Part, parts};
use json::Value;
use std::alloc::{AllocError, Global};

/// A step into a script of numbers.
#[derive(Clone, Copy, Debug, PartialEq, Eq)]
pub enum Numbered {
    /// To what an object has under a key.
    Key(&'static str),
    /// To an item of a list, from 0.
    Item(usize),
}

/// A value of the form, by what should stand there.
#[derive(Clone, Copy)]
struct Here<'v, 'a> {
    sort: Sort,
    value: &'v Value<'a>,
}

/// The steps to the value of a script with names from which one of its script of numbers comes; as far as there is one.
pub fn origin<'a>(
    alloc: Global,
    script: &Value<'a>,
    steps: &[Numbered],
) -> Result<Vec<Step<'a>>, AllocError> {
    let mut place = Vec::new(alloc);
    let mut here = Here {
        sort: Sort::An(Object::Script),
        value: script,
    };
    for step in steps {
        let Some((step, next)) = enter(here, *step) else {
            break;
        };
        place.push(step)?;
        here = next;
    }
    Ok(place)
}

/// A step further, and what it leads to, where there is that.
fn enter<'v, 'a>(here: Here<'v, 'a>, step: Numbered) -> Option<(Step<'a>, Here<'v, 'a>)> {
    let value = here.value;
    match (here.sort, step) {
        (Sort::An(object), Numbered::Key(key)) => {
            for field in fields(object) {
                if field.key.text() == key {
                    return enter_at(value, field.at, field.sort);
                }
            }
            None
        }
        (Sort::OneOf(choice), Numbered::Item(n)) => {
            let word = chosen(choice, value)?;
            enter_part(value, parts(choice, word), n.saturating_sub(1))
        }
        (Sort::Pair, Numbered::Item(n)) => enter_part(value, pair(), n),
        (sort, Numbered::Item(n)) => enter_nth(value, each(sort), n),
        _ => None,
    }
}

/// To the n-th of some parts.
fn enter_part<'v, 'a>(
    value: &'v Value<'a>,
    parts: &[Part],
    n: usize,
) -> Option<(Step<'a>, Here<'v, 'a>)> {
    let part = parts.get(n)?;
    enter_at(value, part.at, part.sort)
}

/// To what stands at a part or a field of a value with names.
fn enter_at<'v, 'a>(value: &'v Value<'a>, at: At, sort: Sort) -> Option<(Step<'a>, Here<'v, 'a>)> {
    let value = at.find(value)?;
    Some((at.step(), Here { sort, value }))
}

/// To the n-th item of a list, or to the n-th member of an object.
fn enter_nth<'v, 'a>(
    value: &'v Value<'a>,
    sort: Sort,
    n: usize,
) -> Option<(Step<'a>, Here<'v, 'a>)> {
    match value {
        Value::Array(items) => {
            let value = items.as_slice().get(n)?;
            Some((Step::Item(n), Here { sort, value }))
        }
        Value::Object(members) => {
            let member = members.as_slice().get(n)?;
            let value = &member.1;
            Some((Step::Key(member.0), Here { sort, value }))
        }
        _ => None,
    }
}
