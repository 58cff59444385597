//! Where the names of a script are declared, and which stands for the second time.
use json::Value;
use named::{Kind, Step};
use std::alloc::{AllocError, Global};

/// A name, with the steps to where it stands.
#[derive(Drop)]
pub(crate) struct Standing<'a> {
    pub name: &'a str,
    pub place: Vec<Step<'a>>,
}

/// The first name of a kind that is one of those before it.
pub(crate) fn second<'a>(
    alloc: Global,
    script: &Value<'a>,
    kind: Kind,
) -> Result<Option<Standing<'a>>, AllocError> {
    let standings = declared(alloc, script, kind)?;
    for (n, standing) in standings.as_slice().iter().enumerate() {
        for earlier in standings.as_slice().iter().take(n) {
            if earlier.name == standing.name {
                return Ok(Some(Standing {
                    name: standing.name,
                    place: Vec::from_slice(alloc, standing.place.as_slice())?,
                }));
            }
        }
    }
    Ok(None)
}

/// How many names are looked at: more than have a number.
const LOOKED_AT: usize = 1025;

/// The first names of a kind that are declared, with their places.
fn declared<'a>(
    alloc: Global,
    script: &Value<'a>,
    kind: Kind,
) -> Result<Vec<Standing<'a>>, AllocError> {
    let mut found = Vec::new(alloc);
    match kind {
        Kind::Context => push_contexts(alloc, script, &mut found)?,
        Kind::Cancellable => push_cancellables(alloc, script, &mut found)?,
        Kind::Thread => push_keys(alloc, script, "threads", &mut found)?,
        Kind::Loop => push_keys(alloc, script, "loops", &mut found)?,
        Kind::Procedure => push_keys(alloc, script, "procedures", &mut found)?,
        Kind::Descriptor => push_keys(alloc, script, "descriptors", &mut found)?,
        Kind::Slot | Kind::Text => {}
    }
    Ok(found)
}

/// Adds each name that an object of the script declares by its keys, with where it stands.
fn push_keys<'a>(
    alloc: Global,
    script: &Value<'a>,
    key: &'static str,
    found: &mut Vec<Standing<'a>>,
) -> Result<(), AllocError> {
    if let Some(Value::Object(members)) = script.get(key) {
        for member in members.as_slice().iter().take(LOOKED_AT) {
            found.push(Standing {
                name: member.0,
                place: Vec::from_slice(alloc, &[Step::Key(key), Step::Key(member.0)])?,
            })?;
        }
    }
    Ok(())
}

/// Adds each name of a cancellable, with where it stands.
fn push_cancellables<'a>(
    alloc: Global,
    script: &Value<'a>,
    found: &mut Vec<Standing<'a>>,
) -> Result<(), AllocError> {
    let mut place = Vec::new(alloc);
    place.push(Step::Key("cancellables"))?;
    push_texts(alloc, script.get("cancellables"), &place, found)
}

/// Adds each text of a list of names, with where it stands.
fn push_texts<'a>(
    alloc: Global,
    list: Option<&Value<'a>>,
    place: &Vec<Step<'a>>,
    found: &mut Vec<Standing<'a>>,
) -> Result<(), AllocError> {
    if let Some(Value::Array(items)) = list {
        for (n, item) in items.as_slice().iter().enumerate().take(LOOKED_AT) {
            if let Some(name) = item.as_str() {
                let mut place = Vec::from_slice(alloc, place.as_slice())?;
                place.push(Step::Item(n))?;
                found.push(Standing { name, place })?;
            }
        }
    }
    Ok(())
}

/// The contexts of each thread.
fn push_contexts<'a>(
    alloc: Global,
    script: &Value<'a>,
    found: &mut Vec<Standing<'a>>,
) -> Result<(), AllocError> {
    if let Some(Value::Object(threads)) = script.get("threads") {
        for thread in threads.as_slice().iter().take(LOOKED_AT) {
            push_contexts_of(alloc, thread.0, thread.1.get("contexts"), found)?;
        }
    }
    Ok(())
}

/// The contexts of a thread; one that names none has one of its own name.
fn push_contexts_of<'a>(
    alloc: Global,
    thread: &'a str,
    contexts: Option<&Value<'a>>,
    found: &mut Vec<Standing<'a>>,
) -> Result<(), AllocError> {
    let mut place = Vec::from_slice(alloc, &[Step::Key("threads"), Step::Key(thread)])?;
    if contexts.is_none() {
        found.push(Standing {
            name: thread,
            place,
        })?;
        return Ok(());
    }
    place.push(Step::Key("contexts"))?;
    push_texts(alloc, contexts, &place, found)
}
