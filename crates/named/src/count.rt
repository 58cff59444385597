//! How many names a script gives to things of a kind.
ghost use Rattle.std.specs.Prelude.{◌≡◌, ◌==◌, ℕ, List, length};
ghost use Rattle.json.specs.Value.{items_view, members_view};
ghost use Rattle.named.specs.Names.{items_in, members_in, texts_of, keys_of, contexts_or, contexts_of};
ghost use Rattle.named.specs.Views.{seen};

use crate::word::Word;
use json::Value;

/// How many names are declared as the keys of an object, as threads and loops are.
pub(crate) fn keys_count(value: Option<&Value<'_>>) -> usize
    ensures { result ≡ length (keys_of (members_in (seen value.entry))) }
{
    match value {
        Some(Value::Object(members)) => count_members(members.as_slice()),
        _ => 0,
    }
}

/// How many keys these members have.
#[tactic(auto, using(crate::proofs::Adding::keys_length))]
fn count_members(members: &[(&str, Value<'_>)]) -> usize
    ensures { result ≡ length (keys_of (members_view members.now)) }
{
    members.len()
}

/// How many names are declared as the texts of a list, as cancellables are.
pub(crate) fn texts_count(value: Option<&Value<'_>>) -> usize
    ensures { result ≡ length (texts_of (items_in (seen value.entry))) }
{
    match value {
        Some(Value::Array(items)) => count_texts(items.as_slice()),
        _ => 0,
    }
}

/// How many of some items are texts.
fn count_texts(items: &[Value<'_>]) -> usize
    ensures { result ≡ length (texts_of (items_view items.now)) }
{
    let mut count = 0;
    for item in items {
        if item.as_str().is_some() {
            count += 1;
        }
    }
    count
}

/// How many contexts a thread has; one that names none has one of its own name.
fn contexts_count(contexts: Option<&Value<'_>>) -> usize
    ensures { (thread : List ℕ) → result ≡ length (contexts_or thread (seen contexts.entry)) }
{
    match contexts {
        None => 1,
        Some(_) => texts_count(contexts),
    }
}

/// Whether threads have so many contexts together.
pub(crate) fn have_contexts(value: Option<&Value<'_>>, count: usize) -> bool
    ensures { result ≡ (length (contexts_of (members_in (seen value.entry))) == count) }
{
    match value {
        Some(Value::Object(threads)) => have_contexts_together(threads.as_slice(), count),
        _ => count == 0,
    }
}

/// Whether these threads, each with its name, have so many contexts together.
fn have_contexts_together(threads: &[(&str, Value<'_>)], count: usize) -> bool
    ensures { result ≡ (length (contexts_of (members_view threads.now)) == count) }
{
    let mut left = count;
    for thread in threads {
        let own = contexts_count(thread.1.get(Word::Contexts.text()));
        if left < own {
            return false;
        }
        left -= own;
    }
    left == 0
}
