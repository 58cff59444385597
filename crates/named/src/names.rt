//! The names of a script, in the order that gives them their numbers: declared ones, those that are said, and contexts.
ghost use Rattle.std.specs.Prelude.{◌≡◌, [], option_and_then, option_map, option_to_list, IfOk, OnOk};
ghost use Rattle.std.specs.List.{list_any};
ghost use Rattle.std.specs.Str.{bytes_eq};
ghost use Rattle.json.specs.Find.{as_str};
ghost use Rattle.json.specs.Value.{value_view, items_view, members_view};
ghost use Rattle.named.specs.Names.{of_kind, most, number_of, added, all_added, items_in, members_in, texts_of, keys_of, under, contexts_or, contexts_of, said, said_in, said_by, names_in, has_all};
ghost use Rattle.named.specs.Views.{names_of, texts, seen};

use crate::count::{have_contexts, keys_count, texts_count};
use crate::sort::Kind;
use crate::word::Word;
use json::Value;
use std::alloc::{AllocError, Global};

/// The names of a script by kind; the number of a name is its place among those of its kind.
#[derive(Drop)]
pub struct Names<'a> {
    pub threads: Vec<&'a str>,
    pub contexts: Vec<&'a str>,
    pub loops: Vec<&'a str>,
    pub procedures: Vec<&'a str>,
    pub cancellables: Vec<&'a str>,
    pub descriptors: Vec<&'a str>,
    pub slots: Vec<&'a str>,
    pub texts: Vec<&'a str>,
}

/// The actions that let a slot name something.
const NAMING: [Word; 3] = [Word::Attach, Word::Child, Word::Connect];

const LOGGING: [Word; 1] = [Word::Log];

impl<'a> Names<'a> {
    /// The names of a script, each once in the order in which it is given, as far as there are numbers. `AllocError` comes only where a
    /// request for memory was refused.
    #[tactic(auto, using(crate::proofs::Adding::added_behind))]
    pub fn of(alloc: Global, script: &Value<'a>) -> Result<Names<'a>, AllocError>
        ensures { IfOk result (λ names. names_of names ≡ names_in (value_view script.now)) }
    {
        let threads = script.get(Word::Threads.text());
        let procedures = script.get(Word::Procedures.text());
        Ok(Names {
            threads: keys(alloc, Kind::Thread, threads)?,
            contexts: contexts(alloc, threads)?,
            loops: keys(alloc, Kind::Loop, script.get(Word::Loops.text()))?,
            procedures: keys(alloc, Kind::Procedure, procedures)?,
            cancellables: listed(alloc, script.get(Word::Cancellables.text()))?,
            descriptors: keys(
                alloc,
                Kind::Descriptor,
                script.get(Word::Descriptors.text()),
            )?,
            slots: all_said(alloc, Kind::Slot, &NAMING, threads, procedures)?,
            texts: all_said(alloc, Kind::Text, &LOGGING, threads, procedures)?,
        })
    }

    /// Those of a kind.
    pub fn of_kind(&self, kind: Kind) -> &[&'a str]
        ensures { texts result.now ≡ of_kind kind (names_of self.now) }
    {
        match kind {
            Kind::Thread => self.threads.as_slice(),
            Kind::Context => self.contexts.as_slice(),
            Kind::Loop => self.loops.as_slice(),
            Kind::Procedure => self.procedures.as_slice(),
            Kind::Cancellable => self.cancellables.as_slice(),
            Kind::Descriptor => self.descriptors.as_slice(),
            Kind::Slot => self.slots.as_slice(),
            Kind::Text => self.texts.as_slice(),
        }
    }

    /// Whether each name that is given to a thing of a kind has a number: none stands twice, and they are not too many; those of slots and
    /// texts may stand more often.
    pub(crate) fn has_all(&self, kind: Kind, script: &Value<'_>) -> bool
        ensures { result ≡ has_all kind (names_of self.now) (value_view script.now) }
    {
        let count = self.of_kind(kind).len();
        match kind {
            Kind::Thread => keys_count(script.get(Word::Threads.text())) == count,
            Kind::Context => have_contexts(script.get(Word::Threads.text()), count),
            Kind::Loop => keys_count(script.get(Word::Loops.text())) == count,
            Kind::Procedure => keys_count(script.get(Word::Procedures.text())) == count,
            Kind::Cancellable => texts_count(script.get(Word::Cancellables.text())) == count,
            Kind::Descriptor => keys_count(script.get(Word::Descriptors.text())) == count,
            Kind::Slot | Kind::Text => true,
        }
    }

    /// The number of a name.
    pub fn number(&self, kind: Kind, name: &str) -> Option<usize>
        ensures { result ≡ number_of name.now (of_kind kind (names_of self.now)) }
    {
        number_among(self.of_kind(kind), name)
    }
}

/// The number of a name: its place among those of its kind.
fn number_among(names: &[&str], name: &str) -> Option<usize>
    ensures { result ≡ number_of name.now (texts names.now) }
{
    for (n, each) in names.iter().enumerate() {
        if *each == name {
            return Some(n);
        }
    }
    None
}

/// How many of a kind have a number.
pub fn most(kind: Kind) -> usize
    ensures { result ≡ most kind }
{
    match kind {
        Kind::Thread => 64,
        Kind::Procedure => 1024,
        Kind::Text => 4096,
        _ => 256,
    }
}

/// Whether a name is one of some names.
fn has_name(names: &[&str], name: &str) -> bool
    ensures { result ≡ list_any (λ x. bytes_eq x.now name.now) names.now }
{
    names.iter().any(|each| *each == name)
}

/// Adds a name behind the others, where it is none of them and there is a number for it.
#[tactic(auto, using(crate::proofs::Adding::added_texts, crate::proofs::Adding::text_behind))]
fn add<'a>(names: &mut Vec<&'a str>, limit: usize, name: &'a str) -> Result<(), AllocError>
    ensures { OnOk result (texts names.new.items ≡ added limit name.now (texts names.old.items)) }
{
    if !has_name(names.as_slice(), name) && names.len() < limit {
        names.push(name)?;
    }
    Ok(())
}

/// Adds a name, where one is given.
fn add_given<'a>(
    names: &mut Vec<&'a str>,
    limit: usize,
    name: Option<&'a str>,
) -> Result<(), AllocError>
    ensures { OnOk result (texts names.new.items ≡ all_added limit (texts names.old.items) (option_to_list (option_map (λ s. s.now) name.entry))) }
{
    match name {
        Some(name) => add(names, limit, name),
        None => Ok(()),
    }
}

/// The names that are declared as the keys of an object, each once.
fn keys<'a>(
    alloc: Global,
    kind: Kind,
    value: Option<&Value<'a>>,
) -> Result<Vec<&'a str>, AllocError>
    ensures { IfOk result (λ names. texts names.items ≡ all_added (most kind) [] (keys_of (members_in (seen value.entry)))) }
{
    let mut names = Vec::new(alloc);
    if let Some(Value::Object(members)) = value {
        add_keys(&mut names, most(kind), members.as_slice())?;
    }
    Ok(names)
}

/// Adds the key of each member to the names.
fn add_keys<'a>(
    names: &mut Vec<&'a str>,
    limit: usize,
    members: &[(&'a str, Value<'a>)],
) -> Result<(), AllocError>
    ensures { OnOk result (texts names.new.items ≡ all_added limit (texts names.old.items) (keys_of (members_view members.now))) }
{
    for member in members {
        add(names, limit, member.0)?;
    }
    Ok(())
}

/// The names that are declared in a list, each once: those of the cancellables.
fn listed<'a>(alloc: Global, value: Option<&Value<'a>>) -> Result<Vec<&'a str>, AllocError>
    ensures { IfOk result (λ names. texts names.items ≡ all_added (most Kind.Cancellable) [] (texts_of (items_in (seen value.entry)))) }
{
    let mut names = Vec::new(alloc);
    add_texts_in(&mut names, most(Kind::Cancellable), value)?;
    Ok(names)
}

/// Adds the texts of a list to the names, where the value is a list.
fn add_texts_in<'a>(
    names: &mut Vec<&'a str>,
    limit: usize,
    value: Option<&Value<'a>>,
) -> Result<(), AllocError>
    ensures { OnOk result (texts names.new.items ≡ all_added limit (texts names.old.items) (texts_of (items_in (seen value.entry)))) }
{
    if let Some(Value::Array(items)) = value {
        add_texts(names, limit, items.as_slice())?;
    }
    Ok(())
}

/// Adds each of some items that is a text to the names.
fn add_texts<'a>(
    names: &mut Vec<&'a str>,
    limit: usize,
    items: &[Value<'a>],
) -> Result<(), AllocError>
    ensures { OnOk result (texts names.new.items ≡ all_added limit (texts names.old.items) (texts_of (items_view items.now))) }
{
    for item in items {
        add_given(names, limit, item.as_str())?;
    }
    Ok(())
}

/// The names of the contexts of all threads, each once.
fn contexts<'a>(alloc: Global, threads: Option<&Value<'a>>) -> Result<Vec<&'a str>, AllocError>
    ensures { IfOk result (λ names. texts names.items ≡ all_added (most Kind.Context) [] (contexts_of (members_in (seen threads.entry)))) }
{
    let mut names = Vec::new(alloc);
    if let Some(Value::Object(members)) = threads {
        add_contexts(&mut names, members.as_slice())?;
    }
    Ok(names)
}

/// Adds the names of the contexts of each thread.
fn add_contexts<'a>(
    names: &mut Vec<&'a str>,
    threads: &[(&'a str, Value<'a>)],
) -> Result<(), AllocError>
    ensures { OnOk result (texts names.new.items ≡ all_added (most Kind.Context) (texts names.old.items) (contexts_of (members_view threads.now))) }
{
    for thread in threads {
        add_own(names, thread.0, thread.1.get(Word::Contexts.text()))?;
    }
    Ok(())
}

/// Adds the contexts of a thread; one that names none has one of its own name.
fn add_own<'a>(
    names: &mut Vec<&'a str>,
    thread: &'a str,
    contexts: Option<&Value<'a>>,
) -> Result<(), AllocError>
    ensures { OnOk result (texts names.new.items ≡ all_added (most Kind.Context) (texts names.old.items) (contexts_or thread.now (seen contexts.entry))) }
{
    let limit = most(Kind::Context);
    match contexts {
        None => add(names, limit, thread),
        Some(_) => add_texts_in(names, limit, contexts),
    }
}

/// The names of a kind that actions say without a declaration, as those of slots and texts: first what start calls say, then
/// procedures.
#[tactic(auto, using(crate::proofs::Adding::added_behind))]
fn all_said<'a>(
    alloc: Global,
    kind: Kind,
    words: &[Word],
    threads: Option<&Value<'a>>,
    procedures: Option<&Value<'a>>,
) -> Result<Vec<&'a str>, AllocError>
    ensures { IfOk result (λ names. texts names.items ≡ all_added (most kind) (all_added (most kind) [] (said_by words.now Word.Start (members_in (seen threads.entry)))) (said_by words.now Word.Do (members_in (seen procedures.entry)))) }
{
    let mut names = Vec::new(alloc);
    let limit = most(kind);
    add_said_by(&mut names, limit, words, Word::Start, threads)?;
    add_said_by(&mut names, limit, words, Word::Do, procedures)?;
    Ok(names)
}

/// Adds the names that are said by the actions under a key of each member, where the value is an object.
fn add_said_by<'a>(
    names: &mut Vec<&'a str>,
    limit: usize,
    words: &[Word],
    key: Word,
    value: Option<&Value<'a>>,
) -> Result<(), AllocError>
    ensures { OnOk result (texts names.new.items ≡ all_added limit (texts names.old.items) (said_by words.now key (members_in (seen value.entry)))) }
{
    if let Some(Value::Object(members)) = value {
        add_said_by_each(names, limit, words, key, members.as_slice())?;
    }
    Ok(())
}

/// Adds the names that are said by the actions under a key of each of these members.
fn add_said_by_each<'a>(
    names: &mut Vec<&'a str>,
    limit: usize,
    words: &[Word],
    key: Word,
    members: &[(&'a str, Value<'a>)],
) -> Result<(), AllocError>
    ensures { OnOk result (texts names.new.items ≡ all_added limit (texts names.old.items) (said_by words.now key (members_view members.now))) }
{
    for member in members {
        add_said_at(names, limit, words, member.1.get(key.text()))?;
    }
    Ok(())
}

/// Adds the names that are said by the actions of a list, where the value is one.
fn add_said_at<'a>(
    names: &mut Vec<&'a str>,
    limit: usize,
    words: &[Word],
    value: Option<&Value<'a>>,
) -> Result<(), AllocError>
    ensures { OnOk result (texts names.new.items ≡ all_added limit (texts names.old.items) (said_in words.now (items_in (seen value.entry)))) }
{
    if let Some(Value::Array(actions)) = value {
        add_said_in(names, limit, words, actions.as_slice())?;
    }
    Ok(())
}

/// Adds the names that each of these actions says.
fn add_said_in<'a>(
    names: &mut Vec<&'a str>,
    limit: usize,
    words: &[Word],
    actions: &[Value<'a>],
) -> Result<(), AllocError>
    ensures { OnOk result (texts names.new.items ≡ all_added limit (texts names.old.items) (said_in words.now (items_view actions.now))) }
{
    for action in actions {
        add_said(names, limit, words, action)?;
    }
    Ok(())
}

/// Adds the names that an action says under some words, as that of its slot.
fn add_said<'a>(
    names: &mut Vec<&'a str>,
    limit: usize,
    words: &[Word],
    action: &Value<'a>,
) -> Result<(), AllocError>
    ensures { OnOk result (texts names.new.items ≡ all_added limit (texts names.old.items) (said words.now (value_view action.now))) }
{
    for word in words {
        add_given(names, limit, text_under(*word, action))?;
    }
    Ok(())
}

/// The text that stands under a key.
fn text_under<'a>(key: Word, value: &Value<'a>) -> Option<&'a str>
    ensures { option_map (λ s. s.now) result ≡ option_and_then as_str (under key (value_view value.now)) }
{
    value.get(key.text())?.as_str()
}
