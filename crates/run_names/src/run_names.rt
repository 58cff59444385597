//! What the things of a run are called: by their names, or by the word of their kind and a number.
ghost use Rattle.std.specs.Prelude.{◌≡◌, ◌++◌, [], codes, Some, None, IfOk, IfSome, OnOk, option_map, is_some, string_bytes};
ghost use Rattle.std.specs.Fmt.{decimal};
ghost use Rattle.named.specs.Names.{number_of, of_kind};
ghost use Rattle.run_names.specs.Called.{AreOf, HaveNumbers, name_in};
ghost use Rattle.run_names.specs.Labelled.{AreApart};
ghost use Rattle.run_names.specs.declared.thing.Thing.TheVariants as things;
ghost use Rattle.run_names.specs.Text.{called, full_text, has_label, id_text, kind_word, label_text, number_text, origin_text, seat_text, source_here, thing_text, within};

use crate::label::{Label, Origin, Seat};
use crate::labels::Labels;
use crate::quoted::{push_name, push_quoted};
use crate::table::Table;
use crate::thing::Thing;
use named::Kind;
use std::alloc::{AllocError, Global};
use std::marker::Model;

/// What the things of a run are called: by names where its script has names, else by numbers.
#[derive(Drop)]
pub struct RunNames {
    alloc: Global,
    table: Option<Table>,
    sources: Labels,
    handlers: Labels,
}

impl Model for RunNames {
    ghost use Rattle.run_names.specs.Text.{Calling};

    ghost Value = { Calling };

    ghost view = { λ r. record { names = r.table; sources = r.sources; handlers = r.handlers } };
}

impl RunNames {
    /// Everything is called by its number.
    pub fn numbers(alloc: Global) -> RunNames
        ensures { result ≡ record { names = None; sources = []; handlers = [] } }
    {
        RunNames {
            alloc,
            table: None,
            sources: Labels::new(alloc),
            handlers: Labels::new(alloc),
        }
    }

    /// The names of a script with names, before anything has happened; of other bytes numbers.
    pub fn of_bytes(alloc: Global, bytes: &[u8]) -> Result<RunNames, AllocError>
        ensures names { IfOk result (λ r. AreOf bytes.now r.names) }
        ensures labels { IfOk result (λ r. (r.sources ≡ []) × (r.handlers ≡ [])) }
    {
        Ok(RunNames {
            alloc,
            table: Table::of_bytes(alloc, bytes)?,
            sources: Labels::new(alloc),
            handlers: Labels::new(alloc),
        })
    }

    /// Whether there are names.
    pub fn are_there(&self) -> bool
        ensures { result ≡ is_some self.now.names }
    {
        self.table.is_some()
    }

    /// That no two things are called the same: each name has its number, and no two sources and no two handlers have one label.
    pub fn are_apart(&self)
        ensures names { IfSome self.now.names HaveNumbers }
        ensures sources { AreApart self.now.sources }
        ensures handlers { AreApart self.now.handlers }
    {
        if let Some(table) = &self.table {
            let _ = table.of_kind(Kind::Thread);
        }
        let nowhere = Seat { home: 0, id: 0 };
        let _ = self.sources.get(nowhere);
        let _ = self.handlers.get(nowhere);
    }

    /// The names of a kind, by their numbers; none where there are no names.
    pub fn of_kind(&self, kind: Kind) -> &[String] {
        match &self.table {
            Some(table) => table.of_kind(kind),
            None => &[],
        }
    }

    /// A source came: where it comes from. One that has a label keeps it.
    pub fn add_source(&mut self, context: u32, id: u64, origin: Origin) -> Result<(), AllocError> {
        if self.table.is_none() {
            return Ok(());
        }
        self.sources.give(Seat { home: context, id }, origin)
    }

    /// A handler was connected in a thread: where it comes from.
    pub fn add_handler(&mut self, lane: u32, id: u64, origin: Origin) -> Result<(), AllocError> {
        if self.table.is_none() {
            return Ok(());
        }
        self.handlers.give(Seat { home: lane, id }, origin)
    }

    /// Adds what something is called, with the word of its kind: `thread main` or `thread 0`, of a source `my_idle` or `source 0.1`.
    pub fn push(&self, out: &mut String, thing: Thing) -> Result<(), AllocError>
        ensures { OnOk result (string_bytes out.new ≡ string_bytes out.old ++ full_text self.now thing) }
    {
        if !self.is_labelled(thing) {
            out.push_str(word_of(thing))?;
            out.push_str(" ")?;
        }
        self.push_bare(out, thing)
    }

    /// Adds what a source is called where its context was said: `my_idle` or `source 1`.
    pub fn push_source(&self, out: &mut String, context: u32, id: u64) -> Result<(), AllocError>
        ensures { OnOk result (string_bytes out.new ≡ string_bytes out.old ++ source_here self.now context id) }
    {
        let thing = Thing::Source { context, id };
        if self.is_labelled(thing) {
            self.push_bare(out, thing)
        } else {
            write!(out, "source {id}")
        }
    }

    /// Adds what something is called, without the word of its kind: `main` or `0`, of a source `my_idle` or `0.1`.
    pub fn push_bare(&self, out: &mut String, thing: Thing) -> Result<(), AllocError>
        ensures { OnOk result (string_bytes out.new ≡ string_bytes out.old ++ thing_text self.now thing) }
    {
        match thing {
            Thing::Thread(number) => self.push_of(out, Kind::Thread, number),
            Thing::Context(number) => self.push_of(out, Kind::Context, number),
            Thing::Loop(number) => self.push_of(out, Kind::Loop, number),
            Thing::Procedure(number) => self.push_of(out, Kind::Procedure, number),
            Thing::Cancellable(number) => self.push_of(out, Kind::Cancellable, number),
            Thing::Descriptor(number) => self.push_of(out, Kind::Descriptor, number),
            Thing::Slot(number) => self.push_of(out, Kind::Slot, number),
            Thing::Text(number) => self.push_text(out, number),
            Thing::Source { context, id } => {
                match self.sources.get(Seat { home: context, id }) {
                    Some(label) => self.push_label(out, label),
                    None => self.push_seat(out, context, id),
                }
            }
            Thing::Task { lane, number } => self.push_within(out, Kind::Thread, lane, number),
            Thing::Handler { lane, id } => match self.handlers.get(Seat { home: lane, id }) {
                Some(label) => self.push_label(out, label),
                None => self.push_id(out, id),
            },
        }
    }

    /// Whether it is called by where it comes from.
    fn is_labelled(&self, thing: Thing) -> bool
        ensures { result ≡ has_label self.now thing }
    {
        match thing {
            Thing::Source { context, id } => {
                self.sources.get(Seat { home: context, id }).is_some()
            }
            _ => false,
        }
    }

    /// Adds a number that has no name, which is marked where there are names.
    fn push_number(&self, out: &mut String, number: u64) -> Result<(), AllocError>
        ensures { OnOk result (string_bytes out.new ≡ string_bytes out.old ++ number_text self.now.names number) }
    {
        match self.table {
            Some(_) => write!(out, "#{number}"),
            None => write!(out, "{number}"),
        }
    }

    /// Adds an id that has no label, which is marked where there are names.
    fn push_id(&self, out: &mut String, id: u64) -> Result<(), AllocError>
        ensures { OnOk result (string_bytes out.new ≡ string_bytes out.old ++ id_text self.now.names id) }
    {
        match self.table {
            Some(_) => write!(out, "##{id}"),
            None => write!(out, "{id}"),
        }
    }

    /// Adds a source that has no label, by its id and its context.
    fn push_seat(&self, out: &mut String, context: u32, id: u64) -> Result<(), AllocError>
        ensures { OnOk result (string_bytes out.new ≡ string_bytes out.old ++ seat_text self.now.names context id) }
    {
        match self.table {
            Some(_) => {
                self.push_id(out, id)?;
                out.push_str(" in ")?;
                self.push_of(out, Kind::Context, context)
            }
            None => self.push_within(out, Kind::Context, context, id),
        }
    }

    /// Adds the name of a number, or the number.
    fn push_of(&self, out: &mut String, kind: Kind, number: u32) -> Result<(), AllocError>
        ensures { OnOk result (string_bytes out.new ≡ string_bytes out.old ++ called kind number self.now.names) }
    {
        match self.name(kind, number) {
            Some(name) => push_name(self.alloc, out, name),
            None => self.push_number(out, u64::from(number)),
        }
    }

    /// Adds what a `log` writes, or its number.
    fn push_text(&self, out: &mut String, number: u32) -> Result<(), AllocError>
        ensures { OnOk result (string_bytes out.new ≡ string_bytes out.old ++ thing_text self.now (things.Text number)) }
    {
        match self.name(Kind::Text, number) {
            Some(text) => push_quoted(self.alloc, out, text),
            None => self.push_number(out, u64::from(number)),
        }
    }

    /// Adds a number behind what has it, with a point between them.
    fn push_within(
        &self,
        out: &mut String,
        kind: Kind,
        home: u32,
        number: u64,
    ) -> Result<(), AllocError>
        ensures { OnOk result (string_bytes out.new ≡ string_bytes out.old ++ within kind home number self.now.names) }
    {
        self.push_of(out, kind, home)?;
        write!(out, ".{number}")
    }

    /// Adds a label.
    fn push_label(&self, out: &mut String, label: Label) -> Result<(), AllocError>
        ensures { OnOk result (string_bytes out.new ≡ string_bytes out.old ++ label_text self.now.names label) }
    {
        self.push_origin(out, label.origin)?;
        let place = label.place;
        if place == 1 {
            Ok(())
        } else {
            write!(out, " #{place}")
        }
    }

    /// Adds where something comes from.
    fn push_origin(&self, out: &mut String, origin: Origin) -> Result<(), AllocError>
        ensures { OnOk result (string_bytes out.new ≡ string_bytes out.old ++ origin_text self.now.names origin) }
    {
        match origin {
            Origin::Slot(slot) => self.push_of(out, Kind::Slot, slot),
            Origin::Reply { lane, number } => {
                out.push_str("reply of task ")?;
                self.push_within(out, Kind::Thread, lane, number)
            }
            Origin::Invoke(procedure) => {
                out.push_str("invoke of ")?;
                self.push_of(out, Kind::Procedure, procedure)
            }
        }
    }

    /// The name of a number: that which stands there among those of its kind, where there are names. It is that of no other: each name put back to its number gives the number.
    pub fn name(&self, kind: Kind, number: u32) -> Option<&str>
        ensures name { option_map (λ name. name.now) result ≡ name_in kind number self.now.names }
        ensures number { IfSome result (λ name. IfSome self.now.names (λ names. number_of name.now (of_kind kind names) ≡ Some number)) }
    {
        match &self.table {
            Some(table) => table.name(kind, number),
            None => None,
        }
    }
}

/// The word of a kind.
fn word_of(thing: Thing) -> &'static str
    ensures { result.now ≡ kind_word thing }
{
    match thing {
        Thing::Thread(_) => "thread",
        Thing::Context(_) => "context",
        Thing::Loop(_) => "loop",
        Thing::Procedure(_) => "procedure",
        Thing::Cancellable(_) => "cancellable",
        Thing::Descriptor(_) => "descriptor",
        Thing::Slot(_) => "slot",
        Thing::Text(_) => "text",
        Thing::Source { .. } => "source",
        Thing::Task { .. } => "task",
        Thing::Handler { .. } => "handler",
    }
}
