//! The names that a script gives to its things, kind by kind, each by its number.
ghost use Rattle.std.specs.Prelude.{◌≡◌, Some, IfOk, IfSome, option_map, slice_get, string_bytes};
ghost use Rattle.json.specs.Value.{value_view};
ghost use Rattle.named.specs.Names.{names_in, number_of, of_kind};
ghost use Rattle.named.specs.Views as views;
ghost use Rattle.run_names.specs.Called.{as_texts, AreOf, HaveNumbers};

use json::{Error, Scratch, Value};
use named::{Kind, Names, is_named};
use std::alloc::{AllocError, Global};
use std::marker::Model;

/// The names of a script by kind; the number of a name is its place among those of its kind.
#[derive(Drop)]
pub(crate) struct Table {
    threads: Vec<String>,
    contexts: Vec<String>,
    loops: Vec<String>,
    procedures: Vec<String>,
    cancellables: Vec<String>,
    descriptors: Vec<String>,
    slots: Vec<String>,
    texts: Vec<String>,
}

impl Model for Table {
    ghost use Rattle.named.specs.Names.{Names};
    ghost use Rattle.run_names.specs.Called.{as_texts, HaveNumbers};

    ghost Value = { Names };

    ghost view = { λ t. record { threads = as_texts t.threads.items; contexts = as_texts t.contexts.items; loops = as_texts t.loops.items; procedures = as_texts t.procedures.items; cancellables = as_texts t.cancellables.items; descriptors = as_texts t.descriptors.items; slots = as_texts t.slots.items; texts = as_texts t.texts.items } };

    ghost invariant = { λ t. HaveNumbers (record { threads = as_texts t.threads.items; contexts = as_texts t.contexts.items; loops = as_texts t.loops.items; procedures = as_texts t.procedures.items; cancellables = as_texts t.cancellables.items; descriptors = as_texts t.descriptors.items; slots = as_texts t.slots.items; texts = as_texts t.texts.items }) };
}

impl Table {
    /// The names of a script with names.

    /// The names of a script by kind, copied, so that the script may go.
    pub(crate) fn of(alloc: Global, script: &Value<'_>) -> Result<Table, AllocError>
        ensures { IfOk result (λ table. table ≡ names_in (value_view script.now)) }
    {
        let names = Names::of(alloc, script)?;
        Ok(Table {
            threads: copied(alloc, names.of_kind(Kind::Thread))?,
            contexts: copied(alloc, names.of_kind(Kind::Context))?,
            loops: copied(alloc, names.of_kind(Kind::Loop))?,
            procedures: copied(alloc, names.of_kind(Kind::Procedure))?,
            cancellables: copied(alloc, names.of_kind(Kind::Cancellable))?,
            descriptors: copied(alloc, names.of_kind(Kind::Descriptor))?,
            slots: copied(alloc, names.of_kind(Kind::Slot))?,
            texts: copied(alloc, names.of_kind(Kind::Text))?,
        })
    }

    /// The names of bytes, where they are a script with names.
    pub(crate) fn of_bytes(alloc: Global, bytes: &[u8]) -> Result<Option<Table>, AllocError>
        ensures { IfOk result (λ table. AreOf bytes.now table) }
    {
        let mut scratch = Scratch::new(alloc);
        let script = match Value::from_slice(alloc, bytes, &mut scratch) {
            Ok(script) => script,
            Err(Error::Invalid) => return Ok(None),
            // (the others but want of memory never come)
            Err(_) => return Err(AllocError),
        };
        if !is_named(&script) {
            return Ok(None);
        }
        Ok(Some(Table::of(alloc, &script)?))
    }

    /// Those of a kind.
    pub(crate) fn of_kind(&self, kind: Kind) -> &[String]
        ensures texts { as_texts result.now ≡ of_kind kind self.now }
        ensures numbers { HaveNumbers self.now }
    {
        match kind {
            Kind::Thread => self.threads.as_slice(),
            Kind::Context => self.contexts.as_slice(),
            Kind::Loop => self.loops.as_slice(),
            Kind::Procedure => self.procedures.as_slice(),
            Kind::Cancellable => self.cancellables.as_slice(),
            Kind::Descriptor => self.descriptors.as_slice(),
            Kind::Slot => self.slots.as_slice(),
            Kind::Text => self.texts.as_slice(),
        }
    }

    /// The name of a number: that which stands there among those of its kind. Its number is that one: no two things of a kind share a name.
    pub(crate) fn name(&self, kind: Kind, number: u32) -> Option<&str>
        ensures name { option_map (λ name. name.now) result ≡ slice_get (of_kind kind self.now) number }
        ensures number { IfSome result (λ name. number_of name.now (of_kind kind self.now) ≡ Some number) }
    {
        let name = self.of_kind(kind).get(number as usize)?;
        Some(name.as_str())
    }
}

/// The same texts.
fn copied(alloc: Global, names: &[&str]) -> Result<Vec<String>, AllocError>
    ensures { IfOk result (λ list. as_texts list.items ≡ views.texts names.now) }
{
    let mut list = Vec::new(alloc);
    for name in names {
        list.push(String::from_str(alloc, name)?)?;
    }
    Ok(list)
}
