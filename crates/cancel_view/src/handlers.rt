//! The handlers of a view, in the order in which they were connected: each found by its id, and those of a cancellable together.
ghost use Rattle.std.specs.Prelude.{◌≡◌, ◌++◌, ◌∷◌, ◌+◌, ◌<◌, [], Some, None, length, IfOk, OnOk, OnErr, filter, map};
ghost use Rattle.std.specs.List.{list_any};
ghost use Rattle.cancel_view.specs.Bounds.{count_end};
ghost use Rattle.cancel_view.specs.Seen.{is_of, fired_as, has_id, has_other_id};
ghost use Rattle.cancel_view.specs.Groups.{connection_at, emptied, fired_at, handlers_in};

use crate::groups::{Groups, ids_of, join};
use crate::handler::Fired;
use std::alloc::{AllocError, Global};
use std::collections::BTreeMap;
use std::marker::Model;

/// What a handler was connected to.
#[derive(Clone, Copy)]
pub(crate) struct Connection {
    pub cancellable: u32,
    pub proc: u32,
}

/// Handlers by their ids, which are counted from 1 on. Contracts see a slot for each id that was given; that of a handler which was
/// disconnected is empty.
#[derive(Drop)]
pub(crate) struct Handlers {
    slots: Vec<Option<Connection>>,
    groups: Groups,
    alloc: Global,
}

impl Model for Handlers {
    ghost use Rattle.std.specs.Prelude.{List, Option};
    ghost use Rattle.cancel_view.specs.declared.handlers.Connection.{Connection};

    ghost Value = { List (Option Connection) };

    ghost use Rattle.cancel_view.specs.Groups.{AreKept};

    ghost view = { λ h. h.slots.items };

    ghost invariant = { λ h. AreKept h.slots.items h.groups };
}

/// What the handler with an id is connected to, where it is connected.
fn connection_at(slots: &[Option<Connection>], id: u64) -> Option<Connection>
    ensures { result ≡ connection_at slots.now id }
{
    match slots.get(id.checked_sub(1)? as usize) {
        Some(slot) => *slot,
        None => None,
    }
}

/// Empties the slot of an id.
fn empty(slots: &mut Vec<Option<Connection>>, id: u64)
    ensures { slots.new.items ≡ emptied slots.old.items id }
{
    let Some(place) = id.checked_sub(1) else {
        return;
    };
    if let Some(slot) = slots.get_mut(place as usize) {
        *slot = None;
    }
}

/// What is told of the handler with an id, where it is connected.
fn fired_at(slots: &[Option<Connection>], id: u64) -> Option<Fired>
    ensures { result ≡ fired_at slots.now id }
{
    let connection = connection_at(slots, id)?;
    Some(Fired {
        id,
        proc: connection.proc,
    })
}

impl Handlers {
    /// None. It takes no memory.
    pub fn new(alloc: Global) -> Self
        ensures { result ≡ [] }
    {
        Handlers {
            slots: Vec::new(alloc),
            groups: BTreeMap::new(alloc),
            alloc,
        }
    }

    /// The id that the next handler gets.
    pub fn next_id(&self) -> u64
        requires { length self.now + 1 < count_end }
        ensures { result ≡ length self.now + 1 }
    {
        self.slots.len() as u64 + 1
    }

    /// The handlers of a cancellable.
    pub fn of(&self, alloc: Global, c: u32) -> Result<Vec<Fired>, AllocError>
        ensures { IfOk result (λ v. v.items ≡ map fired_as (filter (is_of c) (handlers_in self.now))) }
    {
        let slots = self.slots.as_slice();
        ids_of(&self.groups, c)
            .iter()
            .filter_map(|id| fired_at(slots, *id))
            .collect(alloc)
    }

    /// Puts a handler behind the others, with the next id.
    pub fn push(&mut self, cancellable: u32, proc: u32) -> Result<(), AllocError>
        requires room { length self.old + 1 < count_end }
        ensures ok { OnOk result (self.new ≡ self.old ++ Some (record { cancellable = cancellable; proc = proc }) ∷ []) }
        ensures err { OnErr result (self.new ≡ self.old) }
    {
        let id = self.next_id();
        self.slots.push(Some(Connection { cancellable, proc }))?;
        if let Err(refused) = join(self.alloc, &mut self.groups, cancellable, id) {
            let _ = self.slots.pop();
            return Err(refused);
        }
        Ok(())
    }

    /// Removes the handler that has the id; false where there is none. It takes no memory.
    pub fn remove(&mut self, id: u64) -> bool
        ensures found { result ≡ list_any (has_id id) (handlers_in self.old) }
        ensures left { handlers_in self.new ≡ filter (has_other_id id) (handlers_in self.old) }
        ensures count { length self.new ≡ length self.old }
    {
        let is_found = connection_at(self.slots.as_slice(), id).is_some();
        empty(&mut self.slots, id);
        is_found
    }
}
