//! What a lane has seen cancelled, a set of cancellables, with its handlers. A cancel comes to `lane_watch` first, which keeps its tick too.
ghost use Rattle.std.specs.Prelude.{◌≡◌, ◌+◌, ◌<◌, [], Some, None, true, false, replicate, slice_index_or, slice_set, IsTrue, IsOk, IfOk, OnOk, OnErr, option_map, if◌then◌else◌};
ghost use Rattle.cancel_view.specs.Bounds.{count_end};

use crate::handler::{Connected, Fired};
use crate::handlers::Handlers;
use crate::marks::{Marks, cancel_number};
use crate::memory::OutOfMemory;
use std::alloc::Global;
use std::marker::Model;

/// Which cancellables a lane has seen cancelled, and its handlers of them. Cancellables go by their number, from 0 on.
#[derive(Drop)]
pub struct View {
    members: Vec<bool>,
    /// The marks of these.
    marks: Marks,
    handlers: Handlers,
}

impl Model for View {
    ghost use Rattle.std.specs.Prelude.{◌+◌, length};
    ghost use Rattle.cancel_view.specs.Seen.{Seen};
    ghost use Rattle.cancel_view.specs.Groups.{handlers_in};
    ghost use Rattle.cancel_view.specs.Marks.{AreMarked};

    ghost Value = { Seen };

    ghost view = { λ v. record { members = v.members.items; handlers = handlers_in v.handlers; next_id = length v.handlers + 1 } };

    ghost invariant = { λ v. AreMarked v.members.items v.marks };
}

/// Whether a cancellable is a member; a number that none has is not.
fn has_member(members: &[bool], c: u32) -> bool
    ensures { result ≡ slice_index_or members.now c false }
{
    match members.get(c as usize) {
        Some(is_member) => *is_member,
        None => false,
    }
}

/// Makes a cancellable a member.
fn add_member(members: &mut Vec<bool>, c: u32)
    ensures { members.new.items ≡ slice_set members.old.items c true }
{
    if let Some(is_member) = members.get_mut(c as usize) {
        *is_member = true;
    }
}

impl View {
    ghost use Rattle.cancel_view.specs.Marks.{IsMarked};
    ghost use Rattle.cancel_view.specs.Seen.{has, fired, cancelled, connected, connecting, without, may_disconnect, IsRising};

    /// The view of a lane that has seen none of n cancellables cancelled, with no handler.
    pub fn new(alloc: Global, n: u32) -> Result<View, OutOfMemory>
        ensures { IfOk result (λ v. v ≡ record { members = replicate n false; handlers = []; next_id = 1 }) }
    {
        let members = vec![in alloc; false; n as usize]?;
        Ok(View {
            members,
            marks: Marks::none(),
            handlers: Handlers::new(alloc),
        })
    }

    /// Whether the view has the cancellable.
    pub fn is_cancelled(&self, c: u32) -> bool
        ensures { result ≡ has c self.now }
    {
        has_member(&self.members, c)
    }

    /// Marks of which each cancellable that the view has has its own (`cancel_number`): where two sets have none in common, the view has
    /// none of the other's.
    pub fn marks(&self) -> Marks
        ensures { IsMarked self.now result }
    {
        self.marks
    }

    /// Brings a cancellable into the view, and gives the handlers to call, by rising id; they stay connected. None
    /// where the view had it, which takes no memory. After `OutOfMemory` the view is unchanged.
    #[tactic(auto, using(crate::proofs::Rising::rise_fired))]
    pub fn cancel(&mut self, alloc: Global, c: u32) -> Result<Option<Vec<Fired>>, OutOfMemory>
        ensures fired { IfOk result (λ f. option_map (λ v. v.items) f ≡ (if has c self.old then None else Some (fired c self.old))) }
        ensures rising { IsRising (fired c self.old) }
        ensures view { OnOk result (self.new ≡ cancelled c self.old) }
        ensures same { OnErr result (self.new ≡ self.old) }
        ensures member { IsTrue (has c self.old) → IsOk result }
    {
        if has_member(&self.members, c) {
            return Ok(None);
        }
        let fired = self.handlers.of(alloc, c)?;
        add_member(&mut self.members, c);
        self.marks.add(cancel_number(c));
        Ok(Some(fired))
    }

    /// Connects a handler, where the view does not have its cancellable; where it does, that takes no memory. After
    /// `OutOfMemory` the view is unchanged.
    pub fn connect(&mut self, c: u32, proc: u32) -> Result<Connected, OutOfMemory>
        requires room { self.old.next_id < count_end }
        ensures answer { IfOk result (λ r. r ≡ connecting c self.old) }
        ensures view { OnOk result (self.new ≡ connected c proc self.old) }
        ensures same { OnErr result (self.new ≡ self.old) }
        ensures member { IsTrue (has c self.old) → IsOk result }
    {
        if has_member(&self.members, c) {
            return Ok(Connected::Already);
        }
        let id = self.handlers.next_id();
        self.handlers.push(c, proc)?;
        Ok(Connected::Id(id))
    }

    /// Disconnects the handler that has the id; false where there is none. The id 0 is that of no handler: it is
    /// always true, and does nothing.
    pub fn disconnect(&mut self, id: u64) -> bool
        ensures answer { result ≡ may_disconnect id self.old }
        ensures view { self.new ≡ without id self.old }
    {
        if id == 0 {
            return true;
        }
        self.handlers.remove(id)
    }
}
