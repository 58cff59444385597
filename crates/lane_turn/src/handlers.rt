//! Actions on cancellables: cancel, connect, disconnect; and the calls of handlers, where an action or a letter cancels.
ghost use Rattle.std.specs.Prelude.{◌≡◌, ◌+◌, ◌^◌, ◌≤◌, true, IsTrue, IsOk, OnOk};
ghost use Rattle.loop_script.specs.References.{sizes, action_refers};
ghost use Rattle.lane_turn.specs.Acted.{plain_acted, handled, all_handled, cancel, connect, disconnect};
ghost use Rattle.cancel_view.specs.Seen.{has};
ghost use Rattle.lane_turn.specs.Sound.{IsWithin};
ghost use Rattle.lane_turn.specs.Meaning.{lane_of};
ghost use Rattle.lane_turn.specs.Limits.{most_count};

use crate::lane::Lane;
use crate::line::{Event, Word};
use crate::slot::Named;
use cancel_view::{Connected, Fired};
use loop_script::{Action, Body, Script};
use std::alloc::{AllocError, Global};

impl Lane {
    /// Does what a handler does of an action.
    fn act_plain(&mut self, script: &Script, tick: u32, action: &Action) -> Result<(), AllocError>
        requires { action_refers (sizes script.now) action.now ≡ true }
        ensures { OnOk result (lane_of self.new ≡ plain_acted script.now tick action.now (lane_of self.old)) }
    {
        match action {
            Action::Destroy(slot) => self.act_destroy(tick, *slot),
            Action::SetReady(slot, us) => self.act_set_ready(tick, *slot, *us),
            Action::Quit(number) => self.act_quit(tick, *number, script.loop_context(*number)),
            Action::Log(n) => self.write(tick, Event::Log(*n)),
            _ => Ok(()),
        }
    }

    /// Calls a handler.
    fn call_handler(&mut self, script: &Script, tick: u32, fired: Fired) -> Result<(), AllocError>
        ensures { OnOk result (lane_of self.new ≡ handled script.now tick fired (lane_of self.old)) }
    {
        self.write(tick, Event::Handler(fired.id))?;
        'actions: for action in script.actions(Body::Procedure(fired.proc)) {
            self.act_plain(script, tick, action)?;
        }
        Ok(())
    }

    /// Calls handlers one after another.
    fn call_handlers(
        &mut self,
        script: &Script,
        tick: u32,
        list: &[Fired],
    ) -> Result<(), AllocError>
        ensures { OnOk result (lane_of self.new ≡ all_handled script.now tick list.now (lane_of self.old)) }
    {
        'handlers: for fired in list {
            self.call_handler(script, tick, *fired)?;
        }
        Ok(())
    }

    /// Cancels a cancellable, where the lane has not seen it cancelled yet, and calls the handlers that are connected to it.
    pub(crate) fn act_cancel(
        &mut self,
        alloc: Global,
        script: &Script,
        tick: u32,
        c: u32,
    ) -> Result<(), AllocError>
        requires { (lane_of self.old).tasks.tick ≡ tick + 1 }
        ensures cancelled { OnOk result (lane_of self.new ≡ cancel script.now tick c (lane_of self.old)) }
        ensures again { IsTrue (has c (lane_of self.old).view) → IsOk result }
    {
        match self.watch.cancel(alloc, tick, c) {
            Err(_) => Err(AllocError),
            Ok(None) => Ok(()),
            Ok(Some(fired)) => {
                self.write(tick, Event::Cancel(c))?;
                self.call_handlers(script, tick, &fired)
            }
        }
    }

    /// Connects a handler and lets a slot name it; where the cancellable was seen cancelled, it is called at once instead.
    pub(crate) fn act_connect(
        &mut self,
        script: &Script,
        tick: u32,
        c: u32,
        slot: u8,
        proc: u32,
    ) -> Result<(), AllocError>
        requires { IsWithin most_count (lane_of self.old) }
        ensures { OnOk result (lane_of self.new ≡ connect script.now tick c slot proc (lane_of self.old)) }
    {
        match self.watch.connect(c, proc) {
            Err(_) => Err(AllocError),
            Ok(Connected::Id(id)) => {
                self.set_slot(slot, Named::Handler(id));
                Ok(())
            }
            Ok(Connected::Already) => {
                self.call_handler(script, tick, Fired { id: 0, proc })?;
                self.set_slot(slot, Named::Handler(0));
                Ok(())
            }
        }
    }

    /// Disconnects the handler that a slot names; it misses where that is gone.
    pub(crate) fn act_disconnect(&mut self, tick: u32, slot: u8) -> Result<(), AllocError>
        ensures { OnOk result (lane_of self.new ≡ disconnect tick slot (lane_of self.old)) }
    {
        let Some(id) = self.handler(slot) else {
            return self.miss(tick, Word::Disconnect);
        };
        if self.watch.disconnect(id) {
            Ok(())
        } else {
            self.miss(tick, Word::Disconnect)
        }
    }
}
