//! A run that has ended, and its text as it goes to a writer.
ghost use Rattle.std.specs.Prelude.{◌≡◌, ◌<◌, None, [], ◌++◌, IfOk, IfErr, OnOk, OnErr};
ghost use Rattle.tick_stepper.specs.Crew.{refusal_of};
ghost use Rattle.mainctx.specs.Run.{IsSetup, IsSetupFaultOf};
ghost use Rattle.mainctx.specs.Text.{lane_text, text_of};
ghost use Rattle.mainctx.specs.Writing.{AddsPrefix, GrowAlike, PassesOn};

use crate::buffer::Buffer;
use crate::printed::Printed;
use crate::run::MainFault;
use crate::text::OutOfMemory;
use crate::writer::{Out, OutFault};
use lane_turn::Line;
use loop_script::Script;
use std::alloc::Global;
use std::marker::Model;
use std::sync::Wait;
use std::thread::Threads;
use tick_stepper::{Gate, Sharing, StepFault, Stepper};

/// A run that has ended, seen as its script.
#[derive(Drop)]
pub(crate) struct Ended {
    stepper: Stepper,
    lanes: u32,
}

impl Model for Ended {
    ghost use Rattle.std.specs.Coded.{codes};
    ghost use Rattle.loop_script.specs.contracts.tree.TaskTree as task_tree;
    ghost use Rattle.loop_script.specs.declared.plan.Plan.{Plan};
    ghost use Rattle.mainctx.specs.Ended.{HasEnded};

    ghost Value = { Plan };

    ghost coded = { Prim.hlevel (codes, task_tree.the_row.coded) };

    ghost view = { λ e. e.stepper.script };

    ghost invariant = { λ e. HasEnded e.stepper e.lanes };
}

/// Only `Workers` and `Table` are faults of the setup. A stepper is spent only after a refusal of memory.
fn setup_fault(fault: StepFault) -> MainFault
    ensures { IsSetup fault result }
{
    match fault {
        StepFault::Workers | StepFault::Table => MainFault::Setup(fault),
        StepFault::OutOfMemory | StepFault::Spent => MainFault::OutOfMemory,
    }
}

impl Ended {
    /// Runs a script to its end.
    pub fn new<R: Threads + Wait + Sync, G: Gate>(
        rt: &R,
        alloc: Global,
        script: Script,
        workers: u32,
        sharing: Sharing,
        gate: &G,
    ) -> Result<Self, MainFault>
        ensures script { IfOk result (λ ended. ended ≡ script) }
        ensures crew { OnOk result (refusal_of script workers sharing ≡ None) }
        ensures fault { IfErr result (λ fault. IsSetupFaultOf script workers sharing fault) }
    {
        let lanes = script.lanes();
        let mut stepper = match Stepper::new(alloc, script, workers, sharing) {
            Ok(stepper) => stepper,
            Err(fault) => return Err(setup_fault(fault)),
        };
        if stepper.run(rt, gate).is_err() {
            return Err(MainFault::OutOfMemory);
        }
        Ok(Ended { stepper, lanes })
    }

    /// Runs a script to its end, in the caller's thread alone.
    pub fn alone(alloc: Global, script: Script) -> Result<Self, OutOfMemory>
        ensures script { IfOk result (λ ended. ended ≡ script) }
    {
        let lanes = script.lanes();
        let Ok(mut stepper) = Stepper::new(alloc, script, 1, Sharing::Round) else {
            return Err(OutOfMemory);
        };
        if stepper.run_alone().is_err() {
            return Err(OutOfMemory);
        }
        Ok(Ended { stepper, lanes })
    }

    /// Writes the text, and flushes. It stops at the first failure, with a prefix of the text taken.
    pub fn write<W: Out>(&self, buffer: &mut Buffer, out: &mut W) -> Result<(), OutFault>
        requires { buffer.old ≡ [] }
        ensures whole { OnOk result (W.taken out.new ≡ W.taken out.old ++ text_of self.now) }
        ensures clean { OnOk result (W.failures out.new ≡ W.failures out.old) }
        ensures prefix { OnErr result (AddsPrefix (W.taken out.old) (W.taken out.new) (text_of self.now)) }
        ensures failed { OnErr result (W.failures out.old < W.failures out.new) }
        ensures known { GrowAlike (W.taken out.old) (W.taken out.new) (W.contents out.old) (W.contents out.new) }
    {
        for number in 0..self.lanes {
            // a stepper that was taken to its end is not spent
            let Ok(lines) = self.stepper.trace(number) else {
                return Err(OutFault);
            };
            add_part(buffer, out, number, lines)?;
        }
        buffer.hand_on(out)?;
        out.flush()
    }
}

/// Adds a lane's part of the text: the line `thread N`, and the lines of its trace.
fn add_part<W: Out>(
    buffer: &mut Buffer,
    out: &mut W,
    lane: u32,
    lines: &[Line],
) -> Result<(), OutFault>
    ensures passes { OnOk result (PassesOn (W.taken out.old) (W.taken out.new) buffer.old buffer.new (lane_text lane lines.now)) }
    ensures clean { OnOk result (W.failures out.new ≡ W.failures out.old) }
    ensures prefix { OnErr result (AddsPrefix (W.taken out.old) (W.taken out.new) (buffer.old ++ lane_text lane lines.now)) }
    ensures failed { OnErr result (W.failures out.old < W.failures out.new) }
    ensures known { GrowAlike (W.taken out.old) (W.taken out.new) (W.contents out.old) (W.contents out.new) }
{
    let mut printed = Printed::heading(lane);
    buffer.add(out, printed.bytes())?;
    for line in lines {
        printed.print(*line);
        buffer.add(out, printed.bytes())?;
    }
    Ok(())
}
