//! What the program does with its arguments, input and output: its exit statuses, and the line on standard error for each refusal.
ghost use Rattle.std.specs.Prelude.{◌≡◌, ◌<◌, ◌≤◌, ◌⊎◌, ◌↔◌, ℕ, OnOk, IfErr, IfSome, Some, Err};
ghost use Rattle.mainctx.specs.declared.arguments.Asked.{Asked};
ghost use Rattle.mainctx.specs.Arguments.{AskFor};
ghost use Rattle.mainctx.specs.Serving.{Serves, ServesPrefix, ServesHolder, HasFault, HasNoCrew, Leaves, status_of};
ghost use Rattle.mainctx.specs.Writing.{GrowAlike};

use crate::arguments::Asked;
use crate::run::{MainFault, run_leaking};
use crate::writer::Out;
use loop_script::ScriptFault;
use program_input::{InputFault, read_input};
use std::alloc::Global;
use std::io::{Read, Write};
use std::sync::Wait;
use std::thread::Threads;
use tick_stepper::OpenGate;

/// Why the program ended without the whole text.
#[derive(Clone, Copy, Debug, Drop, PartialEq, Eq)]
pub enum Refusal {
    /// The arguments are not `WORKERS fixed|queue`.
    Usage,
    /// The input is no script.
    Script(ScriptFault),
    /// The workers are none, or more than 64.
    Setup,
    /// A request for memory was refused.
    Memory,
    /// The input could not be read, or is too long.
    Read,
    /// The text could not be written.
    Write,
}

impl Refusal {
    /// The exit status.
    fn status(self) -> u8
        ensures { result ≡ status_of self }
    {
        match self {
            Refusal::Usage => 1,
            Refusal::Script(ScriptFault::OutOfMemory) | Refusal::Memory => 3,
            Refusal::Script(_) | Refusal::Setup => 2,
            Refusal::Read | Refusal::Write => 4,
        }
    }

    /// The line on standard error.
    fn line(self) -> &'static str {
        match self {
            Refusal::Usage => "usage: mainctx WORKERS fixed|queue\n",
            Refusal::Script(ScriptFault::NotJson) => "script: not json\n",
            Refusal::Script(ScriptFault::Shape) => "script: shape\n",
            Refusal::Script(ScriptFault::Limit) => "script: limit\n",
            Refusal::Script(ScriptFault::Reference) => "script: reference\n",
            Refusal::Script(ScriptFault::Rule) => "script: rule\n",
            Refusal::Setup => "setup: workers\n",
            Refusal::Script(ScriptFault::OutOfMemory) | Refusal::Memory => "memory\n",
            Refusal::Read => "read\n",
            Refusal::Write => "write\n",
        }
    }
}

/// Writes the line of a refusal, and answers its status. That the line could not be written is no fault.
pub fn refuse<E: Write>(refusal: Refusal, errors: &mut E) -> u8
    ensures { result ≡ status_of refusal }
{
    let _ = errors.write_all(refusal.line().as_bytes());
    refusal.status()
}

/// Does what the arguments say.
fn attempt<X: Threads + Wait + Sync, R: Read, W: Out>(
    rt: &X,
    alloc: Global,
    args: &[String],
    input: &mut R,
    out: &mut W,
) -> Result<(), Refusal>
    ensures text { OnOk result (Serves (R.remaining input.old) (W.taken out.old) (W.taken out.new)) }
    ensures refusal { IfErr result (λ refusal. Leaves args.now (R.remaining input.old) refusal (W.taken out.old) (W.taken out.new)) }
    ensures usage { (result ≡ Err Refusal.Usage) ↔ ¬ ((asked : Asked) × AskFor args.now asked) }
    ensures write { (result ≡ Err Refusal.Write) ↔ (W.failures out.old < W.failures out.new) }
    ensures known { GrowAlike (W.taken out.old) (W.taken out.new) (W.contents out.old) (W.contents out.new) }
    ensures holds { OnOk result (ServesHolder (R.remaining input.old) (W.contents out.old) (W.contents out.new)) }
{
    let Some(Asked { workers, sharing }) = Asked::read(args) else {
        return Err(Refusal::Usage);
    };
    let script = match read_input(alloc, input) {
        Ok(script) => script,
        Err(InputFault::OutOfMemory) => return Err(Refusal::Memory),
        Err(_) => return Err(Refusal::Read),
    };
    match run_leaking(
        rt,
        alloc,
        script.as_slice(),
        workers,
        sharing,
        &OpenGate,
        out,
    ) {
        Ok(()) => Ok(()),
        Err(MainFault::Script(fault)) => Err(Refusal::Script(fault)),
        Err(MainFault::Setup(_)) => Err(Refusal::Setup),
        Err(MainFault::OutOfMemory) => Err(Refusal::Memory),
        Err(MainFault::Write) => Err(Refusal::Write),
    }
}

/// Runs the script of `input` by the arguments, and answers the exit status: 0 where the text was written.
pub fn serve<X: Threads + Wait + Sync, R: Read, W: Out, E: Write>(
    rt: &X,
    alloc: Global,
    args: &[String],
    input: &mut R,
    out: &mut W,
    errors: &mut E,
) -> u8
    ensures text { result ≡ 0 → Serves (R.remaining input.old) (W.taken out.old) (W.taken out.new) }
    ensures nothing { 1 ≤ result → result ≤ 3 → W.taken out.new ≡ W.taken out.old }
    ensures prefix { result ≡ 4 → (W.taken out.new ≡ W.taken out.old) ⊎ ServesPrefix (R.remaining input.old) (W.taken out.old) (W.taken out.new) }
    ensures failed { W.failures out.old < W.failures out.new → result ≡ 4 }
    ensures rose { result ≡ 4 → (W.taken out.new ≡ W.taken out.old) ⊎ (W.failures out.old < W.failures out.new) }
    ensures status { result ≤ 4 }
    ensures usage { (result ≡ 1) ↔ ¬ ((asked : Asked) × AskFor args.now asked) }
    ensures script { result ≡ 2 → HasFault (R.remaining input.old) ⊎ HasNoCrew args.now (R.remaining input.old) }
    ensures known { GrowAlike (W.taken out.old) (W.taken out.new) (W.contents out.old) (W.contents out.new) }
    ensures holds { result ≡ 0 → ServesHolder (R.remaining input.old) (W.contents out.old) (W.contents out.new) }
{
    match attempt(rt, alloc, args, input, out) {
        Ok(()) => 0,
        Err(refusal) => refuse(refusal, errors),
    }
}
