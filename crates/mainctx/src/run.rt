//! The public calls: from the bytes of a script to the bytes of its text, by workers or on one thread, with the faults that they answer.
ghost use Rattle.std.specs.Prelude.{◌≡◌, ◌≢◌, ◌<◌, ◌++◌, ◌↔◌, OnOk, OnErr, IfOk, IfErr, Err};
ghost use Rattle.mainctx.specs.Run.{IsCrewFor, IsLoneFaultOf, IsRunFaultOf, IsScriptOf, IsWriteFault, Writes, WritesPrefix, HoldsText};
ghost use Rattle.mainctx.specs.Text.{text_of};
ghost use Rattle.mainctx.specs.Writing.{AddsPrefix, GrowAlike};

use crate::buffer::Buffer;
use crate::ended::Ended;
use crate::text::OutOfMemory;
use crate::writer::{Out, OutFault};
use loop_script::{Script, ScriptFault};
use std::alloc::Global;
use std::mem;
use std::sync::Wait;
use std::thread::Threads;
use thiserror::Error;
use tick_stepper::{Gate, Sharing, StepFault};

/// Why a run wrote no whole text.
#[derive(Clone, Copy, Debug, Drop, Error, PartialEq, Eq)]
pub enum MainFault {
    /// The bytes are no script; the class of the fault is never `OutOfMemory`.
    #[error("script: {0}")]
    Script(ScriptFault),
    /// The lanes of the script can't be shared out so: the class is `Workers` or `Table`. Nothing was written.
    #[error("setup: {0}")]
    Setup(StepFault),
    /// A request for memory was refused; nothing was written.
    #[error("memory")]
    OutOfMemory,
    /// A write or the flush failed; a prefix of the text was written.
    #[error("write")]
    Write,
}

impl From<OutOfMemory> for MainFault {
    ghost use Rattle.mainctx.specs.declared.run.MainFault.TheVariants as faults;

    ghost from_gives = { λ _ fault. fault ≡ faults.OutOfMemory };

    fn from(_: OutOfMemory) -> Self {
        MainFault::OutOfMemory
    }
}

/// Reads a script, and runs it to its end.
fn run_to_end<R: Threads + Wait + Sync, G: Gate>(
    rt: &R,
    alloc: Global,
    bytes: &[u8],
    workers: u32,
    sharing: Sharing,
    gate: &G,
) -> Result<Ended, MainFault>
    ensures script { IfOk result (λ ended. IsScriptOf bytes.now ended) }
    ensures crew { OnOk result (IsCrewFor bytes.now workers sharing) }
    ensures fault { IfErr result (λ fault. IsRunFaultOf bytes.now workers sharing fault) }
    ensures not_write { result ≢ Err MainFault.Write }
{
    let script = match Script::read(alloc, bytes) {
        Ok(script) => script,
        Err(ScriptFault::OutOfMemory) => return Err(MainFault::OutOfMemory),
        Err(fault) => return Err(MainFault::Script(fault)),
    };
    Ended::new(rt, alloc, script, workers, sharing, gate)
}

/// Writes the text of a run that has ended.
#[tactic(auto, using(crate::proofs::Alike::alike_none))]
fn write_ended<W: Out>(alloc: Global, ended: &Ended, out: &mut W) -> Result<(), MainFault>
    ensures text { OnOk result (W.taken out.new ≡ W.taken out.old ++ text_of ended.now) }
    ensures fault { IfErr result IsWriteFault }
    ensures write { (result ≡ Err MainFault.Write) ↔ (W.failures out.old < W.failures out.new) }
    ensures prefix { result ≡ Err MainFault.Write → AddsPrefix (W.taken out.old) (W.taken out.new) (text_of ended.now) }
    ensures nothing { OnErr result (result ≢ Err MainFault.Write → W.taken out.new ≡ W.taken out.old) }
    ensures known { GrowAlike (W.taken out.old) (W.taken out.new) (W.contents out.old) (W.contents out.new) }
{
    let mut buffer = Buffer::new(alloc)?;
    match ended.write(&mut buffer, out) {
        Ok(()) => Ok(()),
        Err(OutFault) => Err(MainFault::Write),
    }
}

/// Reads a script, runs it with the turns of its lanes shared out among workers, each taken through the gate, and writes
/// its text when the run has ended. What the writer itself holds,
/// where that is known, grows by what it is told to have taken.
#[tactic(auto, using(crate::proofs::Alike::alike_none, crate::proofs::Setups::run_fault))]
pub fn run_bytes<R: Threads + Wait + Sync, G: Gate, W: Out>(
    rt: &R,
    alloc: Global,
    bytes: &[u8],
    workers: u32,
    sharing: Sharing,
    gate: &G,
    out: &mut W,
) -> Result<(), MainFault>
    ensures text { OnOk result (Writes bytes.now (W.taken out.old) (W.taken out.new)) }
    ensures crew { OnOk result (IsCrewFor bytes.now workers sharing) }
    ensures script { IfErr result (λ fault. IsRunFaultOf bytes.now workers sharing fault) }
    ensures write { (result ≡ Err MainFault.Write) ↔ (W.failures out.old < W.failures out.new) }
    ensures prefix { result ≡ Err MainFault.Write → WritesPrefix bytes.now (W.taken out.old) (W.taken out.new) }
    ensures nothing { OnErr result (result ≢ Err MainFault.Write → W.taken out.new ≡ W.taken out.old) }
    ensures known { GrowAlike (W.taken out.old) (W.taken out.new) (W.contents out.old) (W.contents out.new) }
    ensures holds { OnOk result (HoldsText bytes.now (W.contents out.old) (W.contents out.new)) }
{
    let ended = run_to_end(rt, alloc, bytes, workers, sharing, gate)?;
    write_ended(alloc, &ended, out)?;
    Ok(())
}

/// Does what `run_bytes` does, for a program that ends then: what a run held that was written whole is not given back piece by
/// piece, since the system takes all of it at once.
#[tactic(auto, using(crate::proofs::Alike::alike_none, crate::proofs::Setups::run_fault))]
pub(crate) fn run_leaking<R: Threads + Wait + Sync, G: Gate, W: Out>(
    rt: &R,
    alloc: Global,
    bytes: &[u8],
    workers: u32,
    sharing: Sharing,
    gate: &G,
    out: &mut W,
) -> Result<(), MainFault>
    ensures text { OnOk result (Writes bytes.now (W.taken out.old) (W.taken out.new)) }
    ensures crew { OnOk result (IsCrewFor bytes.now workers sharing) }
    ensures script { IfErr result (λ fault. IsRunFaultOf bytes.now workers sharing fault) }
    ensures write { (result ≡ Err MainFault.Write) ↔ (W.failures out.old < W.failures out.new) }
    ensures prefix { result ≡ Err MainFault.Write → WritesPrefix bytes.now (W.taken out.old) (W.taken out.new) }
    ensures nothing { OnErr result (result ≢ Err MainFault.Write → W.taken out.new ≡ W.taken out.old) }
    ensures known { GrowAlike (W.taken out.old) (W.taken out.new) (W.contents out.old) (W.contents out.new) }
    ensures holds { OnOk result (HoldsText bytes.now (W.contents out.old) (W.contents out.new)) }
{
    let ended = run_to_end(rt, alloc, bytes, workers, sharing, gate)?;
    write_ended(alloc, &ended, out)?;
    mem::forget(ended);
    Ok(())
}

/// Reads a script and runs it to its end, in the caller's thread alone.
fn run_to_end_alone(alloc: Global, bytes: &[u8]) -> Result<Ended, MainFault>
    ensures script { IfOk result (λ ended. IsScriptOf bytes.now ended) }
    ensures fault { IfErr result (λ fault. IsLoneFaultOf bytes.now fault) }
    ensures not_write { result ≢ Err MainFault.Write }
{
    let script = match Script::read(alloc, bytes) {
        Ok(script) => script,
        Err(ScriptFault::OutOfMemory) => return Err(MainFault::OutOfMemory),
        Err(fault) => return Err(MainFault::Script(fault)),
    };
    Ok(Ended::alone(alloc, script)?)
}

/// Does what `run_bytes` does, for any number of workers: the caller takes each turn itself, and needs no handle for it. No
/// fault is `Setup`.
#[tactic(auto, using(crate::proofs::Alike::alike_none, crate::proofs::Setups::lone_fault))]
pub fn run_alone<W: Out>(alloc: Global, bytes: &[u8], out: &mut W) -> Result<(), MainFault>
    ensures text { OnOk result (Writes bytes.now (W.taken out.old) (W.taken out.new)) }
    ensures script { IfErr result (λ fault. IsLoneFaultOf bytes.now fault) }
    ensures write { (result ≡ Err MainFault.Write) ↔ (W.failures out.old < W.failures out.new) }
    ensures prefix { result ≡ Err MainFault.Write → WritesPrefix bytes.now (W.taken out.old) (W.taken out.new) }
    ensures nothing { OnErr result (result ≢ Err MainFault.Write → W.taken out.new ≡ W.taken out.old) }
    ensures known { GrowAlike (W.taken out.old) (W.taken out.new) (W.contents out.old) (W.contents out.new) }
    ensures holds { OnOk result (HoldsText bytes.now (W.contents out.old) (W.contents out.new)) }
{
    let ended = run_to_end_alone(alloc, bytes)?;
    write_ended(alloc, &ended, out)?;
    Ok(())
}
