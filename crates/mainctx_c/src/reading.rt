//! Reading a script of either form for a call from C, and the names that it gives.
ghost use Rattle.std.specs.Prelude.{◌≡◌, ◌≢◌, Some, Ok, IfOk, IfErr};
ghost use Rattle.loop_script.specs.Script.{Answers};
ghost use Rattle.loop_script.specs.declared.fault.ScriptFault.TheVariants.{OutOfMemory};
ghost use Rattle.mainctx_c.specs.Form.{AreTold, IsRefusedBy, numbers_of};
ghost use Rattle.script_report.specs.Verdict.{IsOfForm};

use loop_script::{Script, ScriptFault};
use named::translate_bytes;
use run_names::RunNames;
use script_report::Either;
use std::alloc::{AllocError, Global};

/// A script of either form, read.
#[derive(Drop)]
pub(crate) struct Reading {
    pub(crate) script: Script,
    pub(crate) form: Either,
}

impl Reading {
    /// The script of numbers: the bytes that were read, or what they stand for.
    pub(crate) fn numbers<'a>(&'a self, bytes: &'a [u8]) -> &'a [u8]
        ensures { result.now ≡ numbers_of bytes.now self.now.form }
    {
        match &self.form {
            Either::Numbers => bytes,
            Either::Names(numbered) => numbered.as_slice(),
        }
    }
}

/// Reads a script of either form. The fault is the class of the script of numbers that the bytes stand for, where they stand for one, else
/// their own as a script of numbers. `OutOfMemory` comes only where a request for memory was refused.
pub(crate) fn read_script(alloc: Global, bytes: &[u8]) -> Result<Reading, ScriptFault>
    ensures form { IfOk result (λ reading. IsOfForm bytes.now (Some reading.form)) }
    ensures script { IfOk result (λ reading. Answers (numbers_of bytes.now reading.form) (Ok reading.script)) }
    ensures fault { IfErr result (λ fault. fault ≢ OutOfMemory → IsRefusedBy bytes.now fault) }
{
    let own = match Script::read(alloc, bytes) {
        Ok(script) => {
            return Ok(Reading {
                script,
                form: Either::Numbers,
            });
        }
        Err(ScriptFault::OutOfMemory) => return Err(ScriptFault::OutOfMemory),
        Err(fault) => fault,
    };
    match translate_bytes(alloc, bytes) {
        Err(_) => Err(ScriptFault::OutOfMemory),
        Ok(None) => Err(own),
        Ok(Some(numbered)) => match Script::read(alloc, numbered.as_slice()) {
            Ok(script) => Ok(Reading {
                script,
                form: Either::Names(numbered),
            }),
            Err(fault) => Err(fault),
        },
    }
}

/// The names of a script of a form, before anything has happened; of one of numbers none.
pub(crate) fn names_of(alloc: Global, bytes: &[u8], form: &Either) -> Result<RunNames, AllocError>
    ensures { IfOk result (λ told. AreTold bytes.now form.now told.names) }
{
    match form {
        Either::Numbers => Ok(RunNames::numbers(alloc)),
        Either::Names(_) => RunNames::of_bytes(alloc, bytes),
    }
}
