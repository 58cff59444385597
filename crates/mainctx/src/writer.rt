//! Writers that tell what they take and count what fails, and the writing of all bytes to one.
ghost use Rattle.std.specs.Prelude.{◌≡◌, ℕ, ◌+◌, ◌<◌, ◌≤◌, List, [], ◌++◌, Option, length, is_ok, if◌then◌else◌, IfOk, OnOk, OnErr};
ghost use Rattle.std.specs.Io.KnownBytes.{Keeps, WriteAppends};
ghost use Rattle.mainctx.specs.Writing.{took, missed, AddsPrefix, GrowAlike};

use std::io::Write;
use thiserror::Error;
use told::Told;

/// A write or a flush failed.
#[derive(Clone, Copy, Debug, Drop, Error, PartialEq, Eq)]
#[error("write")]
pub struct OutFault;

/// A writer that tells the bytes that it takes, and counts its failures: the calls that failed,
/// and the writes of at least one byte that took none. Where what it holds is known, that grows by the same bytes.
pub trait Out {
    ghost taken: { Self → List ℕ };

    ghost failures: { Self → ℕ };

    // The bytes that the writer itself holds, where they are known.
    ghost contents: { Self → Option (List ℕ) };

    /// Takes a prefix of `bytes`, and answers how many.
    fn write(&mut self, bytes: &[u8]) -> Result<usize, OutFault>
        ensures bound { IfOk result (λ n. n ≤ length bytes.now) }
        ensures taken { taken self.new ≡ taken self.old ++ took result bytes.now }
        ensures failures { failures self.new ≡ failures self.old + missed result bytes.now }
        ensures known { WriteAppends (contents self.old) (contents self.new) result bytes.now };

    /// Hands on what was taken.
    fn flush(&mut self) -> Result<(), OutFault>
        ensures taken { taken self.new ≡ taken self.old }
        ensures failures { failures self.new ≡ failures self.old + (if is_ok result then 0 else 1) }
        ensures known { Keeps (contents self.old) (contents self.new) };
}

/// Any writer, with what it was told.
#[derive(Drop)]
pub struct OverWrite<W: Write> {
    inner: W,
    told: Told,
}

impl<W: Write> OverWrite<W> {
    /// Begins with nothing taken and nothing failed.
    pub fn new(inner: W) -> Self
        ensures inner { result.inner ≡ inner }
        ensures told { (result.told.taken ≡ []) × (result.told.failures ≡ 0) }
    {
        OverWrite {
            inner,
            told: Told::new(),
        }
    }

    /// The writer.
    pub fn into_inner(self) -> W
        ensures { result ≡ self.inner }
    {
        let OverWrite { inner, told: _ } = self;
        inner
    }
}

impl<W: Write> Out for OverWrite<W> {
    ghost taken = { λ s. s.told.taken };

    ghost failures = { λ s. s.told.failures };

    ghost contents = { λ s. W.contents s.inner };

    fn write(&mut self, bytes: &[u8]) -> Result<usize, OutFault> {
        match self.inner.write(bytes) {
            Ok(n) => {
                if n == 0 && !bytes.is_empty() {
                    self.told.failed();
                }
                self.told.took(&bytes[..n]);
                Ok(n)
            }
            Err(_) => {
                self.told.failed();
                Err(OutFault)
            }
        }
    }

    fn flush(&mut self) -> Result<(), OutFault> {
        match self.inner.flush() {
            Ok(()) => Ok(()),
            Err(_) => {
                self.told.failed();
                Err(OutFault)
            }
        }
    }
}

/// Writes all bytes. It stops at the first failure, with a prefix of them taken.
pub(crate) fn write_all<W: Out>(out: &mut W, bytes: &[u8]) -> Result<(), OutFault>
    ensures whole { OnOk result (W.taken out.new ≡ W.taken out.old ++ bytes.now) }
    ensures clean { OnOk result (W.failures out.new ≡ W.failures out.old) }
    ensures prefix { OnErr result (AddsPrefix (W.taken out.old) (W.taken out.new) bytes.now) }
    ensures failed { OnErr result (W.failures out.old < W.failures out.new) }
    ensures known { GrowAlike (W.taken out.old) (W.taken out.new) (W.contents out.old) (W.contents out.new) }
{
    let mut rest = bytes;
    'rest: while !rest.is_empty() {
        let n = out.write(rest)?;
        if n == 0 {
            return Err(OutFault);
        }
        rest = &rest[n..];
    }
    Ok(())
}
