//! Reading a script whole, up to a limit.
ghost use Rattle.std.specs.Prelude.{◌≡◌, ◌≤◌, IfOk, vec_len};
ghost use Rattle.program_input.specs.Input.{IsRestOf, input_limit};

use crate::fault::InputFault;
use std::alloc::Global;
use std::fs::File;
use std::io::Read;

/// The most bytes that a script may have.
pub const INPUT_LIMIT: usize = 4_194_304;

/// How many bytes one read asks for.
const ROOM: usize = 65_536;

/// All bytes that are left, where there are at most `INPUT_LIMIT`. Any failed read ends it.
///
/// # Errors
///
/// `Unreadable` where a read failed, `TooLong` where there are more bytes, `OutOfMemory` where memory was refused. What was read by then is gone.
pub fn read_input<R: Read>(alloc: Global, input: &mut R) -> Result<Vec<u8>, InputFault>
    ensures whole { IfOk result (λ bytes. IsRestOf (R.remaining input.old) bytes.items) }
    ensures limit { IfOk result (λ bytes. vec_len bytes ≤ input_limit) }
    ensures constant { INPUT_LIMIT ≡ input_limit }
{
    let mut space = vec![in alloc; 0u8; ROOM]?;
    let room = space.as_mut_slice();
    let mut bytes = Vec::new(alloc);
    'input: while bytes.len() <= INPUT_LIMIT {
        let n = match input.read(room) {
            Ok(n) => n,
            Err(_) => return Err(InputFault::Unreadable),
        };
        if n == 0 {
            return Ok(bytes);
        }
        bytes.extend_from_slice(&room[..n])?;
    }
    Err(InputFault::TooLong)
}

/// The bytes of a file, or of standard input where none is named or its name is `-`.
///
/// # Errors
///
/// Those of `read_input`, and `Unreadable` where the file can't be opened.
pub fn read_script(rt: &HostRuntime, file: Option<&str>) -> Result<Vec<u8>, InputFault>
    ensures limit { IfOk result (λ bytes. vec_len bytes ≤ input_limit) }
{
    match file {
        Some(path) if path != "-" => match File::open(rt, path) {
            Ok(mut opened) => read_input(rt.alloc(), &mut opened),
            Err(_) => Err(InputFault::Unreadable),
        },
        _ => read_input(rt.alloc(), &mut rt.stdin()),
    }
}
