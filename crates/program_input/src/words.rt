//! The words of a command line.
use crate::fault::InputFault;
use std::{env, io};

/// The words behind the program's name.
///
/// # Errors
///
/// `NotText` where one is not in UTF-8, `OutOfMemory` where memory was refused.
pub fn read_words(rt: &HostRuntime) -> Result<Vec<String>, InputFault> {
    let args = match env::args(rt) {
        Ok(args) => args,
        Err(fault) if fault.kind() == io::ErrorKind::OutOfMemory => {
            return Err(InputFault::OutOfMemory);
        }
        Err(_) => return Err(InputFault::NotText),
    };
    Ok(args.skip(1).collect::<Vec<String>>(rt.alloc())?)
}
