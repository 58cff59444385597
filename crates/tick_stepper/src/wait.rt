//! A wait for what comes by a channel.
use crossbeam_channel::{Receiver, TryRecvError};
use std::hint::spin_loop;
use std::sync::Wait;

/// How often a thread looks for a message before it sleeps. A round to a worker and back took 1 to 1.5 microseconds where
/// both looked so often, 3 to 5 where both slept, and 21 to 26 where a thread was started for it.
const LOOKS: u32 = 100;

/// The next message of a channel, and none where its senders are gone.
pub(crate) fn next<T: Drop, R: Wait>(rt: &R, from: &Receiver<T>) -> Option<T> {
    for _ in 0..LOOKS {
        match from.try_recv(rt) {
            Ok(message) => return Some(message),
            Err(TryRecvError::Disconnected) => return None,
            Err(TryRecvError::Empty) => spin_loop(),
        }
    }
    from.recv(rt).ok()
}
