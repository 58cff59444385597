//! Writers that take little, refuse or fail to flush, and a reader that breaks off.
use crate::expected::expect_same;
use crate::refused_tests::{all_came, nothing_came, right_arguments, served};
use crate::script_tests::{first_run, first_run_text};
use crate::table_tests::{Way, run};
use mainctx::{MainFault, OverWrite};
use std::alloc::Global;
use std::io;
use std::io::{ErrorKind, Read, Write};
use std::process::Abort;
use std::sync::Wait;
use std::thread::Threads;
use tick_stepper::OpenGate;

/// Takes so many bytes, three at a time, and then does what `then` says.
#[derive(Drop)]
pub(crate) struct Short {
    room: usize,
    then: Then,
    pub(crate) got: Vec<u8>,
}

#[derive(Clone, Copy, Drop, PartialEq, Eq)]
pub(crate) enum Then {
    Fail,
    TakeNone,
    FailFlush,
}

impl Short {
    pub(crate) fn new(alloc: Global, room: usize, then: Then) -> Self {
        Short {
            room,
            then,
            got: Vec::new(alloc),
        }
    }
}

impl Write for Short {
    fn write(&mut self, buf: &[u8]) -> io::Result<usize> {
        let n = buf.len().min(self.room).min(3);
        if n == 0 && self.then == Then::Fail {
            return Err(io::Error::from(ErrorKind::Interrupted));
        }
        if self.got.extend_from_slice(&buf[..n]).is_err() {
            return Err(io::Error::from(ErrorKind::OutOfMemory));
        }
        self.room -= n;
        Ok(n)
    }

    fn flush(&mut self) -> io::Result<()> {
        match self.then {
            Then::FailFlush => Err(io::Error::from(ErrorKind::BrokenPipe)),
            Then::Fail | Then::TakeNone => Ok(()),
        }
    }
}

/// Runs the first script over a writer with so much room; its answer, and what the writer has got.
fn ran_over<T: Threads + Wait + Sync>(
    rt: &T,
    alloc: Global,
    room: usize,
    then: Then,
) -> (Result<(), MainFault>, Vec<u8>) {
    let mut short = Short::new(alloc, room, then);
    let mut out = OverWrite::new(&mut short);
    let result = run(rt, alloc, first_run(), 1, Way::Round, &OpenGate, &mut out);
    (result, short.got)
}

/// A run over such a writer can't be written, and the writer has got these bytes.
fn expect_got<T: Threads + Wait + Sync + Abort>(
    rt: &T,
    alloc: Global,
    room: usize,
    then: Then,
    wanted: &[u8],
) {
    let (result, got) = ran_over(rt, alloc, room, then);
    expect_same(rt, (room, result), (room, Err(MainFault::Write)));
    expect_same(rt, (room, got.as_slice()), (room, wanted));
}

/// The bytes of the text for which there is room, however little.
fn expect_prefixes<T: Threads + Wait + Sync + Abort>(rt: &T, alloc: Global, then: Then) {
    let text = first_run_text().as_bytes();
    for room in 0..text.len() {
        expect_got(rt, alloc, room, then, &text[..room]);
    }
}

#[test]
fn writes_a_prefix(rt: HostRuntime) {
    expect_prefixes(&rt, rt.alloc(), Then::Fail);
    expect_prefixes(&rt, rt.alloc(), Then::TakeNone);
}

fn ten_bytes() -> &'static str {
    "thread 0\n0"
}

#[test]
fn takes_ten_bytes(rt: HostRuntime) {
    expect_got(&rt, rt.alloc(), 10, Then::Fail, ten_bytes().as_bytes());
}

#[test]
fn fails_to_flush(rt: HostRuntime) {
    let text = first_run_text().as_bytes();
    expect_got(&rt, rt.alloc(), 1000, Then::FailFlush, text);
}

/// Gives bytes, three at a time, and then fails.
#[derive(Drop)]
struct Broken<'a> {
    rest: &'a [u8],
}

impl Read for Broken<'_> {
    fn read(&mut self, buf: &mut [u8]) -> io::Result<usize> {
        if self.rest.is_empty() {
            return Err(io::Error::from(ErrorKind::Interrupted));
        }
        let n = buf.len().min(3);
        self.rest.read(&mut buf[..n])
    }
}

fn read() -> &'static str {
    "read\n"
}

/// Serves an input that gives these bytes and fails: status 4 with its line, and nothing written.
fn expect_read<T: Threads + Wait + Sync + Abort>(
    rt: &T,
    alloc: Global,
    args: &[String],
    given: &[u8],
) {
    let served = served(rt, alloc, args, &mut Broken { rest: given }, read());
    let nothing_written = nothing_came(&served.out, first_run_text());
    expect_same(
        rt,
        (served.status, nothing_written, all_came(&served.errors)),
        (4, true, true),
    );
}

fn expect_no_prefix<T: Threads + Wait + Sync + Abort>(rt: &T, alloc: Global, args: &[String]) {
    let script = first_run().as_bytes();
    for given in 0..=script.len() {
        expect_read(rt, alloc, args, &script[..given]);
    }
}

/// Wherever the input breaks off, behind its last byte too.
#[test]
fn reads_no_prefix(rt: HostRuntime) {
    match right_arguments(rt.alloc()) {
        Some(args) => expect_no_prefix(&rt, rt.alloc(), &args),
        None => assert!(rt; false),
    }
}
