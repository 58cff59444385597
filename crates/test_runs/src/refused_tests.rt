//! Runs with memory refused, over writers that only compare.
use crate::expected::expect_same;
use crate::script_tests::{first_run, first_run_text};
use crate::table_tests::{Way, run};
use crate::worked::{Worked, cancels, given_with_letters, gives, ownership, posts, tasks};
use mainctx::{MainFault, OverWrite, run_alone, serve};
use std::alloc::Global;
use std::io;
use std::io::{Cursor, Read, Write};
use std::process::Abort;
use std::sync::Wait;
use std::thread::Threads;
use tick_stepper::OpenGate;

/// Compares what it is given with the rest of a text, and keeps nothing.
#[derive(Drop)]
pub(crate) struct Compared<'a> {
    rest: &'a [u8],
    differs: bool,
}

impl Write for Compared<'_> {
    fn write(&mut self, buf: &[u8]) -> io::Result<usize> {
        match self.rest.strip_prefix(buf) {
            Some(rest) => self.rest = rest,
            None => self.differs = true,
        }
        Ok(buf.len())
    }

    fn flush(&mut self) -> io::Result<()> {
        Ok(())
    }
}

/// A writer that expects a text.
pub(crate) fn expecting(text: &'static str) -> Compared<'static> {
    Compared {
        rest: text.as_bytes(),
        differs: false,
    }
}

pub(crate) fn all_came(it: &Compared<'_>) -> bool {
    !it.differs && it.rest.is_empty()
}

pub(crate) fn nothing_came(it: &Compared<'_>, text: &str) -> bool {
    !it.differs && it.rest.len() == text.len()
}

/// Where a request for memory was refused: nothing written, or the exact text.
fn expect(rt: &impl Abort, answer: Result<(), MainFault>, out: &Compared<'_>, text: &str) {
    match answer {
        Ok(()) => assert!(rt; all_came(out)),
        Err(fault) => {
            expect_same(rt, fault, MainFault::OutOfMemory);
            assert!(rt; nothing_came(out, text));
        }
    }
}

/// Whether a run of a script with so many workers found no memory; its text is right where it did.
fn is_refused<T: Threads + Wait + Sync + Abort>(
    rt: &T,
    alloc: Global,
    script: &str,
    text: &'static str,
    workers: u32,
    way: Way,
) -> bool {
    let mut out = OverWrite::new(expecting(text));
    let result = run(rt, alloc, script, workers, way, &OpenGate, &mut out);
    expect(rt, result, &out.into_inner(), text);
    result.is_err()
}

#[test]
fn refused_run(rt: HostRuntime) {
    let text = first_run_text();
    let _refused = is_refused(&rt, rt.alloc(), first_run(), text, 1, Way::Round);
}

/// The same of a script whose lanes so many workers share in each way: one run of three may find no memory.
fn expect_shared<T: Threads + Wait + Sync + Abort>(
    rt: &T,
    alloc: Global,
    worked: Worked,
    workers: u32,
    table: &'static [u32],
) {
    let script = worked.script;
    let rounds = is_refused(rt, alloc, script, worked.text, workers, Way::Round);
    let queue = is_refused(rt, alloc, script, worked.text, workers, Way::Queue);
    let table = Way::Table(table);
    let fixed = is_refused(rt, alloc, script, worked.text, workers, table);
    assert!(rt; !(rounds && queue || rounds && fixed || queue && fixed));
}

fn expect_alone<T: Threads + Wait + Sync + Abort>(rt: &T, alloc: Global, worked: Worked) {
    expect_shared(rt, alloc, worked, 1, worked.alone);
}

fn expect_of_two<T: Threads + Wait + Sync + Abort>(rt: &T, alloc: Global, worked: Worked) {
    expect_shared(rt, alloc, worked, 2, worked.shared);
}

#[test]
fn refused_posts_of_one_worker(rt: HostRuntime) {
    expect_alone(&rt, rt.alloc(), posts());
}

#[test]
fn refused_posts_of_two_workers(rt: HostRuntime) {
    expect_of_two(&rt, rt.alloc(), posts());
}

#[test]
fn refused_cancels_of_one_worker(rt: HostRuntime) {
    expect_alone(&rt, rt.alloc(), cancels());
}

#[test]
fn refused_cancels_of_two_workers(rt: HostRuntime) {
    expect_of_two(&rt, rt.alloc(), cancels());
}

#[test]
fn refused_tasks_of_one_worker(rt: HostRuntime) {
    expect_alone(&rt, rt.alloc(), tasks());
}

#[test]
fn refused_tasks_of_two_workers(rt: HostRuntime) {
    expect_of_two(&rt, rt.alloc(), tasks());
}

#[test]
fn refused_ownership_of_one_worker(rt: HostRuntime) {
    expect_alone(&rt, rt.alloc(), ownership());
}

#[test]
fn refused_ownership_of_two_workers(rt: HostRuntime) {
    expect_of_two(&rt, rt.alloc(), ownership());
}

#[test]
fn refused_gives_of_one_worker(rt: HostRuntime) {
    expect_alone(&rt, rt.alloc(), gives());
}

#[test]
fn refused_gives_of_two_workers(rt: HostRuntime) {
    expect_of_two(&rt, rt.alloc(), gives());
}

#[test]
fn refused_give_with_letters_of_one_worker(rt: HostRuntime) {
    expect_alone(&rt, rt.alloc(), given_with_letters());
}

#[test]
fn refused_give_with_letters_of_two_workers(rt: HostRuntime) {
    expect_of_two(&rt, rt.alloc(), given_with_letters());
}

/// The same of a run by the caller's thread alone, which needs no handle.
pub(crate) fn is_refused_alone(
    rt: &impl Abort,
    alloc: Global,
    script: &str,
    text: &'static str,
) -> bool {
    let mut out = OverWrite::new(expecting(text));
    let result = run_alone(alloc, script.as_bytes(), &mut out);
    expect(rt, result, &out.into_inner(), text);
    result.is_err()
}

fn expect_by_caller(rt: &impl Abort, alloc: Global, worked: Worked) {
    let _refused = is_refused_alone(rt, alloc, worked.script, worked.text);
}

#[test]
fn refused_by_the_caller(rt: HostRuntime) {
    expect_by_caller(&rt, rt.alloc(), posts());
}

#[test]
fn refused_tasks_by_the_caller(rt: HostRuntime) {
    expect_by_caller(&rt, rt.alloc(), tasks());
}

#[test]
fn refused_gives_by_the_caller(rt: HostRuntime) {
    expect_by_caller(&rt, rt.alloc(), gives());
}

fn memory() -> &'static str {
    "memory\n"
}

pub(crate) fn right_arguments(alloc: Global) -> Option<[String; 2]> {
    match ("1".to_string(alloc), "fixed".to_string(alloc)) {
        (Ok(workers), Ok(sharing)) => Some([workers, sharing]),
        _ => None,
    }
}

/// What came of an input that was served: the status, and what writers that expect the first script's text and a line then still do.
#[derive(Drop)]
pub(crate) struct Ended {
    pub(crate) status: u8,
    pub(crate) out: Compared<'static>,
    pub(crate) errors: Compared<'static>,
}

pub(crate) fn served<T: Threads + Wait + Sync, R: Read>(
    rt: &T,
    alloc: Global,
    args: &[String],
    input: &mut R,
    line: &'static str,
) -> Ended {
    let mut out = OverWrite::new(expecting(first_run_text()));
    let mut errors = expecting(line);
    let status = serve(rt, alloc, args, input, &mut out, &mut errors);
    Ended {
        status,
        out: out.into_inner(),
        errors,
    }
}

/// The text and no line, or the line and no text.
fn is_whole(served: &Ended) -> bool {
    if served.status == 0 {
        all_came(&served.out) && nothing_came(&served.errors, memory())
    } else {
        served.status == 3
            && nothing_came(&served.out, first_run_text())
            && all_came(&served.errors)
    }
}

fn expect_served<T: Threads + Wait + Sync + Abort>(rt: &T, alloc: Global, args: &[String]) {
    let mut input = Cursor::new(first_run().as_bytes());
    assert!(rt; is_whole(&served(rt, alloc, args, &mut input, memory())));
}

/// The same through `serve`, whose line is then `memory`.
#[test]
fn refused_serve(rt: HostRuntime) {
    if let Some(args) = right_arguments(rt.alloc()) {
        expect_served(&rt, rt.alloc(), &args);
    }
}
