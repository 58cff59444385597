//! Contexts that are given to other lanes, with 1, 2 and 64 workers and each way of sharing; other scripts that give are vectors.
use crate::table_tests::{Way, expect_ran};
use crate::worked::{Worked, given_with_letters, gives, missing_gives};
use std::alloc::Global;
use std::process::Abort;
use std::sync::Wait;
use std::thread::Threads;

/// The text with so many workers, in each way of sharing.
fn expect_of_workers<T: Threads + Wait + Sync + Abort>(
    rt: &T,
    alloc: Global,
    worked: Worked,
    workers: u32,
    table: &'static [u32],
) {
    let wanted = worked.text.as_bytes();
    let table = Way::Table(table);
    expect_ran(rt, alloc, worked.script, workers, table, wanted);
    expect_ran(rt, alloc, worked.script, workers, Way::Round, wanted);
    expect_ran(rt, alloc, worked.script, workers, Way::Queue, wanted);
}

fn expect_of_all<T: Threads + Wait + Sync + Abort>(rt: &T, alloc: Global, worked: Worked) {
    expect_of_workers(rt, alloc, worked, 1, worked.alone);
    expect_of_workers(rt, alloc, worked, 2, worked.shared);
    expect_of_workers(rt, alloc, worked, 64, worked.shared);
}

#[test]
fn gives_by_all(rt: HostRuntime) {
    expect_of_all(&rt, rt.alloc(), gives());
}

#[test]
fn missing_gives_by_all(rt: HostRuntime) {
    expect_of_all(&rt, rt.alloc(), missing_gives());
}

#[test]
fn given_with_letters_by_all(rt: HostRuntime) {
    expect_of_all(&rt, rt.alloc(), given_with_letters());
}
