//! Calls of one function in several threads, which all are started by the thread that asks for them.
ghost use Rattle.std.specs.Prelude.{◌≡◌, ◌∷◌, [], IfOk, vec_len};
ghost use Rattle.std.specs.Fork.{AcceptsJobs, GivesJobs};
ghost use Rattle.std.specs.Fork.Halves.{GivesFor};
ghost use denote.Param.Send.{IsSync, IsSend};

use std::alloc::{AllocError, Global};
use std::thread::{Threads, join};

/// Calls `f` with each job: with the first in this thread, with each other in a thread of its own, which this one
/// starts; where none can be started, in this one too. The results are in the order of the jobs. No thread is started
/// by one that has only just begun itself: the system may leave such a thread on the core of the one that started it,
/// though another core is idle. On `Err`, which means that memory ran out, the results are dropped.
pub(crate) fn map_side_by_side<
    R: Threads + Sync,
    J: Send + Drop,
    X: Send + Drop,
    F: Fn(J) -> X + Sync,
>(rt: &R, jobs: Vec<J>, f: &F) -> Result<Vec<X>, AllocError>
    requires { AcceptsJobs F.Fn f.now jobs.items }
    ensures len { IfOk result (λ v. vec_len v ≡ vec_len jobs) }
    ensures each { IfOk result (λ v. GivesJobs F.Fn f.now jobs.items v.items) }
{
    call_each(rt, f, jobs)
}

/// The last job goes to a thread, and then this one sees to those before it.
#[cycle(jobs)]
fn call_each<R: Threads + Sync, J: Send + Drop, X: Send + Drop, F: Fn(J) -> X + Sync>(
    rt: &R,
    f: &F,
    mut jobs: Vec<J>,
) -> Result<Vec<X>, AllocError>
    requires { AcceptsJobs F.Fn f.now jobs.items }
    ensures { IfOk result (λ v. GivesFor F.Fn f.now jobs.items v.items) }
{
    let alloc = *jobs.allocator();
    let Some(last) = jobs.pop() else {
        return Ok(Vec::new(alloc));
    };
    if jobs.is_empty() {
        return result_of_one_job(alloc, f(last));
    }
    let there = move || -> X
        requires { F.pre f.now last }
        ensures { F.post f.entry.now last result }
    { f(last) };
    let here = move || -> Result<Vec<X>, AllocError>
        requires { IsSync R.row × IsSync F.row × IsSend J.row × IsSend X.row × AcceptsJobs F.Fn f.now jobs.items }
        ensures { IfOk result (λ v. GivesFor F.Fn f.entry.now jobs.items v.items) }
    { call_each(rt, f, jobs) };
    let (from_there, from_here) = join(rt, there, here);
    let mut all = from_here?;
    all.push(from_there)?;
    Ok(all)
}

/// The result of one job, where there are no others.
fn result_of_one_job<X: Drop>(alloc: Global, one: X) -> Result<Vec<X>, AllocError>
    ensures { IfOk result (λ all. all.items ≡ one ∷ []) }
{
    let mut all = Vec::new(alloc);
    all.push(one)?;
    Ok(all)
}
