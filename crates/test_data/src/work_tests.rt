//! Work lists: two threads that take, and memory refused.
ghost use Rattle.std.specs.Prelude.{◌≡◌, ◌≤◌, ℕ};

use crate::expected::expect_same;
use post_office::{Numbered, OutOfMemory, WorkList, WorkPass, WorkQueue};
use std::alloc::Global;
use std::process::Abort;
use std::sync::Wait;
use std::thread;
use std::thread::Threads;

/// What is put into a work list.
#[derive(Drop)]
struct Job {
    number: u32,
}

impl Numbered for Job {
    ghost number_of = { λ job. job.number };

    fn number(&self) -> u32 {
        self.number
    }
}

/// Takes four times, and tells the numbers of what was taken.
fn take_four<R: Wait>(
    rt: &R,
    queue: &WorkQueue<Job>,
    mut pass: WorkPass<Job>,
) -> (WorkPass<Job>, [Option<u32>; 4])
    requires { pass.home ≡ queue.now }
    ensures { result.0.home ≡ queue.now }
{
    let taken = [
        take_number(rt, queue, &mut pass),
        take_number(rt, queue, &mut pass),
        take_number(rt, queue, &mut pass),
        take_number(rt, queue, &mut pass),
    ];
    (pass, taken)
}

fn take_number<R: Wait>(rt: &R, queue: &WorkQueue<Job>, pass: &mut WorkPass<Job>) -> Option<u32>
    requires { pass.old.home ≡ queue.now }
    ensures { pass.new.home ≡ queue.now }
{
    number_of(queue.take(rt, pass))
}

fn number_of(job: Option<Job>) -> Option<u32> {
    match job {
        Some(job) => Some(job.number()),
        None => None,
    }
}

/// Two threads take four times each.
fn take_eight<R: Threads + Wait + Sync>(
    rt: &R,
    queue: &WorkQueue<Job>,
    one: WorkPass<Job>,
    two: WorkPass<Job>,
) -> (
    (WorkPass<Job>, [Option<u32>; 4]),
    (WorkPass<Job>, [Option<u32>; 4]),
)
    requires { (one.home ≡ queue.now) × (two.home ≡ queue.now) }
    ensures one { result.0.0.home ≡ queue.now }
    ensures two { result.1.0.home ≡ queue.now }
{
    thread::join(
        rt,
        move || take_four(rt, queue, one),
        move || take_four(rt, queue, two),
    )
}

/// Puts so many jobs by number, tells of each whether it was put, and expects back what was not.
fn put_all(rt: &(impl Wait + Abort), list: &mut WorkList<Job>, jobs: u32) -> [bool; 40]
    requires out { list.old.out ≡ 0 }
    requires jobs { jobs ≤ 40 }
    ensures { list.new.out ≡ 0 }
{
    let mut put = [false; 40];
    for number in 0..jobs {
        match list.put(rt, Job { number }) {
            Ok(()) => put[number as usize] = true,
            Err(back) => expect_same(rt, back.number(), number),
        }
    }
    put
}

/// How often a number was taken.
fn times_taken(taken: &[Option<u32>; 4], number: u32) -> usize {
    let mut times: usize = 0;
    for one in taken {
        if *one == Some(number) {
            times = times.saturating_add(1);
        }
    }
    times
}

/// Whether one of two took a number, which both may not, and neither where it was not put.
fn is_taken(
    rt: &impl Abort,
    one: &[Option<u32>; 4],
    two: &[Option<u32>; 4],
    number: u32,
    put: bool,
) -> bool {
    let times = (times_taken(one, number), times_taken(two, number));
    let taken = times == (1, 0) || times == (0, 1);
    expect_same(
        rt,
        (number, times == (0, 0) || taken && put),
        (number, true),
    );
    taken
}

/// What a list gives once all passes are back.
fn expect_left(rt: &(impl Wait + Abort), list: &mut WorkList<Job>, wanted: Option<u32>)
    requires { list.old.out ≡ 0 }
    ensures { list.new.out ≡ 0 }
{
    expect_same(rt, number_of(list.take_rest(rt)), wanted);
}

/// What was put and neither took is left, and no more; how many the two took.
fn expect_rest(
    rt: &(impl Wait + Abort),
    list: &mut WorkList<Job>,
    put: &[bool; 40],
    one: &[Option<u32>; 4],
    two: &[Option<u32>; 4],
) -> usize
    requires { list.old.out ≡ 0 }
{
    let mut taken: usize = 0;
    for number in 0..40_u32 {
        let put = put[number as usize];
        if is_taken(rt, one, two, number, put) {
            taken = taken.saturating_add(1);
        } else if put {
            expect_left(rt, list, Some(number));
        }
    }
    expect_left(rt, list, None);
    taken
}

/// How many of so many jobs two threads took, each once; the others are left. None where memory is refused.
fn share_jobs<R: Threads + Wait + Sync + Abort>(
    rt: &R,
    list: &mut WorkList<Job>,
    jobs: u32,
) -> Option<usize>
    requires out { list.old.out ≡ 0 }
    requires jobs { jobs ≤ 40 }
{
    let put = put_all(rt, list, jobs);
    let (Ok(one), Ok(two)) = (list.pass(), list.pass()) else {
        return None;
    };
    let (first, second) = take_eight(rt, list.queue(), one, two);
    let (one, of_one) = first;
    let (two, of_two) = second;
    list.take_back(two);
    list.take_back(one);
    if jobs < 4 {
        expect_same(rt, (of_one[3], of_two[3]), (None, None));
    }
    Some(expect_rest(rt, list, &put, &of_one, &of_two))
}

/// The same of a new list.
fn share_of_new<R: Threads + Wait + Sync + Abort>(rt: &R, alloc: Global, jobs: u32) -> Option<usize>
    requires { jobs ≤ 40 }
{
    let mut list = WorkList::new(alloc).ok()?;
    share_jobs(rt, &mut list, jobs)
}

/// Each of three jobs is taken once, by one or the other, and then none is left for either.
#[test]
fn work_of_two_threads(rt: HostRuntime) {
    expect_same(&rt, share_of_new(&rt, rt.alloc(), 3), Some(3));
}

/// Whatever request is refused, what was put is taken once, by one of two threads or at the end, and what comes back is
/// what was to be put.
#[test]
fn refused_work(rt: HostRuntime) {
    let _taken = share_of_new(&rt, rt.alloc(), 40);
}

/// Takes by the list's own call, which passes on to its queue.
fn take_by_the_list<R: Wait>(rt: &R, list: &WorkList<Job>, pass: &mut WorkPass<Job>) -> Option<u32>
    requires { pass.old.home ≡ list.now.home }
    ensures { pass.new.home ≡ list.now.home }
{
    number_of(list.take(rt, pass))
}

/// What a list of three jobs gives by its own calls.
fn take_three(
    rt: &(impl Wait + Abort),
    list: &mut WorkList<Job>,
) -> Result<[Option<u32>; 4], OutOfMemory>
    requires { list.old.out ≡ 0 }
{
    put_all(rt, list, 3);
    let mut pass = list.pass()?;
    let taken = [
        take_by_the_list(rt, list, &mut pass),
        take_by_the_list(rt, list, &mut pass),
        take_by_the_list(rt, list, &mut pass),
        take_by_the_list(rt, list, &mut pass),
    ];
    list.take_back(pass);
    Ok(taken)
}

#[test]
fn work_by_the_list(rt: HostRuntime) -> Result<(), OutOfMemory> {
    let mut list = WorkList::new(rt.alloc())?;
    let taken = take_three(&rt, &mut list)?;
    expect_same(&rt, taken, [Some(0), Some(1), Some(2), None]);
    Ok(())
}
