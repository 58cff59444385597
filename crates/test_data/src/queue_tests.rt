//! Offices: two threads that post, and memory refused.
ghost use Rattle.std.specs.Prelude.{◌≡◌};

use crate::expected::expect_same;
use post_office::{Body, Letter, LetterQueue, Office, OfficePass, OutOfMemory, Post};
use std::alloc::Global;
use std::ops::Range;
use std::process::Abort;
use std::sync::Wait;
use std::thread;
use std::thread::Threads;

fn letter(sender: u32, number: u64) -> Letter {
    Letter {
        tick: 5,
        sender,
        number,
        body: Body::Cancelled(0),
    }
}

/// How many letters each of two threads posts.
const MOST: u64 = 40;

/// Whether a letter was posted; where it was not, it is what comes back.
fn is_posted(rt: &impl Abort, posted: Result<(), Letter>, wanted: Letter) -> bool {
    match posted {
        Ok(()) => true,
        Err(back) => {
            expect_same(rt, back, wanted);
            false
        }
    }
}

/// Posts letters by number, as a worker does itself, and tells how many were posted.
fn post_some<R: Wait + Abort>(
    rt: &R,
    queue: &LetterQueue,
    sender: u32,
    pass: &mut OfficePass,
    numbers: Range<u64>,
) -> usize
    requires { pass.old.home ≡ queue.now }
    ensures { pass.new.home ≡ queue.now }
{
    let mut posted: usize = 0;
    for number in numbers {
        let it = letter(sender, number);
        if is_posted(rt, queue.post_as(rt, pass, it), it) {
            posted = posted.saturating_add(1);
        }
    }
    posted
}

/// Posts a letter through a post that is lent to a turn.
fn post_lent<R: Wait>(
    rt: &R,
    queue: &LetterQueue,
    pass: OfficePass,
    letter: Letter,
) -> (OfficePass, Result<(), Letter>)
    requires { pass.home ≡ queue.now }
    ensures { result.0.home ≡ queue.now }
{
    let mut lent = queue.lend(rt, pass);
    let posted = lent.post(letter);
    (lent.into_pass(), posted)
}

/// Posts a thread's letters, the second of them through a post that is lent, and tells how many were posted.
fn post_all<R: Wait + Abort>(
    rt: &R,
    queue: &LetterQueue,
    sender: u32,
    mut pass: OfficePass,
) -> (OfficePass, usize)
    requires { pass.home ≡ queue.now }
    ensures { result.0.home ≡ queue.now }
{
    let first = post_some(rt, queue, sender, &mut pass, 0..1);
    let it = letter(sender, 1);
    let (mut pass, lent) = post_lent(rt, queue, pass, it);
    let second = usize::from(is_posted(rt, lent, it));
    let others = post_some(rt, queue, sender, &mut pass, 2..MOST);
    (pass, first.saturating_add(second).saturating_add(others))
}

/// Two threads post their letters, where memory may be refused.
fn post_eighty<R: Threads + Wait + Sync + Abort>(
    rt: &R,
    queue: &LetterQueue,
    one: OfficePass,
    two: OfficePass,
) -> ((OfficePass, usize), (OfficePass, usize))
    requires { (one.home ≡ queue.now) × (two.home ≡ queue.now) }
    ensures one { result.0.0.home ≡ queue.now }
    ensures two { result.1.0.home ≡ queue.now }
{
    thread::join(
        rt,
        move || post_all(rt, queue, 1, one),
        move || post_all(rt, queue, 2, two),
    )
}

/// How many letters a sender has; they come by rising number, as they were posted.
fn count_rising(rt: &impl Abort, letters: &[Letter], sender: u32) -> usize {
    let mut count: usize = 0;
    let mut next = 0;
    for letter in letters {
        if letter.sender == sender {
            assert!(rt; next <= letter.number && letter.number < MOST);
            next = letter.number.saturating_add(1);
            count = count.saturating_add(1);
        }
    }
    count
}

/// What an office drains. Where memory may be refused it is asked again, since a drain that is refused changes nothing.
fn drain<R: Wait>(
    rt: &R,
    alloc: Global,
    office: &mut Office,
    may_be_refused: bool,
) -> Result<Vec<Letter>, OutOfMemory>
    requires { office.old.out ≡ 0 }
{
    match office.drain(rt, alloc) {
        Err(OutOfMemory) if may_be_refused => office.drain(rt, alloc),
        letters => letters,
    }
}

/// How many letters each of two threads posted to an office, which drains them, each sender's in its order; none where it can't.
fn post_and_drain<R: Threads + Wait + Sync + Abort>(
    rt: &R,
    alloc: Global,
    office: &mut Office,
    may_be_refused: bool,
) -> Option<[usize; 2]>
    requires { office.old.out ≡ 0 }
{
    let (Ok(one), Ok(two)) = (office.pass(), office.pass()) else {
        return None;
    };
    let ((one, by_one), (two, by_two)) = post_eighty(rt, office.queue(), one, two);
    office.take_back(two);
    office.take_back(one);
    let letters = drain(rt, alloc, office, may_be_refused).ok()?;
    expect_same(rt, count_rising(rt, &letters, 1), by_one);
    expect_same(rt, count_rising(rt, &letters, 2), by_two);
    expect_same(rt, letters.len(), by_one.saturating_add(by_two));
    Some([by_one, by_two])
}

/// The same of a new office.
fn post_to_new<R: Threads + Wait + Sync + Abort>(
    rt: &R,
    alloc: Global,
    may_be_refused: bool,
) -> Option<[usize; 2]> {
    let mut office = Office::new(alloc).ok()?;
    post_and_drain(rt, alloc, &mut office, may_be_refused)
}

#[test]
fn letters_of_two_threads(rt: HostRuntime) {
    expect_same(&rt, post_to_new(&rt, rt.alloc(), false), Some([40, 40]));
}

/// Whatever request is refused, what two threads posted is drained, each sender's in its order, and what comes back is what
/// was to be posted.
#[test]
fn refused_letters(rt: HostRuntime) {
    let _posted = post_to_new(&rt, rt.alloc(), true);
}

/// The office's own calls, which pass on to its queue: a letter posted, one through a post that is lent, and another.
fn post_by_the_office<R: Wait + Abort>(rt: &R, office: &Office, mut pass: OfficePass) -> OfficePass
    requires { pass.home ≡ office.now.home }
    ensures { result.home ≡ office.now.home }
{
    expect_same(rt, office.post_as(rt, &mut pass, letter(1, 0)), Ok(()));
    let mut lent = office.lend(rt, pass);
    expect_same(rt, lent.post(letter(1, 1)), Ok(()));
    let mut pass = lent.into_pass();
    expect_same(rt, office.post_as(rt, &mut pass, letter(1, 2)), Ok(()));
    pass
}

/// What an office drains after its own calls, unless memory is refused.
fn drain_by_the_office<R: Wait + Abort>(
    rt: &R,
    alloc: Global,
    office: &mut Office,
) -> Result<Vec<Letter>, OutOfMemory>
    requires { office.old.out ≡ 0 }
{
    let pass = office.pass()?;
    let pass = post_by_the_office(rt, office, pass);
    office.take_back(pass);
    office.drain(rt, alloc)
}

#[test]
fn letters_by_the_office(rt: HostRuntime) -> Result<(), OutOfMemory> {
    let mut office = Office::new(rt.alloc())?;
    let letters = drain_by_the_office(&rt, rt.alloc(), &mut office)?;
    expect_same(
        &rt,
        letters.as_slice(),
        &[letter(1, 0), letter(1, 1), letter(1, 2)],
    );
    Ok(())
}
