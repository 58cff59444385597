//! Runs told moment by moment: the worked first run, the lines of all moments, and refused memory.
use crate::expected::expect_same;
use crate::script_tests::first_run;
use crate::worked::{Worked, cancels, given_with_letters, posts, tasks};
use account::{Account, AccountFault, Deed, Moment};
use lane_turn::Place;
use loop_script::{Body, Script};
use mainctx::{OutOfMemory, add_text};
use std::alloc::Global;
use std::process::Abort;

/// More moments than a worked script has.
const MOST: u32 = 2000;

/// What the worked first run does, one after another: an idle source is attached, loop 0 runs, and the source is dispatched and goes; in the
/// second tick the loop iterates and selects nothing.
fn first_deed(k: u32) -> Deed {
    match k {
        0 | 9 => Deed::Polled,
        1 => Deed::Acted {
            body: Body::Start(0),
            place: 0,
        },
        2 => Deed::Acted {
            body: Body::Start(0),
            place: 1,
        },
        3 | 10 => Deed::Iterated {
            loop_number: 0,
            context: 0,
        },
        4 => Deed::Dispatched {
            context: 0,
            source: 1,
        },
        5 => Deed::Acted {
            body: Body::Procedure(0),
            place: 0,
        },
        6 => Deed::Returned {
            body: Body::Procedure(0),
        },
        7 | 11 => Deed::IterationEnded { context: 0 },
        _ => Deed::Rests,
    }
}

/// How many lines stand before a moment of it: it writes the dispatch and the 7.
fn first_lines(k: u32) -> usize {
    match k {
        0..=4 => 0,
        5 => 1,
        _ => 2,
    }
}

fn first_moment(k: u32) -> Moment {
    Moment {
        tick: if k < 9 { 0 } else { 1 },
        lane: 0,
        deed: first_deed(k),
        from: first_lines(k),
        to: first_lines(k.saturating_add(1)),
    }
}

/// The first action attaches source 1.
fn first_attached(k: u32) -> Option<Place> {
    match k {
        1 => Some(Place { context: 0, id: 1 }),
        _ => None,
    }
}

/// The first iteration selects source 1, and the second nothing.
fn first_selected(k: u32) -> Option<&'static [u64]> {
    match k {
        3 => Some(&[1]),
        10 => Some(&[]),
        _ => None,
    }
}

/// What a moment of it attached and selected.
fn expect_gained(rt: &impl Abort, account: &Account, k: u32) {
    match account.lane(0) {
        Some(lane) => {
            let (moment, script) = (first_moment(k), account.script());
            expect_same(rt, moment.attached(script, lane), first_attached(k));
            expect_same(rt, moment.selected(script, lane), first_selected(k));
        }
        None => assert!(rt; false),
    }
}

/// Each moment, and then the end of the run.
fn expect_moments(rt: &impl Abort, account: &mut Account) -> Result<(), AccountFault> {
    for k in 0..13 {
        expect_same(rt, account.next()?, Some(first_moment(k)));
        expect_gained(rt, account, k);
    }
    expect_same(rt, account.next()?, None);
    expect_same(rt, account.tick(), 2);
    Ok(())
}

/// Goes on to the end of a run, and answers how many lines its moments wrote.
fn count_lines(account: &mut Account) -> Result<usize, AccountFault> {
    let mut lines: usize = 0;
    'moments: for _ in 0..MOST {
        match account.next()? {
            None => return Ok(lines),
            Some(moment) => lines = lines.saturating_add(moment.to.saturating_sub(moment.from)),
        }
    }
    Ok(0)
}

/// Adds the text of what the lanes have written.
fn add_texts(text: &mut Vec<u8>, account: &Account) -> Result<(), OutOfMemory> {
    for number in 0..account.script().lanes() {
        if let Some(lane) = account.lane(number) {
            add_text(text, number, lane.trace())?;
        }
    }
    Ok(())
}

/// The text is that of the vector, where there is memory for it, and the moments wrote each line but for a heading for each lane.
fn expect_text(rt: &impl Abort, alloc: Global, account: &Account, worked: &Worked, lines: usize) {
    let headings = account.script().lanes() as usize;
    expect_same(
        rt,
        worked.text.lines().count(),
        lines.saturating_add(headings),
    );
    let mut text = Vec::new(alloc);
    if add_texts(&mut text, account).is_ok() {
        expect_same(rt, text.as_slice(), worked.text.as_bytes());
    }
}

/// Where a request for memory was refused the account is spent.
fn expect_spent(rt: &impl Abort, account: &mut Account, fault: AccountFault) {
    expect_same(rt, fault, AccountFault::OutOfMemory);
    expect_same(rt, account.next(), Err(AccountFault::Spent));
}

/// One of both, of a run to its end.
fn tell_or_spend(rt: &impl Abort, alloc: Global, account: &mut Account, worked: &Worked) {
    match count_lines(account) {
        Err(fault) => expect_spent(rt, account, fault),
        Ok(lines) => expect_text(rt, alloc, account, worked, lines),
    }
}

/// A script whose run is told.
#[derive(Clone, Copy)]
enum Told {
    /// The first run, moment by moment.
    First,
    /// A worked script, by its text, where memory may be refused.
    Text(Worked),
}

fn tell(rt: &impl Abort, alloc: Global, account: &mut Account, told: &Told) {
    match told {
        Told::First => expect_same(rt, expect_moments(rt, account), Ok(())),
        Told::Text(worked) => tell_or_spend(rt, alloc, account, worked),
    }
}

/// A script's account; none where it finds no memory.
fn account_of(alloc: Global, script: &str) -> Option<Account> {
    let script = Script::read(alloc, script.as_bytes()).ok()?;
    Account::new(alloc, script).ok()
}

fn expect_told(rt: &impl Abort, alloc: Global, script: &str, told: Told) {
    match account_of(alloc, script) {
        Some(mut account) => tell(rt, alloc, &mut account, &told),
        None => assert!(rt; matches!(told, Told::Text(_))),
    }
}

fn expect_or_spent(rt: &impl Abort, alloc: Global, worked: Worked) {
    expect_told(rt, alloc, worked.script, Told::Text(worked));
}

/// What the moments do, attach and select.
#[test]
fn tells_the_first_run(rt: HostRuntime) {
    expect_told(&rt, rt.alloc(), first_run(), Told::First);
}

#[test]
fn refused_account_of_posts(rt: HostRuntime) {
    expect_or_spent(&rt, rt.alloc(), posts());
}

#[test]
fn refused_account_of_cancels(rt: HostRuntime) {
    expect_or_spent(&rt, rt.alloc(), cancels());
}

#[test]
fn refused_account_of_tasks(rt: HostRuntime) {
    expect_or_spent(&rt, rt.alloc(), tasks());
}

#[test]
fn refused_account_of_a_context_that_is_given(rt: HostRuntime) {
    expect_or_spent(&rt, rt.alloc(), given_with_letters());
}
