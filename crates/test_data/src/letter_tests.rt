//! Letters in a tray and in order, with ample memory and with memory refused.
use crate::expected::expect_same;
use post_office::{Body, Letter, Post, Tray, merge};
use std::alloc::Global;
use std::process::Abort;

fn letter(sender: u32, number: u64) -> Letter {
    Letter {
        tick: 1,
        sender,
        number,
        body: Body::Cancelled(0),
    }
}

/// A tray with letters of these senders and numbers; none where memory was refused.
fn tray_of(alloc: Global, places: &[(u32, u64)]) -> Option<Tray> {
    let mut tray = Tray::new(alloc);
    for (sender, number) in places {
        if tray.post(letter(*sender, *number)).is_err() {
            return None;
        }
    }
    Some(tray)
}

/// What a tray with such letters gives is merged to these.
fn expect_merged(rt: &impl Abort, alloc: Global, places: &[(u32, u64)], wanted: &[Letter]) {
    let Some(tray) = tray_of(alloc, places) else {
        assert!(rt; false);
        return;
    };
    match merge(alloc, tray.into_letters()) {
        Ok(merged) => expect_same(rt, merged.as_slice(), wanted),
        Err(_) => assert!(rt; false),
    }
}

#[test]
fn merges_by_sender_and_number(rt: HostRuntime) {
    expect_merged(
        &rt,
        rt.alloc(),
        &[(2, 0), (0, 1), (1, 0), (0, 0)],
        &[letter(0, 0), letter(0, 1), letter(1, 0), letter(2, 0)],
    );
}

#[test]
fn merges_none(rt: HostRuntime) {
    expect_merged(&rt, rt.alloc(), &[], &[]);
}

/// A letter that finds no memory comes back, and the tray keeps what it had.
#[test]
fn refused_post(rt: HostRuntime) {
    let mut tray = Tray::new(rt.alloc());
    let mut taken = Vec::new(rt.alloc());
    for number in 0..9 {
        match tray.post(letter(0, number)) {
            Ok(()) => {
                if taken.push(letter(0, number)).is_err() {
                    return;
                }
            }
            Err(back) => expect_same(&rt, back, letter(0, number)),
        }
    }
    expect_same(&rt, tray.into_letters(), taken);
}

/// A tray with ten letters of each of four senders, which come by turns; none where memory was refused.
fn tray_of_forty(alloc: Global) -> Option<Tray> {
    let mut tray = Tray::new(alloc);
    for place in 0..40_u32 {
        let number = u64::from(place / 4);
        if tray.post(letter(3 - place % 4, number)).is_err() {
            return None;
        }
    }
    Some(tray)
}

/// Whatever request is refused, the letters come in order, or none at all: so many that ordering them takes memory.
#[test]
fn refused_merge(rt: HostRuntime) {
    let Some(tray) = tray_of_forty(rt.alloc()) else {
        return;
    };
    if let Ok(merged) = merge(rt.alloc(), tray.into_letters()) {
        expect_forty(&rt, &merged);
    }
}

/// Ten letters of each of four senders, in order.
fn expect_forty(rt: &impl Abort, merged: &[Letter]) {
    expect_same(rt, merged.len(), 40);
    for place in 0..40_u32 {
        let wanted = letter(place / 10, u64::from(place % 10));
        expect_same(rt, merged.get(place as usize), Some(&wanted));
    }
}
