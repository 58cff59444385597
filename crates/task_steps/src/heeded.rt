//! The cancellables that tasks heed: those that no poll saw as cancelled.
ghost use Rattle.std.specs.Prelude.{◌≡◌, ◌==◌, not, filter, take, OnOk, OnErr};
ghost use Rattle.std.specs.List.{list_any};
ghost use Rattle.cancel_view.specs.Seen.{has};
ghost use Rattle.task_steps.specs.BookInside.{heeding, is_heeded};

use cancel_view::View;
use std::alloc::AllocError;

/// Whether one of them is in the view.
pub(crate) fn some_came(heeded: &[u32], view: &View) -> bool
    ensures { result ≡ list_any (λ c. has c view.now) heeded.now }
{
    for c in heeded {
        if view.is_cancelled(*c) {
            return true;
        }
    }
    false
}

/// So many of them, from the first on, or all.
pub(crate) fn first_of(heeded: &[u32], count: usize) -> &[u32]
    ensures { result.now ≡ take count heeded.now }
{
    &heeded[..count.min(heeded.len())]
}

/// Whether a cancellable is one of them.
fn is_heeded(heeded: &[u32], c: u32) -> bool
    ensures { result ≡ is_heeded c heeded.now }
{
    for x in heeded {
        if *x == c {
            return true;
        }
    }
    false
}

/// Adds the cancellable of a task, where it is none of them.
pub(crate) fn heed(heeded: &mut Vec<u32>, cancel: Option<u32>) -> Result<(), AllocError>
    ensures ok { OnOk result (heeded.new.items ≡ heeding cancel heeded.old.items) }
    ensures err { OnErr result (heeded.new.items ≡ heeded.old.items) }
{
    if let Some(c) = cancel
        && !is_heeded(heeded, c)
    {
        heeded.push(c)?;
    }
    Ok(())
}

/// Leaves those alone that are not in the view.
pub(crate) fn forget_seen(heeded: &mut Vec<u32>, view: &View)
    ensures { heeded.new.items ≡ filter (λ c. not (has c view.now)) heeded.old.items }
{
    heeded.retain(|c| !view.is_cancelled(*c));
}
