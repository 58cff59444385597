//! The ids of the handlers that were connected to each cancellable, those that were disconnected among them.
ghost use Rattle.std.specs.Prelude.{◌≡◌, ◌++◌, ◌∷◌, [], ℕ, OnOk, OnErr, if◌then◌else◌};
ghost use Rattle.std.specs.Ordering.{nat_cmp};
ghost use Rattle.std.specs.BTreeMap.{is_at};
ghost use Rattle.cancel_view.specs.Groups.{group};

use std::alloc::{AllocError, Global};
use std::collections::BTreeMap;

/// Ids by the numbers of the cancellables that have had handlers, in the order in which they were connected.
pub(crate) type Groups = BTreeMap<u32, Vec<u64>>;

/// The ids that were connected to a cancellable.
pub(crate) fn ids_of<'a>(groups: &'a Groups, c: u32) -> &'a [u64]
    ensures { result.now ≡ group c groups.now }
{
    match groups.get(&c) {
        Some(ids) => ids.as_slice(),
        None => &[],
    }
}

/// Puts an id behind those of its cancellable. After an error each group is as it was.
pub(crate) fn join(
    alloc: Global,
    groups: &mut Groups,
    cancellable: u32,
    id: u64,
) -> Result<(), AllocError>
    ensures ok { OnOk result ((c : ℕ) → group c groups.new ≡ (if is_at (nat_cmp cancellable) c then group c groups.old ++ id ∷ [] else group c groups.old)) }
    ensures err { OnErr result ((c : ℕ) → group c groups.new ≡ group c groups.old) }
{
    if let Some(ids) = groups.get_mut(&cancellable) {
        ids.push(id)?;
        return Ok(());
    }
    let mut ids = Vec::new(alloc);
    ids.push(id)?;
    groups.insert(cancellable, ids)?;
    Ok(())
}
