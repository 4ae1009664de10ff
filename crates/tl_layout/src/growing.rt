//! Tables and texts that grow long.

ghost use Rattle.std.specs.Prelude.{OnErr, OnOk, [], ◌++◌, ◌∷◌, ◌≡◌};

use std::alloc::AllocError;

/// From this many items on, a list reserves ahead.
const MANY_ITEMS: usize = 64;

/// Reserves capacity ahead if `items` is long and has too little for `more` items. It doesn't report whether it succeeded.
///
/// Trick: a list that grows by doubling moves its contents each time, and moved memory is no longer in huge pages. Capacity that
/// was never written takes no memory, so this reserves 15 times as many items as the list has. If that fails, the list grows like
/// any other.
#[inline(always)]
pub fn reserve_ahead<T>(items: &mut Vec<T>, more: usize)
    ensures { items.new.items ≡ items.old.items }
{
    let len = items.len();
    if len >= MANY_ITEMS && items.capacity() - len < more {
        let _ = items.reserve(len.saturating_mul(15));
    }
}

/// Appends an item, with capacity reserved ahead.
#[inline(always)]
pub(crate) fn push_reserving<T: Drop>(items: &mut Vec<T>, item: T) -> Result<(), AllocError>
    ensures ok { OnOk result (items.new.items ≡ items.old.items ++ item ∷ []) }
    ensures err { OnErr result (items.new.items ≡ items.old.items) }
{
    reserve_ahead(items, 1);
    Ok(items.push(item)?)
}
