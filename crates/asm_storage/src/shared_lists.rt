//! Lists that calls, answers, receipts and events share, so that a copy of one takes no memory.
ghost use Rattle.std.specs.Prelude.{◌≡◌, map, IfOk};
ghost use Rattle.asm_storage.specs.Scans.{with_found};

use asm_element::{Items, Location};
use asm_state::Named;
use std::alloc::{AllocError, Global};

/// Return the same list; a shared one takes no memory.
pub(crate) fn same_list<T: Clone>(items: &Items<T>) -> Result<Items<T>, AllocError>
    ensures { ((x y : T) → T.is_clone x y → y ≡ x) → IfOk result (λ copy. copy ≡ items.now) }
{
    items.clone()
}

// The same locations, in a list of their own.
fn copied_places(alloc: Global, places: &[Location]) -> Result<Items<Location>, AllocError>
    ensures { IfOk result (λ copy. copy ≡ places.now) }
{
    let mut items = Vec::with_capacity(alloc, places.len())?;
    for place in places {
        let copy = place.copy(alloc)?;
        items.push(copy)?;
    }
    Items::shared(alloc, items)
}

/// Return the same locations: the earlier list, where it has them, or else a copy.
pub(crate) fn share_or_copy_places(
    alloc: Global,
    places: &[Location],
    earlier: Option<&Items<Location>>,
) -> Result<Items<Location>, AllocError>
    ensures { IfOk result (λ list. list ≡ places.now) }
{
    match earlier {
        Some(list) if list.as_slice() == places => same_list(list),
        _ => copied_places(alloc, places),
    }
}

/// Return the locations of the declared reads, in their order.
pub(crate) fn places_named(alloc: Global, reads: &[Named]) -> Result<Vec<Location>, AllocError>
    ensures { IfOk result (λ places. places.items ≡ map (λ x. x.at) reads.now) }
{
    let mut places = Vec::with_capacity(alloc, reads.len())?;
    for named in reads {
        let place = named.at.copy(alloc)?;
        places.push(place)?;
    }
    Ok(places)
}

// Copies of the declared reads.
fn named_copies(alloc: Global, reads: &[Named]) -> Result<Vec<Named>, AllocError>
    ensures { IfOk result (λ copies. copies.items ≡ reads.now) }
{
    let mut items = Vec::with_capacity(alloc, reads.len())?;
    for named in reads {
        let copy = named.copy(alloc)?;
        items.push(copy)?;
    }
    Ok(items)
}

/// Return the same declared reads, in a list of their own.
pub(crate) fn copied_named(alloc: Global, reads: &[Named]) -> Result<Items<Named>, AllocError>
    ensures { IfOk result (λ copy. copy ≡ reads.now) }
{
    let items = named_copies(alloc, reads)?;
    Items::shared(alloc, items)
}

/// Return the same declared reads, and one more behind them if one was found.
pub(crate) fn named_with(
    alloc: Global,
    reads: &Items<Named>,
    found: Option<Named>,
) -> Result<Items<Named>, AllocError>
    ensures { IfOk result (λ named. named ≡ with_found reads.now found) }
{
    match found {
        None => same_list(reads),
        Some(named) => {
            let mut items = named_copies(alloc, reads.as_slice())?;
            items.push(named)?;
            Items::shared(alloc, items)
        }
    }
}
