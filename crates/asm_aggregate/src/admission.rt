ghost use Rattle.asm_update.specs.Aggregator.{IsAdmitted};
ghost use Rattle.asm_aggregate.specs.Bundle.{IsWritten, IsAdmission, bundle_result};

use crate::aggregation::clash_at;
use crate::groups::Bundle;
use crate::puts::only_put;
use crate::stretches::{Stretches, ascending};
use asm_element::Location;
use asm_update::{AggError, Aggregator, Cause, Instructions, Lookup, ResultError};
use std::alloc::Global;

/// Return whether what a move does at one location has a result.
///
/// The lookup is asked only if there are partial updates.
fn admit_at<A: Aggregator, L: Lookup>(
    alloc: Global,
    aggregator: &A,
    lookup: &L,
    at: &Location,
    bundle: Bundle<'_>,
) -> Result<(), ResultError>
    requires { IsWritten bundle }
    ensures { IsAdmitted result
        (bundle_result (A.meaning aggregator.now).part (L.value_at lookup.now at.now) bundle.entry) }
{
    if bundle.differs() {
        return Err(ResultError::Cause(Cause::Two));
    }
    if bundle.partials().is_empty() {
        // Proof: that it has a regular value is what the goal needs.
        let _regular = bundle.regular();
        return Ok(());
    }
    bundle.admit_by(alloc, aggregator, lookup.get(at))
}

/// Test whether a move has an update set: as `aggregate`, or the same clash.
///
/// It makes no value, so it costs less than `aggregate`. It asks the lookup for the old values of locations with
/// partial updates alone, once each, in ascending order, and for none above a clash.
///
/// # Errors
///
/// - `AggError::Clash` exactly if `aggregate` would return it.
/// - `Memory` only if memory is refused.
pub fn admit<A: Aggregator, L: Lookup>(
    alloc: Global,
    aggregator: &A,
    lookup: &L,
    instructions: &Instructions,
) -> Result<(), AggError>
    ensures { IsAdmission (A.meaning aggregator.now).part (L.value_at lookup.now) instructions.now result }
{
    if only_put(instructions).is_some() {
        return Ok(());
    }
    let list = ascending(alloc, instructions)?;
    let mut stretches = Stretches::of(list.as_slice());
    while let Some(stretch) = stretches.next() {
        let bundle = Bundle::of(alloc, stretch.instructions)?;
        match admit_at(alloc, aggregator, lookup, stretch.at, bundle) {
            Ok(()) => {}
            Err(error) => return Err(clash_at(alloc, stretch.at, error)),
        }
    }
    Ok(())
}
