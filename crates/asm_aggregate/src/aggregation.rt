ghost use Rattle.std.specs.Prelude.{◌≡◌, OnOk};
ghost use Rattle.std.specs.FinMap as finite;
ghost use Rattle.asm_update.specs.Aggregator.{IsOutcome};
ghost use Rattle.asm_update.specs.declared.clash.AggError.TheVariants as agg_error;
ghost use Rattle.asm_update.specs.declared.clash.Clash as clashes;
ghost use Rattle.asm_update.specs.declared.error.ResultError.TheVariants as result_error;
ghost use Rattle.asm_aggregate.specs.Bundle.{IsWritten, IsAggregate, bundle_result};

use crate::families::unchanged;
use crate::groups::Bundle;
use crate::result_list::Results;
use crate::stretches::{Stretches, ascending};
use asm_element::{Location, Value};
use asm_update::{
    AggError, Aggregator, Cause, Clash, Instructions, Lookup, ResultError, UpdateSet,
};
use std::alloc::{AllocError, Global};

/// Return the result of what a move does at one location.
///
/// The lookup is asked only if there are partial updates.
fn result_at<A: Aggregator, L: Lookup>(
    alloc: Global,
    aggregator: &A,
    lookup: &L,
    at: &Location,
    bundle: Bundle<'_>,
) -> Result<Value, ResultError>
    requires { IsWritten bundle }
    ensures { IsOutcome result
        (bundle_result (A.meaning aggregator.now).part (L.value_at lookup.now at.now) bundle.entry) }
{
    if bundle.differs() {
        return Err(ResultError::Cause(Cause::Two));
    }
    if !bundle.partials().is_empty() {
        return bundle.result_by(alloc, aggregator, lookup.get(at));
    }
    match bundle.regular() {
        Some(value) => unchanged(alloc, value),
        None => unreachable!(),
    }
}

/// Put the value at the location.
fn put_at(
    alloc: Global,
    updates: &mut UpdateSet,
    at: &Location,
    value: Value,
) -> Result<(), AllocError>
    ensures { OnOk result (updates.new ≡ finite.insert updates.old at.now value) }
{
    let at = at.copy(alloc)?;
    updates.put(at, value)
}

/// Return the clash of a location.
pub(crate) fn clash_at(alloc: Global, at: &Location, error: ResultError) -> AggError
    ensures { (c : clashes.Clash) → result ≡ agg_error.Clash c →
        (c.at ≡ at.now) × (error ≡ result_error.Cause c.cause) }
{
    match error {
        ResultError::Cause(cause) => match at.copy(alloc) {
            Ok(at) => AggError::Clash(Clash { at, cause }),
            Err(_) => AggError::Memory,
        },
        ResultError::Memory => AggError::Memory,
    }
}

/// Gather the instructions of a move at each location into an update set.
///
/// The set has the result of each written location and no other location. The lookup is asked for the old values of
/// locations with partial updates alone, once each, in ascending order, and for none above a clash. Source: aggregation
/// of partial updates in CoreASM; the choice of the clash is of this project's profile.
///
/// # Errors
///
/// - `AggError::Clash` exactly if some location's instructions have no result: at the smallest such location, with the
///   first cause of its group.
/// - `Memory` only if memory is refused.
pub fn aggregate<A: Aggregator, L: Lookup>(
    alloc: Global,
    aggregator: &A,
    lookup: &L,
    instructions: &Instructions,
) -> Result<UpdateSet, AggError>
    ensures { IsAggregate (A.meaning aggregator.now).part (L.value_at lookup.now) instructions.now result }
{
    let list = ascending(alloc, instructions)?;
    let mut updates = UpdateSet::new(alloc);
    let mut stretches = Stretches::of(list.as_slice());
    while let Some(stretch) = stretches.next() {
        let bundle = Bundle::of(alloc, stretch.instructions)?;
        match result_at(alloc, aggregator, lookup, stretch.at, bundle) {
            Ok(value) => put_at(alloc, &mut updates, stretch.at, value)?,
            Err(error) => return Err(clash_at(alloc, stretch.at, error)),
        }
    }
    Ok(updates)
}

/// Return the update set of a move beside the move's own locations.
///
/// The results are those of `aggregate`, no location is copied, and the lookup is asked as there.
///
/// # Errors
///
/// - `AggError::Clash` and `Memory` as from `aggregate`.
pub fn results<'a, A: Aggregator, L: Lookup>(
    alloc: Global,
    aggregator: &A,
    lookup: &L,
    instructions: &'a Instructions,
) -> Result<Results<'a>, AggError>
    ensures { IsAggregate (A.meaning aggregator.now).part (L.value_at lookup.now) instructions.now result }
{
    let list = ascending(alloc, instructions)?;
    let mut results = Results::with_room(alloc, list.len())?;
    let mut stretches = Stretches::of(list.as_slice());
    while let Some(stretch) = stretches.next() {
        let bundle = Bundle::of(alloc, stretch.instructions)?;
        match result_at(alloc, aggregator, lookup, stretch.at, bundle) {
            Ok(value) => results.push(stretch.at, value)?,
            Err(error) => return Err(clash_at(alloc, stretch.at, error)),
        }
    }
    Ok(results)
}
