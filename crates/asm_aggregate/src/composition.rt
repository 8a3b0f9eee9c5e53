ghost use Rattle.std.specs.Prelude.{◌≡◌, ◌≢◌, ◌++◌, ◌∷◌, [], OnOk, Ok, Some, None, IsSome};
ghost use Rattle.asm_update.specs.Aggregator.{after, IsAdmitted, IsOutcome, IsJoined};
ghost use Rattle.asm_update.specs.Fire.{GroupResult};
ghost use Rattle.asm_update.specs.declared.action.Action.TheVariants.{Regular};
ghost use Rattle.asm_aggregate.specs.Compose.{clash_on_any, cause_of, as_regular, composed, placed};
ghost use Rattle.asm_aggregate.specs.Compose.{IsComposition, IsComposedList, IsLimited, IsRefusalAt, KeepsSequence};
ghost use Rattle.asm_aggregate.specs.PairMeaning.{unless};
ghost use Rattle.asm_aggregate.specs.Steps.{IsRefusedFor};
ghost use Rattle.asm_aggregate.specs.declared.composition.ComposeError.TheVariants as compose_error;

use crate::families::unchanged;
use crate::groups::{Bundle, Groups};
use crate::pair::cause_alone;
use asm_element::{Location, Value};
use asm_update::{
    Action, Aggregator, Cause, Clash, Instruction, Instructions, InstructionsError, JoinError,
    ResultError,
};
use std::alloc::{AllocError, AllocFailed, Global};
use thiserror::Error;

/// Why two moves have no composition.
#[derive(Debug, Drop, PartialEq, Eq, Error)]
pub enum ComposeError {
    /// No state lets the first and then the second fire, with the cause.
    ///
    /// The location is the smallest that refuses.
    #[error("the two moves clash at {0}")]
    Clash(Clash),
    /// A composed update would be too large, at the smallest location that refuses.
    ///
    /// A composed amount of a bag would be above 4,294,967,295, or the sum of the increments of a counter is farther
    /// from 0 than 18,446,744,073,709,551,615.
    #[error("a composed amount or sum is too large at {0}")]
    Large(Location),
    /// No location refuses, and there would be more than 4,096 instructions.
    #[error("more than 4,096 instructions")]
    ManyInstructions,
    /// The memory that the call asked for was refused.
    #[error("out of memory")]
    Memory,
}

impl From<AllocError> for ComposeError {
    ghost from_gives = { λ _ e. e ≡ compose_error.Memory };

    fn from(_error: AllocError) -> ComposeError {
        ComposeError::Memory
    }
}

impl<T: Drop> From<AllocFailed<T>> for ComposeError {
    ghost from_gives = { λ _ e. e ≡ compose_error.Memory };

    fn from(_error: AllocFailed<T>) -> ComposeError {
        ComposeError::Memory
    }
}

/// Return the refusal of a location.
fn refusal_at(alloc: Global, at: &Location, error: JoinError) -> ComposeError
    ensures { IsRefusalAt at.now error result }
{
    let at = match at.copy(alloc) {
        Ok(at) => at,
        Err(_) => return ComposeError::Memory,
    };
    match error {
        JoinError::Cause(cause) => ComposeError::Clash(Clash { at, cause }),
        JoinError::Large => ComposeError::Large(at),
        JoinError::Memory => ComposeError::Memory,
    }
}

/// Return the cause for which a group has no result, if it has none.
fn cause_of(admitted: Result<(), ResultError>) -> Result<(), JoinError>
    ensures { (o : GroupResult) → IsAdmitted admitted o → IsRefusedFor result (cause_of o) }
{
    match admitted {
        Ok(()) => Ok(()),
        Err(ResultError::Cause(cause)) => Err(JoinError::Cause(cause)),
        Err(ResultError::Memory) => Err(JoinError::Memory),
    }
}

/// Return the clash of a bundle with a regular value, if it has one.
fn clash_of_regular<A: Aggregator>(
    alloc: Global,
    aggregator: &A,
    bundle: Bundle<'_>,
) -> Result<(), JoinError>
    requires { IsSome bundle.regular }
    ensures { IsRefusedFor result (clash_on_any (A.meaning aggregator.now) bundle.entry) }
{
    if bundle.differs() {
        return Err(JoinError::Cause(Cause::Two));
    }
    if bundle.partials().is_empty() {
        return Ok(());
    }
    cause_of(bundle.admit_by(alloc, aggregator, None))
}

/// Return the clash of partial updates alone, if they have one.
fn clash_of_partials<A: Aggregator>(
    alloc: Global,
    aggregator: &A,
    bundle: &Bundle<'_>,
) -> Result<(), JoinError>
    requires { bundle.now.regular ≡ None }
    ensures { IsRefusedFor result (clash_on_any (A.meaning aggregator.now) bundle.now) }
{
    if bundle.partials().is_empty() {
        return Ok(());
    }
    cause_alone(aggregator, alloc, bundle.partials())
}

/// Return what partial updates alone give on the value.
///
/// No partial updates leave it unchanged.
fn result_on<A: Aggregator>(
    alloc: Global,
    aggregator: &A,
    value: &Value,
    bundle: Bundle<'_>,
) -> Result<Value, ResultError>
    requires { bundle.regular ≡ None }
    ensures { IsOutcome result (after (A.meaning aggregator.now) value.now bundle.entry.partials) }
{
    if bundle.partials().is_empty() {
        return unchanged(alloc, value);
    }
    bundle.result_by(alloc, aggregator, Some(value))
}

/// Return the list of the one regular update that writes the value.
fn one_put(alloc: Global, value: Value) -> Result<Vec<Action>, JoinError>
    ensures { IsJoined result (Ok (Regular value ∷ [])) }
{
    Ok(vec![in alloc; Action::Regular(value)]?)
}

/// Return a value as the list of the one regular update that writes it.
fn as_regular(alloc: Global, value: Result<Value, ResultError>) -> Result<Vec<Action>, JoinError>
    ensures { (o : GroupResult) → IsOutcome value o → IsJoined result (as_regular o) }
{
    match value {
        Ok(value) => one_put(alloc, value),
        Err(ResultError::Cause(cause)) => Err(JoinError::Cause(cause)),
        Err(ResultError::Memory) => Err(JoinError::Memory),
    }
}

/// Return the second's regular value, unless the second clashes of itself.
fn put_by_second<A: Aggregator>(
    alloc: Global,
    aggregator: &A,
    value: &Value,
    second: Bundle<'_>,
) -> Result<Vec<Action>, JoinError>
    requires { second.regular ≡ Some value.now }
    ensures { IsJoined result
        (unless (clash_on_any (A.meaning aggregator.now) second.entry) (Ok (Regular value.now ∷ []))) }
{
    clash_of_regular(alloc, aggregator, second)?;
    one_put(alloc, value.copy(alloc)?)
}

/// Return the actions at a location that do what the first and then the second do.
fn composed_at<A: Aggregator>(
    alloc: Global,
    aggregator: &A,
    first: Bundle<'_>,
    second: Bundle<'_>,
) -> Result<Vec<Action>, JoinError>
    requires { first.regular ≡ None → second.regular ≡ None → first.partials ++ second.partials ≢ [] }
    ensures { IsJoined result (composed (A.meaning aggregator.now) first.entry second.entry) }
{
    match first.regular() {
        Some(value) => {
            clash_of_regular(alloc, aggregator, first)?;
            match second.regular() {
                Some(last) => put_by_second(alloc, aggregator, last, second),
                None => as_regular(alloc, result_on(alloc, aggregator, value, second)),
            }
        }
        None => {
            clash_of_partials(alloc, aggregator, &first)?;
            match second.regular() {
                Some(only) => put_by_second(alloc, aggregator, only, second),
                None => aggregator.join(alloc, first.partials(), second.partials()),
            }
        }
    }
}

/// Append the instructions of the actions at the location.
fn append(
    alloc: Global,
    list: &mut Vec<Instruction>,
    at: &Location,
    actions: Vec<Action>,
) -> Result<(), AllocError>
    ensures { OnOk result (list.new.items ≡ list.old.items ++ placed at.now actions.items) }
{
    for action in actions {
        let at = at.copy(alloc)?;
        list.push(Instruction { at, action })?;
    }
    Ok(())
}

/// Return the composed instructions of all locations, any number of them.
fn composed_list<'a, A: Aggregator>(
    alloc: Global,
    aggregator: &A,
    first: &'a Instructions,
    second: &'a Instructions,
) -> Result<Vec<Instruction>, ComposeError>
    ensures { IsComposedList (A.meaning aggregator.now) first.now second.now result }
{
    let firsts = Groups::with_room(alloc, first, second)?;
    let mut seconds = Groups::of(alloc, second)?;
    let mut list = Vec::new(alloc);
    for (at, bundle) in firsts.into_entries() {
        match composed_at(alloc, aggregator, bundle, seconds.take(alloc, at)) {
            Ok(actions) => append(alloc, &mut list, at, actions)?,
            Err(error) => return Err(refusal_at(alloc, at, error)),
        }
    }
    Ok(list)
}

/// Return the instructions as a move, if they aren't more than 4,096.
fn limited(alloc: Global, list: Vec<Instruction>) -> Result<Instructions, ComposeError>
    ensures { IsLimited list.items result }
{
    let mut instructions = Instructions::new(alloc);
    for instruction in list {
        match instructions.push(instruction) {
            Ok(()) => {}
            Err(InstructionsError::ManyInstructions) => return Err(ComposeError::ManyInstructions),
            Err(InstructionsError::Memory) => return Err(ComposeError::Memory),
        }
    }
    // Proof: that there are at most 4,096 is what the goal needs.
    let _few = instructions.len();
    Ok(instructions)
}

/// Compose two moves into one, by location in ascending order.
///
/// On a state on which the first fires, firing the composed move is firing the first and then the second, clashes
/// included. On a state on which the first clashes nothing is promised, and the composed move may fire: an addition to
/// a bag and a removal of the same element compose to no instruction, which fires where there is no bag. So judge the
/// first move on the state before its composition is fired.
///
/// Partial updates at one location are joined: additions by element, then removals by element, and none with an amount
/// of 0. Source: sequential composition, by Börger and Stärk; the joins are of this project's profile.
///
/// # Errors
///
/// - `Clash` and `Large` exactly if some location refuses, at the smallest one: no state then lets the first and then
///   the second fire.
/// - `ManyInstructions` exactly if none refuses and the composed list has more than 4,096 instructions.
/// - `Memory` only if memory is refused.
pub fn compose<A: Aggregator>(
    alloc: Global,
    aggregator: &A,
    first: &Instructions,
    second: &Instructions,
) -> Result<Instructions, ComposeError>
    ensures composition { IsComposition (A.meaning aggregator.now) first.now second.now result }
    ensures sequence { KeepsSequence (A.meaning aggregator.now).part first.now second.now result }
{
    // Proof: the sequence is promised of well-formed moves.
    first.proper();
    second.proper();
    match composed_list(alloc, aggregator, first, second) {
        Ok(list) => limited(alloc, list),
        Err(error) => Err(error),
    }
}
