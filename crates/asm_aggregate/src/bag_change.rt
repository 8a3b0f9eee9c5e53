//! Groups of partial updates of bags, judged by the counts of what they name and carried out in place.
ghost use Rattle.std.specs.Prelude.{◌≡◌, unwrap_or, true, Ok, Err, IfOk, IfErr, OnOk, OnErr, All};
ghost use Rattle.std.specs.Option.{option_copied};
ghost use Rattle.asm_element.specs.Bag as bag;
ghost use Rattle.asm_element.specs.Value.{undef};
ghost use Rattle.asm_element.specs.declared.element.Element.{Element};
ghost use Rattle.asm_element.specs.declared.value.Value.TheVariants as values;
ghost use Rattle.asm_update.specs.Aggregator.{IsOutcome};
ghost use Rattle.asm_update.specs.declared.action.Family.TheVariants as family;
ghost use Rattle.asm_aggregate.specs.BagMeaning.{bag_result, counts, named, recounted};
ghost use Rattle.asm_aggregate.specs.BagMeaning.{tabled};
ghost use Rattle.asm_aggregate.specs.Families.{is_kind};
ghost use Rattle.asm_aggregate.specs.Sets.{is_the};
ghost use Rattle.asm_aggregate.specs.Steps.{IsMoved, raised, lowered, names_in};

use crate::bag_agg::{bag_of, element_named, with, without};
use crate::families::{are_all_of, base_of};
use asm_element::{ElemBag, Element, Value};
use asm_update::{Action, Cause, Family, Group, ResultError};
use std::alloc::{AllocError, Global};

/// The counts of the elements that a group names, before and after the group.
#[derive(Drop)]
pub(crate) struct Recount {
    before: ElemBag,
    after: ElemBag,
}

// State for proofs that the bag's counts are those that a bag can hold, which the sums of old and new counts need:
// they fit where each count does; do nothing at run time.
fn counted(elements: &ElemBag)
    ensures { All bag.IsCount (bag.counts elements.now) }
{
    let _ = elements.iter();
}

fn raise_one(
    alloc: Global,
    elements: &mut ElemBag,
    to: &ElemBag,
    element: Option<&Element>,
) -> Result<(), AllocError>
    ensures ok { OnOk result
        (IsMoved raised (λ e. is_the e (option_copied element.entry)) elements.old to.now elements.new) }
    ensures err { OnErr result (elements.new ≡ elements.old) }
{
    if let Some(element) = element {
        elements.raise_to(alloc, element, to.count(element))?;
    }
    Ok(())
}

fn lower_one(elements: &mut ElemBag, to: &ElemBag, element: Option<&Element>)
    ensures { IsMoved lowered (λ e. is_the e (option_copied element.entry)) elements.old to.now elements.new }
{
    if let Some(element) = element {
        elements.lower_to(element, to.count(element));
    }
}

/// Raise the counts of what the actions name to the other bag's.
///
/// On error, some of them are raised.
fn raise(
    alloc: Global,
    elements: &mut ElemBag,
    to: &ElemBag,
    actions: &[Action],
) -> Result<(), AllocError>
    ensures ok { OnOk result (IsMoved raised (names_in actions.now) elements.old to.now elements.new) }
    ensures err { OnErr result (IsMoved lowered (names_in actions.now) elements.new elements.old elements.old) }
{
    for action in actions {
        raise_one(alloc, elements, to, element_named(action))?;
    }
    Ok(())
}

/// Lower the counts of what the actions name to the other bag's.
///
/// It needs no memory.
fn lower(elements: &mut ElemBag, to: &ElemBag, actions: &[Action])
    ensures { IsMoved lowered (names_in actions.now) elements.old to.now elements.new }
{
    for action in actions {
        lower_one(elements, to, element_named(action));
    }
}

/// Return the part of the bag that has the elements that the actions name.
fn excerpt(alloc: Global, elements: &ElemBag, actions: &[Action]) -> Result<ElemBag, AllocError>
    ensures { IfOk result (λ b. IsMoved raised (names_in actions.now) bag.empty elements.now b) }
{
    let mut part = ElemBag::new(alloc);
    raise(alloc, &mut part, elements, actions)?;
    Ok(part)
}

/// Return the counts before and after the actions, or why there is no result.
fn recount_of(alloc: Global, elements: &ElemBag, actions: &[Action]) -> Result<Recount, ResultError>
    ensures before { IfOk result (λ r. IsMoved raised (names_in actions.now) bag.empty elements.now r.before) }
    ensures ok { IfOk result (λ r. tabled elements.now actions.now
        ≡ Ok (values.Bag (recounted elements.now (bag.count r.after) (named actions.now)))) }
    ensures err { IfErr result (λ e. IsOutcome (Err e) (tabled elements.now actions.now)) }
{
    counted(elements);
    let before = excerpt(alloc, elements, actions)?;
    let rest = without(before.copy(alloc)?, actions)?;
    let after = with(alloc, rest, actions)?;
    counted(&after);
    Ok(Recount { before, after })
}

/// Return the counts before and after a group that has a result on the old value.
pub(crate) fn admitted(
    alloc: Global,
    old: Option<&Value>,
    group: &Group,
) -> Result<Recount, ResultError>
    ensures kind { IfOk result (λ r. is_kind family.Bag (unwrap_or (option_copied old.entry) undef) ≡ true) }
    ensures before { IfOk result (λ r. IsMoved raised (names_in group.now.partials) bag.empty
        (counts (unwrap_or (option_copied old.entry) undef)) r.before) }
    ensures ok { IfOk result (λ r. bag_result (unwrap_or (option_copied old.entry) undef) group.now.regular
        group.now.partials ≡ Ok (values.Bag
        (recounted (counts (unwrap_or (option_copied old.entry) undef)) (bag.count r.after)
        (named group.now.partials)))) }
    ensures err { IfErr result (λ e. IsOutcome (Err e)
        (bag_result (unwrap_or (option_copied old.entry) undef) group.now.regular group.now.partials)) }
{
    let partials = group.partials();
    if !are_all_of(Family::Bag, partials) {
        return Err(ResultError::Cause(Cause::Mixed));
    }
    let Some(base) = bag_of(base_of(old, group)) else {
        return Err(ResultError::Cause(Cause::Kind));
    };
    if group.regular().is_some() {
        return Err(ResultError::Cause(Cause::Against));
    }
    recount_of(alloc, base, partials)
}

/// Change the counts of what the actions name in place.
///
/// Those that grow come first, since the others take no memory. On error, the bag is unchanged.
pub(crate) fn change_bag(
    alloc: Global,
    elements: &mut ElemBag,
    recount: &Recount,
    actions: &[Action],
) -> Result<(), AllocError>
    requires { IsMoved raised (names_in actions.now) bag.empty elements.old recount.now.before }
    ensures ok { OnOk result
        (elements.new ≡ recounted elements.old (bag.count recount.now.after) (named actions.now)) }
    ensures err { OnErr result (elements.new ≡ elements.old) }
{
    counted(&*elements);
    match raise(alloc, elements, &recount.after, actions) {
        Ok(()) => {
            lower(elements, &recount.after, actions);
            counted(&*elements);
            Ok(())
        }
        Err(error) => {
            lower(elements, &recount.before, actions);
            counted(&*elements);
            Err(error)
        }
    }
}
