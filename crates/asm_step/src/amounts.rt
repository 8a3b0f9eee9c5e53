//! What actions on a bag add and what they remove, by element.
ghost use Rattle.std.specs.Prelude.{◌≡◌, ◌≤◌, ◌+◌, ◌++◌, ◌&&◌, true, false, nat_eq, nat_lt, is_some, if◌then◌else◌, OnOk, OnErr, IfOk};
ghost use Rattle.std.specs.FinMap as map;
ghost use Rattle.asm_aggregate.specs.BagMeaning.{bag_joins};
ghost use Rattle.asm_element.specs.Bag as bag;
ghost use Rattle.asm_update.specs.Action.{is_partial};
ghost use Rattle.asm_update.specs.declared.action.Action.TheVariants as actions;
ghost use Rattle.asm_update.specs.declared.action.Family.TheVariants as family;
ghost use Rattle.asm_step.specs.Front.{IsApplied, IsChanged, IsExchanged, IsLonger, amounts_list, bag_update, bag_updates, so_many};
ghost use Rattle.asm_step.specs.Front.{IsKnown};
ghost use Rattle.asm_step.specs.Outcomes.{acts};

use crate::front::{Growth, changed, one_if};
use crate::in_place::Known;
use asm_element::{ElemBag, Element, Value};
use asm_update::{Action, Aggregator, Amount};
use std::alloc::{AllocError, Global};

/// How many of each element actions on a bag add, and how many they remove.
#[derive(Drop)]
pub(crate) struct Amounts {
    pub(crate) added: ElemBag,
    pub(crate) removed: ElemBag,
}

// State for proofs that the bag has elements and counts that a bag can hold; do nothing at run time.
fn held(elements: &ElemBag)
    ensures { bag.IsProper elements.now }
{
    let _ = elements.iter();
}

// Whether an element comes to a bag where its count becomes the second number.
fn comes(was: u32, is: u32) -> bool
    ensures { result ≡ (nat_eq was 0 && nat_lt 0 is) }
{
    was == 0 && is > 0
}

// Raises the element's count in one bag and lowers it in the other, if the value takes the update. The rise comes first,
// since what lowers a count takes no memory.
fn recount<A: Aggregator>(
    alloc: Global,
    aggregator: &A,
    to: &mut ElemBag,
    up: u32,
    from: &mut ElemBag,
    down: u32,
    element: &Element,
    value: &mut Value,
    action: &Action,
) -> Result<Option<Growth>, AllocError>
    requires partial { is_partial action.now ≡ true }
    requires up { bag.count to.old element.now ≤ up }
    requires down { down ≤ bag.count from.old element.now }
    ensures to { IfOk result (IsExchanged to.old to.new (bag.raised_to to.old element.now up)) }
    ensures from { IfOk result (IsExchanged from.old from.new (bag.lowered_to from.old element.now down)) }
    ensures value { IfOk result (λ grown. IsChanged (A.meaning aggregator.now) action.now value.old value.new (is_some grown)) }
    ensures grown { IfOk result (IsLonger (map.len to.old + map.len from.old) (map.len to.new + map.len from.new)) }
    ensures err_to { OnErr result (to.new ≡ to.old) }
    ensures err_from { OnErr result (from.new ≡ from.old) }
    ensures err_value { OnErr result (value.new ≡ value.old) }
{
    held(to);
    held(from);
    let before = to.count(element);
    let had = from.count(element);
    to.raise_to(alloc, element, up)?;
    match changed(alloc, aggregator, value, action) {
        Ok(true) => {
            from.lower_to(element, down);
            Ok(Some(Growth {
                more: one_if(comes(before, up)),
                less: one_if(comes(down, had)),
            }))
        }
        Ok(false) => {
            to.lower_to(element, before);
            Ok(None)
        }
        Err(error) => {
            to.lower_to(element, before);
            Err(error)
        }
    }
}

fn update_of(adds: bool, element: Element, amount: Amount) -> Action
    ensures { result ≡ bag_update adds element amount }
{
    if adds {
        Action::BagAdd(element, amount)
    } else {
        Action::BagRemove(element, amount)
    }
}

// Appends the addition of so many of the element, or their removal, if there are any.
fn push_amount(
    alloc: Global,
    actions: &mut Vec<Action>,
    adds: bool,
    element: &Element,
    count: u32,
) -> Result<(), AllocError>
    ensures { OnOk result (actions.new.items ≡ actions.old.items ++ so_many adds element.now count) }
{
    if let Some(amount) = Amount::new(count) {
        actions.push(update_of(adds, element.copy(alloc)?, amount))?;
    }
    Ok(())
}

// Appends the additions of the bag's elements, or their removals.
fn push_amounts(
    alloc: Global,
    actions: &mut Vec<Action>,
    adds: bool,
    elements: &ElemBag,
) -> Result<(), AllocError>
    ensures { OnOk result (actions.new.items ≡ actions.old.items ++ bag_updates adds elements.now) }
{
    for (element, count) in elements.iter() {
        push_amount(alloc, actions, adds, element, *count)?;
    }
    Ok(())
}

impl Amounts {
    /// Gather what the actions add and what they remove.
    ///
    /// Of several at one element and side it is the largest.
    pub(crate) fn of(alloc: Global, actions: &[Action]) -> Result<Amounts, AllocError> {
        let mut added = ElemBag::new(alloc);
        let mut removed = ElemBag::new(alloc);
        for action in actions {
            match action {
                Action::BagAdd(element, amount) => added.raise_to(alloc, element, amount.get())?,
                Action::BagRemove(element, amount) => {
                    removed.raise_to(alloc, element, amount.get())?
                }
                _ => {}
            }
        }
        Ok(Amounts { added, removed })
    }

    /// Return the additions and then the removals.
    pub(crate) fn listed(&self, alloc: Global) -> Result<Vec<Action>, AllocError>
        ensures { IfOk result (λ list. list.items ≡ amounts_list self.now) }
    {
        let mut actions = Vec::new(alloc);
        push_amounts(alloc, &mut actions, true, &self.added)?;
        push_amounts(alloc, &mut actions, false, &self.removed)?;
        Ok(actions)
    }

    /// Return whether there are actions.
    pub(crate) fn acts(&self) -> bool
        ensures { result ≡ acts (amounts_list self.now) }
    {
        held(&self.added);
        held(&self.removed);
        self.added.iter().next().is_some() || self.removed.iter().next().is_some()
    }

    // Joins the addition of so many of the element.
    fn add<A: Aggregator>(
        &mut self,
        alloc: Global,
        aggregator: &A,
        element: &Element,
        amount: Amount,
        value: &mut Value,
        action: &Action,
    ) -> Result<Option<Growth>, AllocError>
        requires added { action.now ≡ actions.BagAdd element.now amount }
        requires some { acts (amounts_list self.old) ≡ true }
        requires known { IsKnown (A.meaning aggregator.now) family.Bag bag_joins Known.Own }
        ensures ok { IfOk result (IsApplied (A.meaning aggregator.now) action.now value.old (amounts_list self.old)
            value.new (amounts_list self.new)) }
        ensures err { OnErr result (self.new ≡ self.old) }
        ensures err_value { OnErr result (value.new ≡ value.old) }
    {
        held(&self.added);
        held(&self.removed);
        let removed = self.removed.count(element);
        let Some(up) = self.added.count(element).checked_add(amount.get()) else {
            return Ok(None);
        };
        recount(
            alloc,
            aggregator,
            &mut self.added,
            up,
            &mut self.removed,
            removed,
            element,
            value,
            action,
        )
    }

    // Joins the removal of so many of the element: what was added goes first.
    fn remove<A: Aggregator>(
        &mut self,
        alloc: Global,
        aggregator: &A,
        element: &Element,
        amount: Amount,
        value: &mut Value,
        action: &Action,
    ) -> Result<Option<Growth>, AllocError>
        requires removed { action.now ≡ actions.BagRemove element.now amount }
        requires some { acts (amounts_list self.old) ≡ true }
        requires known { IsKnown (A.meaning aggregator.now) family.Bag bag_joins Known.Own }
        ensures ok { IfOk result (IsApplied (A.meaning aggregator.now) action.now value.old (amounts_list self.old)
            value.new (amounts_list self.new)) }
        ensures err { OnErr result (self.new ≡ self.old) }
        ensures err_value { OnErr result (value.new ≡ value.old) }
    {
        held(&self.added);
        held(&self.removed);
        let n = amount.get();
        let added = self.added.count(element);
        let rest = n.saturating_sub(added);
        let Some(up) = self.removed.count(element).checked_add(rest) else {
            return Ok(None);
        };
        recount(
            alloc,
            aggregator,
            &mut self.removed,
            up,
            &mut self.added,
            added.saturating_sub(n),
            element,
            value,
            action,
        )
    }

    /// Join the partial update, which the value takes, too.
    ///
    /// `None` is the answer if it isn't one of bags, has no result, or makes an amount too large. On error, nothing
    /// changes.
    pub(crate) fn join<A: Aggregator>(
        &mut self,
        alloc: Global,
        aggregator: &A,
        value: &mut Value,
        action: &Action,
    ) -> Result<Option<Growth>, AllocError>
        requires some { acts (amounts_list self.old) ≡ true }
        requires known { IsKnown (A.meaning aggregator.now) family.Bag bag_joins Known.Own }
        ensures ok { IfOk result (IsApplied (A.meaning aggregator.now) action.now value.old (amounts_list self.old)
            value.new (amounts_list self.new)) }
        ensures err { OnErr result (self.new ≡ self.old) }
        ensures err_value { OnErr result (value.new ≡ value.old) }
    {
        match action {
            Action::BagAdd(element, amount) => {
                self.add(alloc, aggregator, element, *amount, value, action)
            }
            Action::BagRemove(element, amount) => {
                self.remove(alloc, aggregator, element, *amount, value, action)
            }
            _ => Ok(None),
        }
    }
}
