//! What actions on a set add and what they remove, by element.
ghost use Rattle.std.specs.Prelude.{◌≡◌, ◌+◌, ◌++◌, true, false, not, is_some, OnOk, OnErr, IfOk};
ghost use Rattle.asm_aggregate.specs.SetMeaning.{set_joins};
ghost use Rattle.asm_aggregate.specs.Sets.{meets};
ghost use Rattle.asm_element.specs.Set as set;
ghost use Rattle.asm_update.specs.Action.{is_partial, AllProper};
ghost use Rattle.asm_update.specs.declared.action.Family.TheVariants as family;
ghost use Rattle.asm_step.specs.Front.{IsApplied, IsChanged, IsExchanged, IsLonger, set_update, set_updates, sides_list};
ghost use Rattle.asm_step.specs.Front.{IsKnown};
ghost use Rattle.asm_step.specs.Outcomes.{acts};

use crate::front::{Growth, changed, one_if};
use crate::in_place::Known;
use asm_element::{ElemSet, Element, Value};
use asm_update::{Action, Aggregator};
use std::alloc::{AllocError, Global};

/// What actions on a set add and what they remove, none of which is both.
#[derive(Drop)]
pub(crate) struct Sides {
    pub(crate) added: ElemSet,
    pub(crate) removed: ElemSet,
}

// Takes the element out again, if it is new; it takes no memory.
fn take_back(elements: &mut ElemSet, element: &Element, is_new: bool)
    ensures { (before : set.ElementSet) → is_new ≡ not (set.contains before element.now) →
        elements.old ≡ set.insert before element.now → elements.new ≡ before }
{
    if is_new {
        elements.remove(element);
    }
}

// Puts the element into one set and takes it out of the other, if the value takes the update. The insertion comes first,
// since the removals take no memory.
fn exchange<A: Aggregator>(
    alloc: Global,
    aggregator: &A,
    to: &mut ElemSet,
    from: &mut ElemSet,
    element: &Element,
    value: &mut Value,
    action: &Action,
) -> Result<Option<Growth>, AllocError>
    requires { is_partial action.now ≡ true }
    ensures to { IfOk result (IsExchanged to.old to.new (set.insert to.old element.now)) }
    ensures from { IfOk result (IsExchanged from.old from.new (set.remove from.old element.now)) }
    ensures value { IfOk result (λ grown. IsChanged (A.meaning aggregator.now) action.now value.old value.new (is_some grown)) }
    ensures grown { IfOk result (IsLonger (set.len to.old + set.len from.old) (set.len to.new + set.len from.new)) }
    ensures err_to { OnErr result (to.new ≡ to.old) }
    ensures err_from { OnErr result (from.new ≡ from.old) }
    ensures err_value { OnErr result (value.new ≡ value.old) }
{
    let is_new = to.insert(element.copy(alloc)?)?;
    match changed(alloc, aggregator, value, action) {
        Ok(true) => {
            let was_there = from.remove(element);
            Ok(Some(Growth {
                more: one_if(is_new),
                less: one_if(was_there),
            }))
        }
        Ok(false) => {
            take_back(to, element, is_new);
            Ok(None)
        }
        Err(error) => {
            take_back(to, element, is_new);
            Err(error)
        }
    }
}

/// Return whether the sets have an element in common.
pub(crate) fn meet(one: &ElemSet, other: &ElemSet) -> bool
    ensures { result ≡ meets one.now other.now }
{
    one.iter().any(|element| other.contains(element))
}

fn update_of(adds: bool, element: Element) -> Action
    ensures { result ≡ set_update adds element }
{
    if adds {
        Action::SetAdd(element)
    } else {
        Action::SetRemove(element)
    }
}

// Appends the additions of the elements, or their removals.
fn push_side(
    alloc: Global,
    actions: &mut Vec<Action>,
    adds: bool,
    elements: &ElemSet,
) -> Result<(), AllocError>
    ensures { OnOk result (actions.new.items ≡ actions.old.items ++ set_updates adds elements.now) }
{
    for element in elements.iter() {
        actions.push(update_of(adds, element.copy(alloc)?))?;
    }
    Ok(())
}

impl Sides {
    /// Gather what the actions add and what they remove.
    pub(crate) fn of(alloc: Global, actions: &[Action]) -> Result<Sides, AllocError> {
        let mut added = ElemSet::new(alloc);
        let mut removed = ElemSet::new(alloc);
        for action in actions {
            match action {
                Action::SetAdd(element) => {
                    added.insert(element.copy(alloc)?)?;
                }
                Action::SetRemove(element) => {
                    removed.insert(element.copy(alloc)?)?;
                }
                _ => {}
            }
        }
        Ok(Sides { added, removed })
    }

    /// Return whether there are actions.
    #[tactic(auto, using(crate::proofs::SetLists::acts_removed, crate::proofs::SetLists::acts_some))]
    pub(crate) fn acts(&self) -> bool
        ensures { result ≡ acts (sides_list self.now) }
    {
        if self.added.is_empty() {
            return !self.removed.is_empty();
        }
        true
    }

    /// Return the additions and then the removals.
    pub(crate) fn listed(&self, alloc: Global) -> Result<Vec<Action>, AllocError>
        ensures { IfOk result (λ list. list.items ≡ sides_list self.now) }
    {
        let mut actions = Vec::new(alloc);
        push_side(alloc, &mut actions, true, &self.added)?;
        push_side(alloc, &mut actions, false, &self.removed)?;
        Ok(actions)
    }

    // State for proofs that the actions are well-formed; do nothing at run time.
    #[tactic(auto, using(crate::proofs::SetLists::proper_list))]
    fn proper(&self)
        ensures { AllProper (sides_list self.now) }
    {
        let _added = self.added.iter();
        let _removed = self.removed.iter();
    }

    /// Join the partial update, which the value takes, too.
    ///
    /// `None` is the answer if it isn't one of sets, or has no result. On error, nothing changes.
    pub(crate) fn join<A: Aggregator>(
        &mut self,
        alloc: Global,
        aggregator: &A,
        value: &mut Value,
        action: &Action,
    ) -> Result<Option<Growth>, AllocError>
        requires partial { is_partial action.now ≡ true }
        requires some { acts (sides_list self.old) ≡ true }
        requires apart { meets self.old.added self.old.removed ≡ false }
        requires known { IsKnown (A.meaning aggregator.now) family.Set set_joins Known.Own }
        ensures apart { meets self.new.added self.new.removed ≡ false }
        ensures ok { IfOk result (IsApplied (A.meaning aggregator.now) action.now value.old (sides_list self.old)
            value.new (sides_list self.new)) }
        ensures err { OnErr result (self.new ≡ self.old) }
        ensures err_value { OnErr result (value.new ≡ value.old) }
    {
        self.proper();
        match action {
            Action::SetAdd(element) => exchange(
                alloc,
                aggregator,
                &mut self.added,
                &mut self.removed,
                element,
                value,
                action,
            ),
            Action::SetRemove(element) => exchange(
                alloc,
                aggregator,
                &mut self.removed,
                &mut self.added,
                element,
                value,
                action,
            ),
            _ => Ok(None),
        }
    }
}
