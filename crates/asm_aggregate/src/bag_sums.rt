//! What a list of partial updates of bags adds and removes of each element, gathered in one walk.
ghost use Rattle.std.specs.Prelude.{◌≡◌, ◌≤◌, ◌^◌, IfOk, OnOk};
ghost use Rattle.asm_element.specs.declared.element.Element.{Element};
ghost use Rattle.asm_aggregate.specs.BagMeaning.{amount, amount_in};
ghost use Rattle.asm_aggregate.specs.Sums.{sums_at, AreSmall, IsMoreAt};
ghost use Rattle.asm_aggregate.specs.declared.side.Side.TheVariants as sides;

use crate::bag_agg::element_named;
use crate::side::Side;
use asm_element::Element;
use asm_update::Action;
use std::alloc::{AllocError, Global};
use std::collections::BTreeMap;
use std::marker::Model;

/// How many of an element are added, and how many are removed.
#[derive(Clone, Copy)]
pub(crate) struct Amounts {
    pub(crate) added: u128,
    pub(crate) removed: u128,
}

/// A list of actions with what they add and remove of each element.
///
/// Contracts see the actions.
#[derive(Drop)]
pub(crate) struct Sums<'a> {
    actions: &'a [Action],
    by_element: BTreeMap<&'a Element, Amounts>,
}

impl<'a> Model for Sums<'a> {
    ghost use Rattle.std.specs.Prelude.{List, ◌^◌};
    ghost use Rattle.std.specs.Coded.{coded_list};
    ghost use Rattle.asm_update.specs.contracts.action.Action.{the_row as action_row};
    ghost use Rattle.asm_update.specs.declared.action.Action.{Action};
    ghost use Rattle.asm_aggregate.specs.Sums.{AreSums};

    ghost Value = { List Action };

    ghost coded = { coded_list action_row.coded };

    ghost view = { λ s. s.actions.now };

    ghost invariant = { λ s. AreSums s.actions.now (2 ^ 96) s.by_element };
}

/// Return how many of the element the action adds, or how many it removes.
fn amount_of(side: Side, action: &Action, element: &Element) -> u32
    ensures { result ≡ amount side element.now action.now }
{
    match (side, action) {
        (Side::Added, Action::BagAdd(other, amount)) if *element == *other => amount.get(),
        (Side::Removed, Action::BagRemove(other, amount)) if *element == *other => amount.get(),
        _ => 0,
    }
}

fn with_action(old: Amounts, action: &Action, element: &Element) -> Amounts
    requires { AreSmall old }
    ensures { IsMoreAt action.now element.now old result }
{
    Amounts {
        added: old.added + u128::from(amount_of(Side::Added, action, element)),
        removed: old.removed + u128::from(amount_of(Side::Removed, action, element)),
    }
}

fn add_to<'a>(
    by_element: &mut BTreeMap<&'a Element, Amounts>,
    action: &'a Action,
) -> Result<(), AllocError>
    requires { (e : Element) → AreSmall (sums_at by_element.old e) }
    ensures { OnOk result ((e : Element) →
        IsMoreAt action.now e (sums_at by_element.old e) (sums_at by_element.new e)) }
{
    if let Some(element) = element_named(action) {
        let nothing = Amounts {
            added: 0,
            removed: 0,
        };
        let old = by_element.get(&element).copied().unwrap_or(nothing);
        by_element.insert(element, with_action(old, action, element))?;
    }
    Ok(())
}

impl<'a> Sums<'a> {
    /// Return the actions with their sums, by one walk.
    pub(crate) fn of(alloc: Global, actions: &'a [Action]) -> Result<Sums<'a>, AllocError>
        ensures { IfOk result (λ sums. sums ≡ actions.now) }
    {
        let mut by_element = BTreeMap::new(alloc);
        for action in actions {
            add_to(&mut by_element, action)?;
        }
        Ok(Sums {
            actions,
            by_element,
        })
    }

    /// Return how many of the element the actions add and how many they remove.
    pub(crate) fn at(&self, element: &'a Element) -> Amounts
        ensures added { result.added ≡ amount_in sides.Added self.now element.now }
        ensures removed { result.removed ≡ amount_in sides.Removed self.now element.now }
        ensures added_fits { result.added ≤ 2 ^ 96 }
        ensures removed_fits { result.removed ≤ 2 ^ 96 }
    {
        let nothing = Amounts {
            added: 0,
            removed: 0,
        };
        self.by_element.get(&element).copied().unwrap_or(nothing)
    }
}
