ghost use Rattle.std.specs.Prelude.{◌≡◌};
ghost use Rattle.std.specs.Option.{option_copied};
ghost use Rattle.asm_update.specs.Group.{ArePartials};

use crate::action::Action;
use asm_element::Value;
use std::marker::Model;

/// The actions of one move at one location that has partial updates.
///
/// A group has at most one regular value, and at least one partial update.
///
/// Contracts see it as the record of the two. Source: CoreASM, where a location's instructions are aggregated together;
/// that equal regular values count as one is of this project's profile.
#[derive(Debug, Drop)]
pub struct Group {
    regular: Option<Value>,
    partials: Vec<Action>,
}

impl Model for Group {
    ghost use Rattle.asm_element.specs.contracts.value.Value.{the_row as value_row};
    ghost use Rattle.asm_update.specs.contracts.action.Action.{the_row as action_row};
    ghost use Rattle.asm_update.specs.Group.{Parts, ArePartials, parts_code};

    ghost Value = { Parts };

    ghost coded = { parts_code value_row.coded action_row.coded };

    ghost view = { λ g. record { regular = g.regular; partials = g.partials.items } };

    ghost invariant = { λ g. ArePartials g.partials.items };
}

impl Group {
    /// Return the group of a regular value and a list of partial updates.
    ///
    /// The regular value may be absent; the list must have an item.
    pub fn new(regular: Option<Value>, partials: Vec<Action>) -> Group
        requires { ArePartials partials.items }
        ensures { result ≡ record { regular = regular; partials = partials.items } }
    {
        Group { regular, partials }
    }

    /// Return the regular value, if there is one.
    pub fn regular(&self) -> Option<&Value>
        ensures { option_copied result ≡ self.now.regular }
    {
        self.regular.as_ref()
    }

    /// Return the partial updates, at least one.
    pub fn partials(&self) -> &[Action]
        ensures partials { result.now ≡ self.now.partials }
        ensures valid { ArePartials self.now.partials }
    {
        self.partials.as_slice()
    }
}
