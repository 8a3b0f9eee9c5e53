ghost use Rattle.std.specs.Prelude.{◌≡◌, ◌≤◌, ◌↔◌, IfSome, IsNone, IsTrue};
ghost use Rattle.std.specs.Cmp.{partial_equiv_from_equiv};
ghost use Rattle.asm_update.specs.Action as action;
ghost use Rattle.asm_update.specs.Equal.{action_eq-equiv, instruction_eq-equiv};

use asm_element::{Element, Location, Value};
use std::alloc::AllocError;
use std::marker::Model;

/// How many of an element a partial update of a bag adds or removes.
///
/// It is 1 to 4,294,967,295, and contracts see it as this number. Source: this project's profile.
#[derive(Clone, Copy, Debug, PartialEq, Eq)]
pub struct Amount {
    n: u32,
}

impl Model for Amount {
    ghost use Rattle.std.specs.Prelude.{ℕ, ◌≤◌};

    ghost Value = { ℕ };

    ghost view = { λ a. a.n };

    ghost inverse = { λ n. record { n = n } };

    ghost invariant = { λ a. 1 ≤ a.n };
}

impl Amount {
    /// Return the amount n, or None where n is 0.
    pub fn new(n: u32) -> Option<Amount>
        ensures zero { IsNone result ↔ (n ≡ 0) }
        ensures value { IfSome result (λ amount. amount ≡ n) }
    {
        if n == 0 { None } else { Some(Amount { n }) }
    }

    /// Return the number, which is at least 1.
    pub fn get(self) -> u32
        ensures value { result ≡ self }
        ensures positive { 1 ≤ self }
    {
        self.n
    }
}

/// The kinds of value that partial updates change.
///
/// Source: sets as in CoreASM; bags and counters are of this project's profile.
#[derive(Clone, Copy, Debug, PartialEq, Eq)]
pub enum Family {
    /// Partial updates of sets.
    Set,
    /// Partial updates of bags.
    Bag,
    /// Partial updates of counters, which are numbers.
    Count,
}

/// What an update instruction does at its location.
///
/// Source: regular updates as in Börger and Stärk; partial updates of sets as in CoreASM; those of bags and of
/// counters are of this project's profile.
#[derive(Debug, Drop)]
pub enum Action {
    /// Writes the value; undef leaves nothing there.
    Regular(Value),
    /// Adds the element to a set, also where it is there already.
    SetAdd(Element),
    /// Removes the element from a set, also where it isn't there.
    SetRemove(Element),
    /// Raises the count of the element in a bag by the amount.
    BagAdd(Element, Amount),
    /// Lowers the count of the element in a bag by the amount.
    BagRemove(Element, Amount),
    /// Raises the number of a counter by this one, which may be 0 or below.
    Increment(i64),
}

impl Action {
    ghost use Rattle.asm_update.specs.Action.{family_of};

    /// Return the family of a partial update; None for a regular one.
    pub fn family(&self) -> Option<Family>
        ensures { result ≡ family_of self.now }
    {
        match self {
            Action::Regular(_) => None,
            Action::SetAdd(_) | Action::SetRemove(_) => Some(Family::Set),
            Action::BagAdd(..) | Action::BagRemove(..) => Some(Family::Bag),
            Action::Increment(_) => Some(Family::Count),
        }
    }

    /// State for proofs that the action is well-formed; do nothing at run time.
    pub fn proper(&self)
        ensures { action.IsProper self.now }
    {
        // Proof: a number and an amount are read for what that shows of them, which the goal needs.
        match self {
            Action::Regular(value) => value.proper(),
            Action::SetAdd(element) | Action::SetRemove(element) => element.proper(),
            Action::BagAdd(element, amount) | Action::BagRemove(element, amount) => {
                element.proper();
                let _amount = amount.get();
            }
            Action::Increment(n) => {
                let _n = *n;
            }
        }
    }
}

impl Clone for Action {
    ghost is_clone = { λ action copy. copy ≡ action };

    fn clone(&self) -> Result<Action, AllocError> {
        Ok(match self {
            Action::Regular(value) => Action::Regular(value.clone()?),
            Action::SetAdd(element) => Action::SetAdd(element.clone()?),
            Action::SetRemove(element) => Action::SetRemove(element.clone()?),
            Action::BagAdd(element, amount) => Action::BagAdd(element.clone()?, *amount),
            Action::BagRemove(element, amount) => Action::BagRemove(element.clone()?, *amount),
            Action::Increment(n) => Action::Increment(*n),
        })
    }
}

impl PartialEq for Action {
    ghost eq = { action.action_eq };

    ghost laws = { partial_equiv_from_equiv action_eq-equiv };

    fn eq(&self, other: &Action) -> bool
        ensures eq { result ≡ action.action_eq self.now other.now }
        ensures same { IsTrue result ↔ (self.now ≡ other.now) }
    {
        match (self, other) {
            (Action::Regular(a), Action::Regular(b)) => a == b,
            (Action::SetAdd(a), Action::SetAdd(b)) => a == b,
            (Action::SetRemove(a), Action::SetRemove(b)) => a == b,
            (Action::BagAdd(a, n), Action::BagAdd(b, m)) => n == m && a == b,
            (Action::BagRemove(a, n), Action::BagRemove(b, m)) => n == m && a == b,
            (Action::Increment(a), Action::Increment(b)) => a == b,
            _ => false,
        }
    }
}

impl Eq for Action {
    ghost laws = { action_eq-equiv };
}

/// An update instruction: an action at a location.
///
/// Source: CoreASM, whose instructions are a location, a value and an action.
#[derive(Debug, Drop)]
pub struct Instruction {
    /// The location that is written.
    pub at: Location,
    /// What is done there.
    pub action: Action,
}

impl Clone for Instruction {
    ghost is_clone = { λ instruction copy. copy ≡ instruction };

    fn clone(&self) -> Result<Instruction, AllocError> {
        Ok(Instruction {
            at: self.at.clone()?,
            action: self.action.clone()?,
        })
    }
}

impl PartialEq for Instruction {
    ghost eq = { action.instruction_eq };

    ghost laws = { partial_equiv_from_equiv instruction_eq-equiv };

    fn eq(&self, other: &Instruction) -> bool
        ensures eq { result ≡ action.instruction_eq self.now other.now }
        ensures same { IsTrue result ↔ (self.now ≡ other.now) }
    {
        self.at == other.at && self.action == other.action
    }
}

impl Eq for Instruction {
    ghost laws = { instruction_eq-equiv };
}
