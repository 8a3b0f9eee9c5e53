//! Terms: what a script writes in place of a value.
ghost use Rattle.std.specs.Prelude.{◌≡◌, Some, IfOk};
ghost use Rattle.asm_script.specs.Terms.{location_in, number_value, term_value, element_value};
ghost use Rattle.asm_script.specs.Terms.{given_number, IsEvaluated};

use asm_element::{Element, Location, Value};
use asm_update::Lookup;
use std::alloc::{AllocError, AllocFailed, Global};

/// A term of a script, which it has in place of a value.
///
/// These are terms of Börger and Stärk's rules, of which a script has three kinds.
#[derive(Debug, Drop)]
pub enum Term {
    /// A value that is written out.
    Value(Value),
    /// The value of a location in the state in which the term is evaluated.
    Val(Location),
    /// The sum of two terms.
    ///
    /// It needs two numbers, and a sum in the range of `i64`.
    Sum(Box<Term>, Box<Term>),
}

/// A value, and the location that holds it, where a term takes it from one.
#[derive(Debug, Drop, PartialEq, Eq)]
pub struct Found {
    /// The location; `None` where the value is written out or is a sum.
    pub at: Option<Location>,
    /// The value.
    pub value: Value,
}

/// Why a term has no value in its place.
#[derive(Debug, Drop, PartialEq, Eq)]
pub enum NoValue {
    /// A term of a sum is this, which is no number.
    NoNumber(Found),
    /// The term is this, which is no element, in the place of an element.
    ///
    /// That is an element of a set or a bag.
    NoElement(Found),
    /// The sum of these two numbers is not in the range of `i64`.
    OutOfRange(i64, i64),
}

/// Why a term, or an instruction with a term, is not evaluated.
#[derive(Debug, Drop, PartialEq, Eq)]
pub enum TermFault {
    /// The term has no value.
    Faulty(NoValue),
    /// The memory that the call asked for was refused.
    Memory,
}

impl From<AllocError> for TermFault {
    ghost use Rattle.std.specs.Prelude.{◌≡◌};
    ghost use Rattle.asm_script.specs.declared.term.TermFault.TheVariants.{Memory};

    ghost from_gives = { λ _ e. e ≡ Memory };

    fn from(_refused: AllocError) -> TermFault {
        TermFault::Memory
    }
}

impl<T: Drop> From<AllocFailed<T>> for TermFault {
    ghost use Rattle.std.specs.Prelude.{◌≡◌};
    ghost use Rattle.asm_script.specs.declared.term.TermFault.TheVariants.{Memory};

    ghost from_gives = { λ _ e. e ≡ Memory };

    fn from(_refused: AllocFailed<T>) -> TermFault {
        TermFault::Memory
    }
}

/// Return the value's number, if it is a number.
fn number_in(value: &Value) -> Option<i64>
    ensures { result ≡ given_number (Some value.now) }
{
    match value {
        Value::Plain(Element::Num(n)) => Some(*n),
        _ => None,
    }
}

/// Return the number that the location holds, if it holds one.
fn number_at<L: Lookup>(at: &Location, lookup: &L) -> Option<i64>
    ensures { result ≡ given_number (Some (L.value_at lookup.now at.now)) }
{
    number_in(lookup.get(at)?)
}

/// Return the location that the term takes its value from, if it takes it from one.
fn location_of(alloc: Global, term: &Term) -> Result<Option<Location>, AllocError>
    ensures { IfOk result (λ at. at ≡ location_in term.now) }
{
    match term {
        Term::Val(at) => Ok(Some(at.copy(alloc)?)),
        _ => Ok(None),
    }
}

/// Return the number that the term evaluates to.
///
/// Of a sum the first term is evaluated first.
fn number<L: Lookup>(alloc: Global, term: &Term, lookup: &L) -> Result<i64, TermFault>
    ensures { IsEvaluated (number_value (L.value_at lookup.now) term.now) result }
{
    match term {
        Term::Value(value) => match number_in(value) {
            Some(n) => Ok(n),
            None => Err(TermFault::Faulty(NoValue::NoNumber(Found {
                at: None,
                value: value.copy(alloc)?,
            }))),
        },
        Term::Val(at) => match number_at(at, lookup) {
            Some(n) => Ok(n),
            None => Err(TermFault::Faulty(NoValue::NoNumber(Found {
                at: Some(at.copy(alloc)?),
                value: Value::copy_or_undef(alloc, lookup.get(at))?,
            }))),
        },
        Term::Sum(first, second) => {
            let first = number(alloc, first, lookup)?;
            let second = number(alloc, second, lookup)?;
            match first.checked_add(second) {
                Some(sum) => Ok(sum),
                None => Err(TermFault::Faulty(NoValue::OutOfRange(first, second))),
            }
        }
    }
}

/// Evaluate a term, with the look-up for the values of locations.
///
/// A location without a value is undef.
///
/// # Errors
///
/// - `TermFault::Faulty` exactly if the term has no value: a sum needs two numbers whose sum is in the range of `i64`.
/// - `Memory` only if memory is refused.
pub fn evaluate<L: Lookup>(alloc: Global, term: &Term, lookup: &L) -> Result<Value, TermFault>
    ensures { IsEvaluated (term_value (L.value_at lookup.now) term.now) result }
{
    match term {
        Term::Value(value) => Ok(value.copy(alloc)?),
        Term::Val(at) => Ok(Value::copy_or_undef(alloc, lookup.get(at))?),
        Term::Sum(..) => Ok(Value::Plain(Element::Num(number(alloc, term, lookup)?))),
    }
}

/// Evaluate a term to an element.
///
/// # Errors
///
/// - `TermFault::Faulty` exactly if the term has no value, or one that is a set or a bag.
/// - `Memory` only if memory is refused.
pub fn element<L: Lookup>(alloc: Global, term: &Term, lookup: &L) -> Result<Element, TermFault>
    ensures { IsEvaluated (element_value (L.value_at lookup.now) term.now) result }
{
    match evaluate(alloc, term, lookup)? {
        Value::Plain(element) => Ok(element),
        value => {
            let at = location_of(alloc, term)?;
            Err(TermFault::Faulty(NoValue::NoElement(Found { at, value })))
        }
    }
}
