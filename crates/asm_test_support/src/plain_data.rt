//! Locations and values from texts and numbers.
ghost use Rattle.std.specs.Prelude.{◌≡◌, [], IfOk};

use asm_element::{Element, Location, Value};
use std::alloc::{AllocError, Global};

/// Why 0 is no amount.
#[derive(Debug, Drop)]
pub struct Zero;

/// Return the location of this name, without arguments.
///
/// # Errors
///
/// - `AllocError` if memory was refused, and for a name that isn't one, which no table has.
pub fn location(alloc: Global, name: &str) -> Result<Location, AllocError>
    ensures { IfOk result (λ l. l ≡ record { name = name.now; args = [] }) }
{
    let owned = String::from_str(alloc, name)?;
    match Location::new(owned, Vec::new(alloc)) {
        Ok(at) => Ok(at),
        Err(_) => Err(AllocError),
    }
}

/// Return the location of this name with these numbers as arguments.
///
/// # Errors
///
/// - `AllocError` if memory was refused, and for a name or numbers that have no location, which no table has.
pub fn location_at(alloc: Global, name: &str, numbers: &[i64]) -> Result<Location, AllocError>
    ensures { IfOk result (λ l. l.name ≡ name.now) }
{
    let mut args = Vec::new(alloc);
    for number in numbers {
        args.push(Element::Num(*number))?;
    }
    let owned = String::from_str(alloc, name)?;
    match Location::new(owned, args) {
        Ok(at) => Ok(at),
        Err(_) => Err(AllocError),
    }
}

/// Return the value that is this number.
pub fn number(n: i64) -> Value
    ensures { result ≡ Value.Plain (Element.Num n) }
{
    Value::Plain(Element::Num(n))
}

/// Return the value that is this number, or undef where there is none.
pub fn value(content: Option<i64>) -> Value {
    match content {
        Some(n) => number(n),
        None => Value::Plain(Element::Undef),
    }
}
