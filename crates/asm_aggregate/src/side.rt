ghost use Rattle.std.specs.Prelude.{◌≡◌, OnOk};
ghost use Rattle.std.specs.Option.{option_copied};
ghost use Rattle.asm_aggregate.specs.Sets.{with_element};

use asm_element::{ElemSet, Element};
use std::alloc::{AllocError, Global};

/// A side of a list of partial updates: what it adds, or what it removes.
#[derive(Clone, Copy)]
pub(crate) enum Side {
    Added,
    Removed,
}

/// Put the element into the set, if there is one.
pub(crate) fn note(
    alloc: Global,
    elements: &mut ElemSet,
    element: Option<&Element>,
) -> Result<(), AllocError>
    ensures { OnOk result (elements.new ≡ with_element elements.old (option_copied element.entry)) }
{
    if let Some(element) = element {
        elements.insert(element.copy(alloc)?)?;
    }
    Ok(())
}
