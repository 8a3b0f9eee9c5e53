//! A location with an argument.
use crate::examples::shared::location;
use asm_element::{Element, Location};
use std::test::Fail;

#[test]
fn locations_are_ordered(rt: HostRuntime) -> Result<(), Fail> {
    let alloc = rt.alloc();
    let args = vec![in alloc; Element::Num(3)]?;
    let third = Location::new(String::from_str(alloc, "shelf")?, args)?;
    assert_eq!(rt; third.name(), "shelf");
    assert!(rt; location(alloc, "shelf")? < third);
    Ok(())
}
