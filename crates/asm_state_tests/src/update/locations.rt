//! Locations: their names, arguments and order, and why there is none.
use crate::update::elements::{ascend, number_elements};
use asm_element::{Location, LocationError};
use asm_test_support::{are_distinct, has_text, location_at};
use std::alloc::{AllocError, Global};
use std::test::Fail;

/// Return why the name and the arguments are no location.
fn refusal(alloc: Global, name: &str, args: &[i64]) -> Result<Option<LocationError>, AllocError> {
    let name = String::from_str(alloc, name)?;
    let args = number_elements(alloc, args)?;
    Ok(Location::new(name, args).err())
}

static PLACES: [(&str, &[i64]); 4] = [("a", &[]), ("a", &[9]), ("a", &[0, 0]), ("b", &[])];

fn ascending_locations(alloc: Global) -> Result<Vec<Location>, Fail> {
    let mut locations = Vec::new(alloc);
    for (name, args) in PLACES {
        let at = location_at(alloc, name, args)?;
        locations.push(at)?;
    }
    Ok(locations)
}

#[test]
fn locations_ascend_by_name_then_by_number_of_arguments(rt: HostRuntime) -> Result<(), Fail> {
    let locations = ascending_locations(rt.alloc())?;
    assert!(rt; locations.len() == 4 && ascend(&locations));
    Ok(())
}

/// Return whether a location of this name, without arguments, is refused for the name.
fn is_bad_name(alloc: Global, name: &str) -> Result<bool, AllocError> {
    Ok(refusal(alloc, name, &[])? == Some(LocationError::BadName))
}

/// Return whether there is a location of this name, and it has the name.
fn is_named(alloc: Global, name: &str) -> Result<bool, Fail> {
    Ok(location_at(alloc, name, &[])?.name() == name)
}

#[test]
fn a_location_takes_a_name_by_the_rule(rt: HostRuntime) -> Result<(), Fail> {
    let alloc = rt.alloc();
    for name in ["", "1x", "x-y"] {
        assert!(rt; is_bad_name(alloc, name)?, "{name}");
    }
    for name in ["_", "x1"] {
        assert!(rt; is_named(alloc, name)?, "{name}");
    }
    assert!(rt; is_named(alloc, "a".repeat(alloc, 64)?.as_str())?);
    assert!(rt; is_bad_name(alloc, "a".repeat(alloc, 65)?.as_str())?);
    Ok(())
}

#[test]
fn a_location_takes_at_most_eight_arguments(rt: HostRuntime) -> Result<(), Fail> {
    let alloc = rt.alloc();
    let nine = [1, 2, 3, 4, 5, 6, 7, 8, 9];
    assert!(rt; location_at(alloc, "x", &nine[..8])?.args().len() == 8);
    assert!(rt; refusal(alloc, "x", &nine)? == Some(LocationError::ManyArgs));
    assert!(rt; refusal(alloc, "1x", &nine)? == Some(LocationError::BadName));
    Ok(())
}

#[test]
fn errors_are_equal_by_their_reason(rt: HostRuntime) {
    assert!(rt; are_distinct(&[LocationError::BadName, LocationError::ManyArgs]));
}

#[test]
fn errors_have_their_texts(rt: HostRuntime) -> Result<(), Fail> {
    assert!(rt; has_text(rt.alloc(), &LocationError::BadName, "not a name")?);
    assert!(rt;
        has_text(
            rt.alloc(),
            &LocationError::ManyArgs,
            "more than 8 arguments"
        )?
    );
    Ok(())
}
