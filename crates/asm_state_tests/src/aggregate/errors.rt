//! The errors of a composition: their texts, and where two are equal.
use asm_aggregate::ComposeError;
use asm_test_support::{are_distinct, clash_at, has_text, location};
use asm_update::Cause;
use std::alloc::Global;
use std::test::Fail;

/// Return an error for each kind, and further ones where it has parts.
fn errors(alloc: Global) -> Result<Vec<ComposeError>, Fail> {
    let mut errors = Vec::new(alloc);
    for (name, cause) in [("a", Cause::Two), ("b", Cause::Two), ("a", Cause::Kind)] {
        errors.push(ComposeError::Clash(clash_at(alloc, name, cause)?))?;
    }
    for name in ["a", "b"] {
        errors.push(ComposeError::Large(location(alloc, name)?))?;
    }
    errors.push(ComposeError::ManyInstructions)?;
    errors.push(ComposeError::Memory)?;
    Ok(errors)
}

static TEXTS: [&str; 7] = [
    "the two moves clash at a: two different regular values",
    "the two moves clash at b: two different regular values",
    "",
    "a composed amount or sum is too large at a",
    "a composed amount or sum is too large at b",
    "more than 4,096 instructions",
    "out of memory",
];

/// Return whether each error has its text, where there is one.
fn have_texts(alloc: Global, errors: &[ComposeError]) -> Result<bool, Fail> {
    for (error, text) in errors.iter().zip(TEXTS) {
        if !text.is_empty() && !has_text(alloc, error, text)? {
            return Ok(false);
        }
    }
    Ok(errors.len() == TEXTS.len())
}

#[test]
fn errors_have_their_texts_and_differ(rt: HostRuntime) -> Result<(), Fail> {
    let errors = errors(rt.alloc())?;
    assert!(rt; are_distinct(errors.as_slice()));
    assert!(rt; have_texts(rt.alloc(), errors.as_slice())?);
    Ok(())
}
