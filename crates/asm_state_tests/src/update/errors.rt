//! The texts of errors, which name the location and the cause of a clash.
use asm_test_support::{are_distinct, clash_at, has_text};
use asm_update::{
    AggError, Amount, Cause, Clash, Family, InstructionsError, JoinError, ResultError,
};
use std::alloc::{AllocError, Global};
use std::test::Fail;

static CAUSES: [(Cause, &str); 7] = [
    (Cause::Two, "two different regular values"),
    (
        Cause::Mixed,
        "partial updates of two families, or of one that has no aggregator",
    ),
    (
        Cause::Kind,
        "partial updates of a value that isn't of their kind",
    ),
    (Cause::Both, "an element both added and removed"),
    (Cause::Against, "a regular value against partial updates"),
    (Cause::Short, "more of an element removed than there is"),
    (Cause::Large, "a count or a number too large"),
];

#[test]
fn each_cause_is_told_in_words(rt: HostRuntime) -> Result<(), Fail> {
    for (cause, want) in CAUSES {
        assert!(rt; has_text(rt.alloc(), &cause, want)?, "{want}");
    }
    Ok(())
}

static EACH_CAUSE: [Cause; 7] = [
    Cause::Two,
    Cause::Mixed,
    Cause::Kind,
    Cause::Both,
    Cause::Against,
    Cause::Short,
    Cause::Large,
];

static RESULT_ERRORS: [ResultError; 3] = [
    ResultError::Cause(Cause::Kind),
    ResultError::Cause(Cause::Both),
    ResultError::Memory,
];

static JOIN_ERRORS: [JoinError; 4] = [
    JoinError::Cause(Cause::Kind),
    JoinError::Cause(Cause::Both),
    JoinError::Large,
    JoinError::Memory,
];

#[test]
fn plain_data_are_equal_by_kind_and_content(rt: HostRuntime) {
    assert!(rt; are_distinct(&[Amount::new(1), Amount::new(2), Amount::new(0)]));
    assert!(rt; are_distinct(&[Family::Set, Family::Bag, Family::Count]));
    assert!(rt; are_distinct(&EACH_CAUSE));
    assert!(rt; are_distinct(&RESULT_ERRORS) && are_distinct(&JOIN_ERRORS));
    let refusals = [
        InstructionsError::ManyInstructions,
        InstructionsError::Memory,
    ];
    assert!(rt; are_distinct(&refusals));
}

static CLASHES: [(&str, Cause); 4] = [
    ("x", Cause::Two),
    ("y", Cause::Two),
    ("x", Cause::Kind),
    ("y", Cause::Kind),
];

fn clashes(alloc: Global) -> Result<Vec<Clash>, Fail> {
    let mut clashes = Vec::new(alloc);
    for (name, cause) in CLASHES {
        let clash = clash_at(alloc, name, cause)?;
        clashes.push(clash)?;
    }
    Ok(clashes)
}

/// Return an error for each clash, and refused memory.
fn errors_of_moves(alloc: Global) -> Result<Vec<AggError>, Fail> {
    let mut errors = vec![in alloc; AggError::Memory]?;
    for clash in clashes(alloc)? {
        errors.push(AggError::Clash(clash))?;
    }
    Ok(errors)
}

#[test]
fn errors_of_moves_are_equal_by_their_clash(rt: HostRuntime) -> Result<(), Fail> {
    let errors = errors_of_moves(rt.alloc())?;
    assert!(rt; errors.len() == 5 && are_distinct(&errors));
    assert!(rt; are_distinct(&clashes(rt.alloc())?));
    Ok(())
}

fn has_clash_text(alloc: Global, name: &str, cause: Cause, text: &str) -> Result<bool, AllocError> {
    has_text(alloc, &AggError::Clash(clash_at(alloc, name, cause)?), text)
}

static TEXTS_OF_JOINS: [(JoinError, &str); 3] = [
    (
        JoinError::Cause(Cause::Both),
        "the updates of a location have no result: an element both added and removed",
    ),
    (JoinError::Large, "a joined amount or sum is too large"),
    (JoinError::Memory, "out of memory"),
];

#[test]
fn errors_have_their_texts(rt: HostRuntime) -> Result<(), Fail> {
    let alloc = rt.alloc();
    let full = "more than 4,096 instructions";
    assert!(rt; has_text(alloc, &InstructionsError::ManyInstructions, full)?);
    let clash = "the updates clash at x: two different regular values";
    assert!(rt; has_clash_text(alloc, "x", Cause::Two, clash)?);
    let result =
        "the updates of a location have no result: partial updates of a value that isn't of their kind";
    assert!(rt; has_text(alloc, &ResultError::Cause(Cause::Kind), result)?);
    for (error, want) in TEXTS_OF_JOINS {
        assert!(rt; has_text(alloc, &error, want)?, "{want}");
    }
    let memory = "out of memory";
    assert!(rt; has_text(alloc, &InstructionsError::Memory, memory)?);
    assert!(rt; has_text(alloc, &AggError::Memory, memory)?);
    assert!(rt; has_text(alloc, &ResultError::Memory, memory)?);
    Ok(())
}
