//! The errors of runs, of scripts, and of the steps that scripts and engines take.
use asm_play::RunError;
use asm_script::{FaultyTerm, NoValue, ScriptCause, ScriptError, StepFault};
use asm_step::StepError;
use asm_test_support::{are_distinct, clash_at, has_text, location};
use asm_update::Cause;
use std::alloc::Global;
use std::test::Fail;

#[test]
fn errors_have_their_texts(rt: HostRuntime) -> Result<(), Fail> {
    for (error, want) in [
        (
            RunError::BadCapacity,
            "the capacity is not in 1 to 1,048,576",
        ),
        (RunError::NoThread, "no thread"),
        (RunError::Missing(3), "missing move 3"),
        (RunError::Memory, "out of memory"),
    ] {
        assert!(rt; has_text(rt.alloc(), &error, want)?, "{want}");
    }
    Ok(())
}

#[test]
fn errors_are_distinct(rt: HostRuntime) {
    assert!(rt;
        are_distinct(&[
            RunError::BadCapacity,
            RunError::NoThread,
            RunError::Missing(1),
            RunError::Missing(2),
            RunError::Memory,
        ])
    );
}

#[test]
fn errors_of_scripts_have_their_texts(rt: HostRuntime) -> Result<(), Fail> {
    let alloc = rt.alloc();
    let blocks = ScriptError::BadScript(ScriptCause::Blocks);
    assert!(rt; has_text(alloc, &blocks, "bad script: Blocks")?);
    assert!(rt; has_text(alloc, &ScriptError::Memory, "out of memory")?);
    assert!(rt; has_text(alloc, &StepFault::Many, "more than 4,096 instructions")?);
    let term = StepFault::Term(FaultyTerm {
        block: 0,
        instruction: 0,
        why: NoValue::OutOfRange(1, i64::MAX),
    });
    assert!(rt; has_text(alloc, &term, "a faulty term")?);
    Ok(())
}

#[test]
fn causes_of_scripts_are_distinct(rt: HostRuntime) {
    assert!(rt;
        are_distinct(&[
            ScriptCause::NotJson,
            ScriptCause::Shape,
            ScriptCause::Agents,
            ScriptCause::Blocks,
            ScriptCause::Instructions,
            ScriptCause::Reads,
        ])
    );
}

/// Return an error for each kind, and a second one where it has parts.
fn step_errors(alloc: Global) -> Result<Vec<StepError>, Fail> {
    let mut errors = Vec::new(alloc);
    for (name, cause) in [("x", Cause::Two), ("x", Cause::Kind), ("y", Cause::Two)] {
        errors.push(StepError::Clash(clash_at(alloc, name, cause)?))?;
    }
    for name in ["x", "y"] {
        errors.push(StepError::Large(location(alloc, name)?))?;
    }
    errors.push(StepError::Many)?;
    errors.push(StepError::Deep)?;
    errors.push(StepError::Memory)?;
    Ok(errors)
}

static TEXTS: [&str; 8] = [
    "the updates clash",
    "the updates clash",
    "the updates clash",
    "too large an amount or sum",
    "too large an amount or sum",
    "more than 4,096 instructions",
    "more than 64 pushed moves",
    "out of memory",
];

fn have_texts(alloc: Global, errors: &[StepError]) -> Result<bool, Fail> {
    for (error, text) in errors.iter().zip(TEXTS) {
        if !has_text(alloc, error, text)? {
            return Ok(false);
        }
    }
    Ok(errors.len() == TEXTS.len())
}

#[test]
fn errors_of_steps_are_distinct(rt: HostRuntime) -> Result<(), Fail> {
    let errors = step_errors(rt.alloc())?;
    assert!(rt; are_distinct(errors.as_slice()));
    assert!(rt; have_texts(rt.alloc(), errors.as_slice())?);
    Ok(())
}
