//! Verdicts and objections are equal where they say the same, and only there.
use asm_state::{Objection, Verdict};
use asm_test_support::{are_distinct, clash_at, location, number};
use asm_update::{Cause, UpdateSet};
use std::alloc::Global;
use std::test::Fail;

/// What a verdict or an objection says; a location is given by its name.
#[derive(Clone, Copy)]
enum Says {
    Stale(&'static str),
    Clash(&'static str, Cause),
    /// One update: this number at the location.
    Ready(&'static str, i64),
}

use Says::{Clash as Clashes, Ready, Stale};

/// No two are alike.
static SAID: [Says; 8] = [
    Stale("x"),
    Stale("y"),
    Clashes("x", Cause::Two),
    Clashes("x", Cause::Mixed),
    Clashes("y", Cause::Two),
    Ready("x", 1),
    Ready("x", 2),
    Ready("y", 1),
];

fn verdict(alloc: Global, says: Says) -> Result<Verdict, Fail> {
    match says {
        Stale(name) => Ok(Verdict::Stale(location(alloc, name)?)),
        Clashes(name, cause) => Ok(Verdict::Clash(clash_at(alloc, name, cause)?)),
        Ready(name, n) => {
            let mut updates = UpdateSet::new(alloc);
            updates.put(location(alloc, name)?, number(n))?;
            Ok(Verdict::Ready(updates))
        }
    }
}

/// The objection to the move; None if there is none.
fn objection(alloc: Global, says: Says) -> Result<Option<Objection>, Fail> {
    match says {
        Stale(name) => Ok(Some(Objection::Stale(location(alloc, name)?))),
        Clashes(name, cause) => Ok(Some(Objection::Clash(clash_at(alloc, name, cause)?))),
        Ready(_, _) => Ok(None),
    }
}

fn verdicts(alloc: Global) -> Result<Vec<Verdict>, Fail> {
    let mut verdicts = Vec::new(alloc);
    for says in SAID {
        verdicts.push(verdict(alloc, says)?)?;
    }
    Ok(verdicts)
}

fn objections(alloc: Global) -> Result<Vec<Objection>, Fail> {
    let mut objections = Vec::new(alloc);
    for says in SAID {
        if let Some(objection) = objection(alloc, says)? {
            objections.push(objection)?;
        }
    }
    Ok(objections)
}

#[test]
fn verdicts_and_objections_are_equal_to_themselves_alone(rt: HostRuntime) -> Result<(), Fail> {
    assert!(rt; are_distinct(&verdicts(rt.alloc())?));
    assert!(rt; are_distinct(&objections(rt.alloc())?));
    Ok(())
}
