//! How moves are judged and followed: stale reads, clashes, the numbers of writers, and copies.
use asm_aggregate::standard;
use asm_element::Location;
use asm_state::{Named, State, Verdict};
use asm_test_support::{is_clash, location, location_at, number, value};
use asm_update::{Action, Cause, Instruction, Instructions, Lookup, PlainState, UpdateSet};
use std::alloc::Global;
use std::process::Abort;
use std::test::Fail;

/// A put of a number, or of undef, at the location of this name.
#[derive(Clone, Copy)]
struct Put(&'static str, Option<i64>);

/// Two different values at one location.
const TWO: [Put; 2] = [Put("x", Some(1)), Put("x", Some(2))];

fn move_of(alloc: Global, puts: &[Put]) -> Result<Instructions, Fail> {
    let mut list = Instructions::new(alloc);
    for put in puts {
        let action = Action::Regular(value(put.1));
        let at = location(alloc, put.0)?;
        list.push(Instruction { at, action })?;
    }
    Ok(list)
}

/// Return a state at number 0 where x is 7.
fn opened(alloc: Global) -> Result<State, Fail> {
    let at = location(alloc, "x")?;
    let mut init = PlainState::new(alloc);
    init.set(at, number(7))?;
    Ok(State::new(alloc, init)?)
}

fn follow<R: Abort>(rt: &R, alloc: Global, state: &mut State, puts: &[Put]) -> Result<(), Fail> {
    assert!(rt; state.number() < 4_294_967_295);
    let instructions = move_of(alloc, puts)?;
    state.follow(alloc, &standard(), &instructions)?;
    Ok(())
}

/// Return a state that has followed `put x 7`, and then a move that clashes at x.
fn played<R: Abort>(rt: &R, alloc: Global) -> Result<State, Fail> {
    let mut state = opened(alloc)?;
    follow(rt, alloc, &mut state, &[Put("x", Some(7))])?;
    follow(rt, alloc, &mut state, &TWO)?;
    Ok(state)
}

/// What becomes of a move.
#[derive(Clone, Copy)]
enum Want {
    Stale(&'static str),
    /// Two values clash there.
    Clash(&'static str),
    /// It writes undef there, and nothing else.
    Undef(&'static str),
}

fn is_undef_at(updates: &UpdateSet, name: &str) -> bool {
    match updates.iter().next() {
        Some((at, value)) => updates.len() == 1 && at.name() == name && value.is_undef(),
        None => false,
    }
}

fn is_wanted(verdict: &Verdict, want: Want) -> bool {
    match (verdict, want) {
        (Verdict::Stale(at), Want::Stale(name)) => at.name() == name,
        (Verdict::Clash(clash), Want::Clash(name)) => is_clash(clash, name, Cause::Two),
        (Verdict::Ready(updates), Want::Undef(name)) => is_undef_at(updates, name),
        _ => false,
    }
}

fn named_of(alloc: Global, reads: &[(&'static str, u32)]) -> Result<Vec<Named>, Fail> {
    let mut named = Vec::new(alloc);
    for (name, number) in reads {
        let at = location(alloc, name)?;
        named.push(Named {
            at,
            number: *number,
        })?;
    }
    Ok(named)
}

fn verdict_on(
    alloc: Global,
    state: &State,
    named: &[Named],
    puts: &[Put],
) -> Result<Verdict, Fail> {
    let instructions = move_of(alloc, puts)?;
    Ok(state.judge(alloc, &standard(), named, &instructions)?)
}

fn judges(
    alloc: Global,
    state: &State,
    reads: &[(&'static str, u32)],
    puts: &[Put],
    want: Want,
) -> Result<bool, Fail> {
    let named = named_of(alloc, reads)?;
    let verdict = verdict_on(alloc, state, &named, puts)?;
    Ok(is_wanted(&verdict, want))
}

/// Return whether the state holds this number at the location, or nothing, since the move with that number.
fn holds(state: &State, at: &Location, number: Option<i64>, writer: u32) -> bool {
    let value = value(number);
    let held = match state.get(at) {
        Some(held) => *held == value,
        None => value.is_undef(),
    };
    held && state.written_at(at) == writer
}

fn holds_at(
    alloc: Global,
    state: &State,
    name: &str,
    number: Option<i64>,
    writer: u32,
) -> Result<bool, Fail> {
    let at = location(alloc, name)?;
    Ok(holds(state, &at, number, writer))
}

#[test]
fn moves_are_judged_on_what_was_followed(rt: HostRuntime) -> Result<(), Fail> {
    let (rt, alloc) = (&rt, rt.alloc());
    let mut state = played(rt, alloc)?;
    assert_eq!(rt; state.number(), 2);
    assert!(rt; holds_at(alloc, &state, "x", Some(7), 1)?);
    assert!(rt; holds_at(alloc, &state, "y", None, 0)?);
    assert!(rt; judges(alloc, &state, &[("x", 0)], &TWO, Want::Stale("x"))?);
    assert!(rt; judges(alloc, &state, &[("x", 1)], &TWO, Want::Clash("x"))?);
    let puts = [Put("y", None)];
    assert!(rt; judges(alloc, &state, &[], &puts, Want::Undef("y"))?);
    follow(rt, alloc, &mut state, &puts)?;
    assert!(rt; holds_at(alloc, &state, "y", None, 3)?);
    Ok(())
}

fn is_same_at(alloc: Global, one: &State, two: &State, name: &str) -> Result<bool, Fail> {
    let at = location(alloc, name)?;
    Ok(one.get(&at) == two.get(&at) && one.written_at(&at) == two.written_at(&at))
}

fn is_copied(alloc: Global, state: &State) -> Result<bool, Fail> {
    let copy = state.copy(alloc)?;
    let is_x = is_same_at(alloc, &copy, state, "x")?;
    let is_y = is_same_at(alloc, &copy, state, "y")?;
    Ok(is_x && is_y && copy.number() == state.number())
}

fn is_named_copied(alloc: Global, name: &str, number: u32) -> Result<bool, Fail> {
    let at = location(alloc, name)?;
    let named = Named { at, number };
    Ok(named.copy(alloc)? == named)
}

#[test]
fn copies_are_equal(rt: HostRuntime) -> Result<(), Fail> {
    let (rt, alloc) = (&rt, rt.alloc());
    assert!(rt; is_named_copied(alloc, "x", 3)?);
    assert!(rt; is_copied(alloc, &played(rt, alloc)?)?);
    Ok(())
}

/// Return a state where n(1), n(3) and so on hold their argument, below the limit.
fn half_held(alloc: Global, limit: i64) -> Result<State, Fail> {
    let mut init = PlainState::new(alloc);
    for n in 0..limit {
        if n % 2 == 1 {
            let at = location_at(alloc, "n", &[n])?;
            init.set(at, number(n))?;
        }
    }
    Ok(State::new(alloc, init)?)
}

/// Put of -1 at n(0), n(1) and so on, below the limit, from the last to the first.
fn many_puts(alloc: Global, limit: i64) -> Result<Instructions, Fail> {
    let mut list = Instructions::new(alloc);
    for n in (0..limit).rev() {
        let action = Action::Regular(number(-1));
        let at = location_at(alloc, "n", &[n])?;
        list.push(Instruction { at, action })?;
    }
    Ok(list)
}

/// Return whether the puts are written at all locations below the limit, or at none.
fn is_all_or_nothing(alloc: Global, state: &State, limit: i64, fired: bool) -> Result<bool, Fail> {
    for n in 0..limit {
        let at = location_at(alloc, "n", &[n])?;
        let before = if n % 2 == 1 { Some(n) } else { None };
        let is_right = if fired {
            holds(state, &at, Some(-1), 1)
        } else {
            holds(state, &at, before, 0)
        };
        if !is_right {
            return Ok(false);
        }
    }
    Ok(state.number() == u32::from(fired))
}

/// Return whether a copy of the state has the puts at all locations below the limit, as the state has.
fn is_copied_whole(alloc: Global, state: &State, limit: i64) -> Result<bool, Fail> {
    let copy = state.copy(alloc)?;
    is_all_or_nothing(alloc, &copy, limit, true)
}

/// Return whether a follow of puts at as many locations, half of which are held, wrote each, or, where memory was
/// refused, left the number, the values and the writers as before, and a second follow, which has memory, writes
/// each.
fn is_written_whole(
    alloc: Global,
    state: &mut State,
    puts: &Instructions,
    limit: i64,
) -> Result<bool, Fail> {
    if state.number() != 0 {
        return Ok(false);
    }
    let fired = state.follow(alloc, &standard(), puts).is_ok();
    let is_whole = is_all_or_nothing(alloc, state, limit, fired)?;
    if !fired && state.number() < 4_294_967_295 {
        state.follow(alloc, &standard(), puts)?;
    }
    let is_written = is_all_or_nothing(alloc, state, limit, true)?;
    Ok(is_whole && is_written && is_copied_whole(alloc, state, limit)?)
}

fn follow_writes_all_or_nothing<R: Abort>(rt: &R, alloc: Global, limit: i64) -> Result<(), Fail> {
    let puts = many_puts(alloc, limit)?;
    let mut state = half_held(alloc, limit)?;
    assert!(rt; is_written_whole(alloc, &mut state, &puts, limit)?);
    Ok(())
}

#[test]
fn a_follow_of_16_updates_writes_all_or_nothing(rt: HostRuntime) -> Result<(), Fail> {
    follow_writes_all_or_nothing(&rt, rt.alloc(), 16)
}

#[test]
fn a_follow_of_4096_updates_writes_all_or_nothing(rt: HostRuntime) -> Result<(), Fail> {
    follow_writes_all_or_nothing(&rt, rt.alloc(), 4096)
}
