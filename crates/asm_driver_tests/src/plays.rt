//! Scripts that agents play at once, behind gates that hold their calls.
use asm_aggregate::standard;
use asm_element::{Element, Value};
use asm_journal::replay;
use asm_play::{Gate, Outcome, Played, run_script};
use asm_script::{Script, parse_script};
use asm_test_support::location;
use std::alloc::Global;
use std::sync::Wait;
use std::sync::atomic::{AtomicU64, Ordering};
use std::test::Fail;
use std::thread::{Threads, yield_now};

const SUM: &str = r#"[[["put",["n"],{"sum":[{"val":["n"]},1]}]]]"#;

const RESET: &str = r#"[[["put",["n"],0]]]"#;

/// Append an agent with the step so many times.
fn push_agent(text: &mut String, step: &str, count: usize) -> Result<(), Fail> {
    text.push_str("[")?;
    for index in 0..count {
        if index > 0 {
            text.push_str(",")?;
        }
        text.push_str(step)?;
    }
    text.push_str("]")?;
    Ok(())
}

/// Return the script of these agents, each with a step that it has so many times.
fn script_of(alloc: Global, init: &str, agents: &[(&str, usize)]) -> Result<Script, Fail> {
    let mut text = String::from_str(alloc, r#"{"init":["#)?;
    text.push_str(init)?;
    text.push_str(r#"],"agents":["#)?;
    for (index, agent) in agents.iter().enumerate() {
        if index > 0 {
            text.push_str(",")?;
        }
        let (step, count) = *agent;
        push_agent(&mut text, step, count)?;
    }
    text.push_str("]}")?;
    Ok(parse_script(alloc, text.as_bytes())?)
}

/// Return what a run of this script behind the gate leaves.
fn play_behind<R: Threads + Wait + Sync, G: Gate>(
    rt: &R,
    alloc: Global,
    init: &str,
    agents: &[(&str, usize)],
    gate: &G,
) -> Result<Played, Fail> {
    let script = script_of(alloc, init, agents)?;
    Ok(run_script(rt, alloc, &script, 4096, gate)?)
}

/// Return whether the location of this name has the number after all moves.
fn has_number(alloc: Global, played: &Played, name: &str, number: i64) -> Result<bool, Fail> {
    let at = location(alloc, name)?;
    let state = replay(alloc, &standard(), &played.history)?;
    Ok(match state.get(&at) {
        Some(Value::Plain(Element::Num(n))) => *n == number,
        _ => false,
    })
}

/// The most times that an agent polls for another.
///
/// Between two polls it lets other threads run, so that it finds the other on a busy machine too.
const LOOKS: u64 = 50_000_000;

/// At its first call each of so many agents waits for the others.
///
/// All of them together poll at most so often.
#[derive(Drop)]
struct Meeting {
    agents: u64,
    arrived: AtomicU64,
    looks: AtomicU64,
}

impl Meeting {
    fn looks_on(&self) -> bool {
        self.arrived.load(Ordering::SeqCst) < self.agents
            && self.looks.fetch_add(1, Ordering::SeqCst) < LOOKS
    }
}

impl Gate for Meeting {
    fn before<R: Wait>(&self, _rt: &R, _agent: u32, call: u64) {
        if call > 0 {
            return;
        }
        let _ = self.arrived.fetch_add(1, Ordering::SeqCst);
        for _ in 0..LOOKS {
            if !self.looks_on() {
                return;
            }
            yield_now();
        }
    }

    fn after<R: Wait>(&self, _rt: &R, _agent: u32, _call: u64) {}
}

/// Return whether agents of this text that fire one move each all see each other before.
fn meet<R: Threads + Wait + Sync>(
    rt: &R,
    alloc: Global,
    agents: &[(&str, usize)],
) -> Result<bool, Fail> {
    let count = agents.len();
    let gate = Meeting {
        agents: count as u64,
        arrived: AtomicU64::new(0),
        looks: AtomicU64::new(0),
    };
    let played = play_behind(rt, alloc, r#"[["n"],0]"#, agents, &gate)?;
    let moves = played.history.moves();
    Ok(gate.looks.load(Ordering::SeqCst) < LOOKS && moves as usize == count)
}

#[test]
fn agents_play_at_once(rt: HostRuntime) -> Result<(), Fail> {
    assert!(rt; meet(&rt, rt.alloc(), &[(RESET, 1usize); 2])?);
    assert!(rt; meet(&rt, rt.alloc(), &[(RESET, 1usize); 64])?);
    Ok(())
}

/// Puts a call of agent 1 between the calls of each try of agent 0.
///
/// If an agent ended with an error, the other waits for it in vain, and from then on for none.
#[derive(Drop)]
struct Overtaking {
    tried: AtomicU64,
    written: AtomicU64,
    missed: AtomicU64,
}

impl Overtaking {
    fn is_held(&self, agent: u32, call: u64) -> bool {
        if self.missed.load(Ordering::SeqCst) == 1 {
            return false;
        }
        match agent {
            0 => call % 2 == 1 && self.written.load(Ordering::SeqCst) <= call / 2,
            _ => self.tried.load(Ordering::SeqCst) <= call.saturating_mul(2),
        }
    }
}

impl Gate for Overtaking {
    fn before<R: Wait>(&self, _rt: &R, agent: u32, call: u64) {
        for _ in 0..LOOKS {
            if !self.is_held(agent, call) {
                return;
            }
            yield_now();
        }
        self.missed.store(1, Ordering::SeqCst);
    }

    fn after<R: Wait>(&self, _rt: &R, agent: u32, call: u64) {
        let answered = call.saturating_add(1);
        match agent {
            0 => self.tried.store(answered, Ordering::SeqCst),
            _ => self.written.store(answered, Ordering::SeqCst),
        }
    }
}

/// Return what the two agents leave, of which the second writes before each fire of the first.
fn overtaken<R: Threads + Wait + Sync>(rt: &R, alloc: Global) -> Result<Played, Fail> {
    let gate = Overtaking {
        tried: AtomicU64::new(0),
        written: AtomicU64::new(0),
        missed: AtomicU64::new(0),
    };
    play_behind(
        rt,
        alloc,
        r#"[["n"],0]"#,
        &[(SUM, 1usize), (RESET, 1001)],
        &gate,
    )
}

/// Return whether the only step of the first agent was given up.
fn gave_up(played: &Played) -> bool {
    match played.outcomes.as_slice().first() {
        Some(outcomes) => matches!(outcomes.as_slice(), [Outcome::GaveUp]),
        None => false,
    }
}

#[test]
fn an_agent_gives_up_after_1001_tries(rt: HostRuntime) -> Result<(), Fail> {
    let played = overtaken(&rt, rt.alloc())?;
    assert_eq!(rt; played.history.moves(), 1001);
    assert!(rt; has_number(rt.alloc(), &played, "n", 0)?);
    assert!(rt; gave_up(&played));
    Ok(())
}
