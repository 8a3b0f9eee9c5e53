//! A step whose attempts are lost.
use asm_aggregate::Standard;
use asm_play::aggregator::script_aggregator;
use asm_play::{Passage, Player, StepEnd};
use asm_script::{Script, parse_script};
use asm_storage::Storage;
use asm_update::{Instructions, PlainState};
use std::alloc::Global;
use std::sync::Wait;
use std::sync::atomic::{AtomicU64, Ordering};
use std::test::Fail;

/// A step that reads and fires.
const STEP: &str = r#"{"init":[],"agents":[[[[["put",["n"],{"val":["m"]}]]]]]}"#;

/// Receives an agent's calls, and fires before each of its first 64 attempts.
///
/// It has how many calls began and ended, and whether one of these had another count than the next. The agent that
/// fires is another one.
#[derive(Drop)]
struct Rivalry<'s> {
    storage: &'s Storage<Standard>,
    alloc: Global,
    offers: AtomicU64,
    begun: AtomicU64,
    ended: AtomicU64,
    wrong: AtomicU64,
}

impl<'s> Rivalry<'s> {
    fn note(&self, is_right: bool) {
        if !is_right {
            self.wrong.store(1, Ordering::SeqCst);
        }
    }
}

/// Return whether a new agent fires a move without instructions.
fn fires(alloc: Global, storage: &Storage<Standard>) -> bool {
    let Ok(mut agents) = storage.agents(alloc, 1) else {
        return false;
    };
    match agents.pop() {
        Some(mut agent) => agent
            .try_fire(alloc, &[], &Instructions::new(alloc))
            .is_ok(),
        None => false,
    }
}

/// The passage among rivals.
struct Meddling<'r, 's>(&'r Rivalry<'s>);

impl<'r, 's> Passage for Meddling<'r, 's> {
    fn enter<R: Wait>(&self, _rt: &R, agent: u32, call: u64) {
        let begun = self.0.begun.fetch_add(1, Ordering::SeqCst);
        let is_next = call == begun && self.0.ended.load(Ordering::SeqCst) == begun;
        self.0.note(agent == 0 && is_next);
    }

    fn before_attempt(&self) {
        if self.0.offers.fetch_add(1, Ordering::SeqCst) < 64 {
            self.0.note(fires(self.0.alloc, self.0.storage));
        }
    }

    fn leave<R: Wait>(&self, _rt: &R, agent: u32, call: u64) {
        let ended = self.0.ended.fetch_add(1, Ordering::SeqCst);
        self.0.note(agent == 0 && call == ended);
    }
}

/// Return the number that the agent's only step fired.
fn fired_among_rivals<R: Wait>(
    rt: &R,
    alloc: Global,
    script: &Script,
    rivalry: &Rivalry<'_>,
) -> Result<Option<u32>, Fail> {
    let Some(agent) = rivalry.storage.agents(alloc, 1)?.pop() else {
        return Ok(None);
    };
    let Some(steps) = script.agents().first() else {
        return Ok(None);
    };
    let aggregator = script_aggregator();
    let player = Player {
        alloc,
        aggregator: &aggregator,
        passage: Meddling(rivalry),
    };
    let played = player.play(rt, agent, steps.as_slice());
    let Player {
        alloc: _,
        aggregator: _,
        passage: Meddling(_),
    } = player;
    Ok(match played?.ends.as_slice() {
        [StepEnd::Fired(number)] => Some(*number),
        _ => None,
    })
}

#[test]
fn a_step_whose_offers_are_lost_is_tried_again(rt: HostRuntime) -> Result<(), Fail> {
    let alloc = rt.alloc();
    let storage = Storage::new(alloc, script_aggregator(), PlainState::new(alloc), 100)?;
    let script = parse_script(alloc, STEP.as_bytes())?;
    let rivalry = Rivalry {
        storage: &storage,
        alloc,
        offers: AtomicU64::new(0),
        begun: AtomicU64::new(0),
        ended: AtomicU64::new(0),
        wrong: AtomicU64::new(0),
    };
    let fired = fired_among_rivals(&rt, alloc, &script, &rivalry)?;
    assert_eq!(rt; fired, Some(65));
    assert_eq!(rt; rivalry.offers.load(Ordering::SeqCst), 65);
    assert_eq!(rt; rivalry.ended.load(Ordering::SeqCst), 4);
    assert_eq!(rt; rivalry.wrong.load(Ordering::SeqCst), 0);
    Ok(())
}
