//! Frames that are pushed, seen and popped.
use asm_overlay::{Overlay, OverlayError, Seen};
use asm_test_support::{are_distinct, has_text, location, value};
use asm_update::UpdateSet;
use std::alloc::Global;
use std::process::Abort;
use std::test::Fail;

/// A number, or undef, at the location of this name.
#[derive(Clone, Copy)]
struct Put(&'static str, Option<i64>);

/// A frame as plain data.
type Frame = &'static [Put];

/// A step on an overlay, and its result.
#[derive(Clone, Copy)]
enum Step {
    /// A frame is put on top of the others.
    Push(Frame),
    /// A frame is returned, as there are 64.
    Deep(Frame),
    /// The topmost frame is this one.
    Pop(Frame),
    /// There are so many frames.
    Depth(usize),
    /// The frames have this value.
    Held(Put),
}

fn frame(alloc: Global, puts: &[Put]) -> Result<UpdateSet, Fail> {
    let mut updates = UpdateSet::new(alloc);
    for put in puts {
        let at = location(alloc, put.0)?;
        updates.put(at, value(put.1))?;
    }
    Ok(updates)
}

fn pushes(alloc: Global, overlay: &mut Overlay, puts: &[Put]) -> Result<bool, Fail> {
    overlay.push(frame(alloc, puts)?)?;
    Ok(true)
}

/// Return whether the frame is returned as one too many.
fn is_deep(answer: Result<(), OverlayError>, frame: UpdateSet) -> bool {
    match answer {
        Ok(()) => false,
        Err(OverlayError::Deep(back)) => back == frame,
        Err(OverlayError::Memory(_back)) => false,
    }
}

fn is_too_many(alloc: Global, overlay: &mut Overlay, puts: &[Put]) -> Result<bool, Fail> {
    let answer = overlay.push(frame(alloc, puts)?);
    Ok(is_deep(answer, frame(alloc, puts)?))
}

fn pops(alloc: Global, overlay: &mut Overlay, puts: &[Put]) -> Result<bool, Fail> {
    let topmost = frame(alloc, puts)?;
    Ok(overlay.pop() == Some(topmost))
}

fn holds(alloc: Global, overlay: &Overlay, put: Put) -> Result<bool, Fail> {
    let at = location(alloc, put.0)?;
    Ok(match overlay.get(&at) {
        Seen::Held(held) => *held == value(put.1),
        Seen::Below => false,
    })
}

fn takes(alloc: Global, overlay: &mut Overlay, step: Step) -> Result<bool, Fail> {
    match step {
        Step::Push(puts) => pushes(alloc, overlay, puts),
        Step::Deep(puts) => is_too_many(alloc, overlay, puts),
        Step::Pop(puts) => pops(alloc, overlay, puts),
        Step::Depth(depth) => Ok(overlay.depth() == depth),
        Step::Held(put) => holds(alloc, overlay, put),
    }
}

fn play<R: Abort>(
    rt: &R,
    alloc: Global,
    overlay: &mut Overlay,
    steps: &[Step],
) -> Result<(), Fail> {
    for (k, step) in steps.iter().enumerate() {
        assert!(rt; takes(alloc, overlay, *step)?, "at step {k}");
    }
    Ok(())
}

/// Return an overlay with 64 frames.
fn full(alloc: Global) -> Result<Overlay, Fail> {
    let mut overlay = Overlay::new(alloc);
    for n in 0..64 {
        pushes(alloc, &mut overlay, &[Put("x", Some(n))])?;
    }
    Ok(overlay)
}

static AT_64_FRAMES: [Step; 10] = [
    Step::Depth(64),
    Step::Deep(&[Put("x", Some(64))]),
    Step::Deep(&[]),
    Step::Depth(64),
    Step::Pop(&[Put("x", Some(63))]),
    Step::Depth(63),
    Step::Push(&[Put("y", None)]),
    Step::Depth(64),
    Step::Held(Put("y", None)),
    Step::Held(Put("x", Some(62))),
];

#[test]
fn the_65th_frame_is_handed_back(rt: HostRuntime) -> Result<(), Fail> {
    let mut overlay = full(rt.alloc())?;
    play(&rt, rt.alloc(), &mut overlay, &AT_64_FRAMES)
}

/// Return whether the answer of a push matches whether the frame is on top.
///
/// If it isn't on top, the answer returns it.
fn is_reported(answer: Result<(), OverlayError>, is_on_top: bool, frame: UpdateSet) -> bool {
    match answer {
        Ok(()) => is_on_top,
        Err(OverlayError::Memory(back)) => !is_on_top && back == frame,
        Err(OverlayError::Deep(_back)) => false,
    }
}

/// Return whether the frame is put on top, or, where memory was refused, is returned, with as many frames as
/// before.
fn is_handed_back(alloc: Global, overlay: &mut Overlay, puts: &[Put]) -> Result<bool, Fail> {
    let depth = overlay.depth();
    let answer = overlay.push(frame(alloc, puts)?);
    let is_on_top = overlay.depth() == depth + 1;
    let is_kept = is_on_top || overlay.depth() == depth;
    Ok(is_reported(answer, is_on_top, frame(alloc, puts)?) && is_kept)
}

#[test]
fn a_frame_that_finds_no_memory_is_handed_back(rt: HostRuntime) -> Result<(), Fail> {
    let mut overlay = Overlay::new(rt.alloc());
    for n in 0..9 {
        assert!(rt; is_handed_back(rt.alloc(), &mut overlay, &[Put("x", Some(n))])?);
    }
    Ok(())
}

/// Return whether what shows the one value is equal to what shows the other.
fn are_equal_held(one: Option<i64>, other: Option<i64>) -> bool {
    let (one, other) = (value(one), value(other));
    Seen::Held(&one) == Seen::Held(&other)
}

fn is_held_equal_to_below(number: Option<i64>) -> bool {
    let held = value(number);
    Seen::Held(&held) == Seen::Below
}

#[test]
fn what_is_seen_is_equal_by_its_value(rt: HostRuntime) {
    assert!(rt; are_equal_held(Some(1), Some(1)));
    assert!(rt; are_equal_held(None, None));
    assert!(rt; !are_equal_held(Some(1), Some(2)));
    assert!(rt; !are_equal_held(Some(1), None));
    assert!(rt; !is_held_equal_to_below(Some(1)));
    assert!(rt; !is_held_equal_to_below(None));
}

/// Two errors for each of three frames.
fn errors(alloc: Global) -> Result<Vec<OverlayError>, Fail> {
    let mut errors = Vec::new(alloc);
    for number in [Some(1), Some(2), None] {
        let one = frame(alloc, &[Put("x", number)])?;
        errors.push(OverlayError::Deep(one))?;
        let other = frame(alloc, &[Put("x", number)])?;
        errors.push(OverlayError::Memory(other))?;
    }
    Ok(errors)
}

#[test]
fn errors_are_equal_by_their_kind_and_frame(rt: HostRuntime) -> Result<(), Fail> {
    let errors = errors(rt.alloc())?;
    assert!(rt; errors.len() == 6 && are_distinct(&errors));
    Ok(())
}

#[test]
fn errors_have_their_texts(rt: HostRuntime) -> Result<(), Fail> {
    let alloc = rt.alloc();
    let deep = OverlayError::Deep(UpdateSet::new(alloc));
    assert!(rt; has_text(alloc, &deep, "more than 64 frames")?);
    let memory = OverlayError::Memory(UpdateSet::new(alloc));
    assert!(rt; has_text(alloc, &memory, "out of memory")?);
    Ok(())
}
