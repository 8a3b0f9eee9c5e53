//! How often a set or a bag has an element, and how many it has, without a copy of its value.
ghost use Rattle.std.specs.Prelude.{◌≡◌, ◌≢◌};
ghost use Rattle.asm_slots.specs.Codes.{ASM_DONE, Answers};
ghost use Rattle.asm_slots.specs.Members.{CountsAt, DoesNotCountAt, DoesNotSizeAt, SizesAt};
ghost use Rattle.asm_slots.specs.Slots.{content_of};

use asm_slots::members::{count_of, size as size_at};
use asm_slots::{Slot, answer};
use std::alloc::Global;

/// Return how often the set or the bag at a prepared location has an element.
/// The value is what `asm_get_at` returns, and isn't copied. The element is given by its kind, its number and its bytes,
/// as to `asm_instruct`. `count` is 0 or 1 of a set, the count of a bag, and 0 where nothing is. The location is tracked
/// as by `asm_get_at`, also if its value is refused with `ASM_SHAPE`. The call doesn't poll and adds no receipt, and the
/// slots of the agent and the location are unchanged. On any other error, the step's slot is unchanged too. On each error
/// `count` is 0. The step must be one of the agent's storage.
///
/// # Errors
/// - `ASM_SHAPE`: the location has another value than a set, a bag and undef, and is tracked; or the bytes of a text
///   aren't UTF-8, or those of a list are JSON of another value, and nothing changes.
/// - `ASM_OPERAND`: kind, number and bytes make no element.
/// - `ASM_NOT_JSON`: the bytes of a list aren't JSON.
/// - `ASM_MOVED`: the agent's own state isn't at the step's number.
/// - `ASM_MANY`: 256 places are taken, by other tracked locations and by scanned functions.
/// - `ASM_EMPTY`: the first slot has no agent, the second no step, the third no location, or two of them are one.
/// - `ASM_MEMORY`: out of memory.
#[unsafe(no_mangle)]
pub extern "C" fn asm_count_of(
    alloc: Global,
    agent: &mut Slot,
    step: &mut Slot,
    at: &mut Slot,
    kind: i32,
    number: i64,
    bytes: &[u8],
    count: &mut u32,
) -> i32
    ensures answers { Answers result
        (CountsAt kind number bytes.now (content_of at.old) (content_of agent.old) (content_of step.old) (content_of step.new) count.new)
        (DoesNotCountAt kind number bytes.now (content_of at.old) (content_of agent.old) (content_of step.old) (content_of step.new)) }
    ensures none { result ≢ ASM_DONE → count.new ≡ 0 }
    ensures kept { content_of agent.new ≡ content_of agent.old }
    ensures held { content_of at.new ≡ content_of at.old }
{
    answer(count_of(alloc, agent, step, at, kind, number, bytes, count))
}

/// Return how many elements the set or the bag at a prepared location has.
/// The value is what `asm_get_at` returns, and isn't copied. Each element of a bag counts as often as it is there. `size`
/// is at most 18,446,744,073,709,551,615, and 0 where nothing is. The location is tracked as by `asm_get_at`, also with
/// `ASM_SHAPE`. The call doesn't poll and adds no receipt, and the slots of the agent and the location are unchanged. On
/// any other error, the step's slot is unchanged too. On each error `size` is 0. The step must be one of the agent's
/// storage.
///
/// # Errors
/// - `ASM_SHAPE`: the location has another value than a set, a bag and undef, and is tracked.
/// - `ASM_MOVED`: the agent's own state isn't at the step's number.
/// - `ASM_MANY`: 256 places are taken, by other tracked locations and by scanned functions.
/// - `ASM_EMPTY`: the first slot has no agent, the second no step, the third no location, or two of them are one.
/// - `ASM_MEMORY`: out of memory.
#[unsafe(no_mangle)]
pub extern "C" fn asm_size(
    alloc: Global,
    agent: &mut Slot,
    step: &mut Slot,
    at: &mut Slot,
    size: &mut u64,
) -> i32
    ensures answers { Answers result
        (SizesAt (content_of at.old) (content_of agent.old) (content_of step.old) (content_of step.new) size.new)
        (DoesNotSizeAt (content_of at.old) (content_of agent.old) (content_of step.old) (content_of step.new)) }
    ensures none { result ≢ ASM_DONE → size.new ≡ 0 }
    ensures kept { content_of agent.new ≡ content_of agent.old }
    ensures held { content_of at.new ≡ content_of at.old }
{
    answer(size_at(alloc, agent, step, at, size))
}
