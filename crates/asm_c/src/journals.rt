//! Calls on texts alone: journals, moves, what a text lacks, and what a code means.
ghost use Rattle.std.specs.Prelude.{◌≡◌, length};
ghost use Rattle.asm_slots.specs.Codes.{Answers, text_of_code};
ghost use Rattle.asm_slots.specs.Composing.{Aggregates, Composes, DoesNotAggregate, DoesNotCompose};
ghost use Rattle.asm_slots.specs.Forms.{DoesNotExplain, Explains};
ghost use Rattle.asm_slots.specs.Journals.{Checks, DoesNotCheck, IsNoJournal, IsReplayed, IsTraceOf};
ghost use Rattle.asm_slots.specs.WrittenText.{WritesText};

use asm_slots::answer;
use asm_slots::codes::{text_of_code, write};
use asm_slots::composing::{aggregate, compose};
use asm_slots::journals::{check, replay, trace};
use std::alloc::Global;

/// Check a journal, of version 1 or 2.
/// With `ASM_DONE` it is legal: each answer is the one that a sequential storage gives there. `calls` and `moves` are
/// the numbers of its calls and of its moves. A number that its code doesn't set is 0.
///
/// # Errors
/// - `ASM_ILLEGAL`: the journal isn't legal, and `calls` is the number of the first call whose answer is another, from
///   0 up.
/// - `ASM_NOT_JSON`: a line isn't JSON, and `calls` is the number of the line, from 1 up.
/// - `ASM_SHAPE`: a line isn't that of a journal, or is beyond a limit, and `calls` is the number of the line, from 1
///   up.
/// - `ASM_VERSION`: the journal has another version than 1 and 2.
/// - `ASM_CUT`: the journal ends too early.
/// - `ASM_MEMORY`: out of memory.
#[unsafe(no_mangle)]
pub extern "C" fn asm_check(alloc: Global, journal: &[u8], calls: &mut u64, moves: &mut u32) -> i32
    ensures { Answers result (Checks journal.now calls.new moves.new) (DoesNotCheck journal.now calls.new moves.new) }
{
    answer(check(alloc, journal, calls, moves))
}

/// Write the state `[PAIR, ..]` that the moves of a journal leave.
/// Its locations are in ascending order. The journal is of version 1 or 2, and isn't checked. `line` is 0 if the code
/// doesn't set it.
///
/// # Errors
/// - `ASM_NOT_JSON`: a line isn't JSON, and `line` is its number.
/// - `ASM_SHAPE`: a line isn't that of a journal, or is beyond a limit, and `line` is its number.
/// - `ASM_VERSION`: the journal has another version than 1 and 2.
/// - `ASM_CUT`: the journal ends too early.
/// - `ASM_SMALL`: `out` is too small, and `written` is the room that is needed.
/// - `ASM_MEMORY`: out of memory.
#[unsafe(no_mangle)]
pub extern "C" fn asm_replay(
    alloc: Global,
    journal: &[u8],
    out: &mut [u8],
    written: &mut usize,
    line: &mut u64,
) -> i32
    ensures { WritesText (λ text. (line.new ≡ 0) × IsReplayed journal.now text) (IsNoJournal journal.now line.new)
        out.old out.new written.new result }
{
    answer(replay(alloc, journal, out, written, line))
}

/// Write the trace of a journal, legal or not: what each of its calls did.
/// The journal is of version 1 or 2. The trace is for a viewer or a debugger. `line` is 0 if the code doesn't set it.
///
/// # Errors
/// The codes are those of `asm_replay`, with the same conditions.
#[unsafe(no_mangle)]
pub extern "C" fn asm_trace(
    alloc: Global,
    journal: &[u8],
    out: &mut [u8],
    written: &mut usize,
    line: &mut u64,
) -> i32
    ensures { WritesText (λ text. (line.new ≡ 0) × IsTraceOf journal.now text) (IsNoJournal journal.now line.new)
        out.old out.new written.new result }
{
    answer(trace(alloc, journal, out, written, line))
}

/// Write the updates `[PAIR, ..]` of the move `[INSTR, ..]` on a state.
/// The state is `[PAIR, ..]`, and needs the locations of partial updates alone. The updates are in ascending order of
/// locations. A null leaves a location empty, as each is that the state doesn't have.
///
/// # Errors
/// - `ASM_CLASH`: the updates clash, and `{"clash":[LOC,CAUSE]}` is written, of the smallest location that clashes.
/// - `ASM_NOT_JSON`: the state, or else the move, isn't JSON.
/// - `ASM_SHAPE`: the state, or else the move, is JSON of another shape, or beyond a limit.
/// - `ASM_SMALL`: `out` is too small, and `written` is the room that is needed.
/// - `ASM_MEMORY`: out of memory.
#[unsafe(no_mangle)]
pub extern "C" fn asm_aggregate(
    alloc: Global,
    state: &[u8],
    instrs: &[u8],
    out: &mut [u8],
    written: &mut usize,
) -> i32
    ensures { Answers result (Aggregates state.now instrs.now out.old out.new written.new)
        (DoesNotAggregate state.now instrs.now out.old out.new written.new) }
{
    answer(aggregate(alloc, state, instrs, out, written))
}

/// Write one move `[INSTR, ..]` that does what two moves do in turn.
/// On a state on which the first fires, it fires as the two in turn, or clashes as the second does then.
///
/// # Errors
/// - `ASM_CLASH`: on no state both fire, and `{"clash":[LOC,CAUSE]}` is written.
/// - `ASM_LARGE`: on no state both fire, as an amount or a sum is too large, and `{"large":LOC}` is written.
/// - `ASM_LONG_MOVE`: the move would have more than 4,096 instructions.
/// - `ASM_NOT_JSON`: the first move, or else the second, isn't JSON.
/// - `ASM_SHAPE`: the first move, or else the second, is JSON of another shape, or beyond a limit.
/// - `ASM_SMALL`: `out` is too small, and `written` is the room that is needed.
/// - `ASM_MEMORY`: out of memory.
#[unsafe(no_mangle)]
pub extern "C" fn asm_compose(
    alloc: Global,
    first: &[u8],
    second: &[u8],
    out: &mut [u8],
    written: &mut usize,
) -> i32
    ensures { Answers result (Composes first.now second.now out.old out.new written.new)
        (DoesNotCompose first.now second.now out.old out.new written.new) }
{
    answer(compose(alloc, first, second, out, written))
}

/// Write a sentence that says where and why a text isn't of a form.
/// Calls that take the form refuse such a text with `ASM_NOT_JSON` or `ASM_SHAPE`. The sentence is empty, with
/// `written` 0, exactly if the form's readers accept the text. It says nothing of what makes `ASM_MANY`, nor of an
/// event that doesn't fit the journal's first line. The sentences may change with the version. Each is one line of at
/// most 512 bytes.
///
/// # Errors
/// - `ASM_NO_FORM`: there is no such form.
/// - `ASM_SMALL`: `out` is too small, and `written` is 512, whichever the sentence is.
/// - `ASM_MEMORY`: out of memory.
#[unsafe(no_mangle)]
pub extern "C" fn asm_explain(
    alloc: Global,
    form: i32,
    text: &[u8],
    out: &mut [u8],
    written: &mut usize,
) -> i32
    ensures { Answers result (Explains form text.now out.old out.new written.new)
        (DoesNotExplain form text.now out.old out.new written.new) }
{
    answer(asm_slots::explain(alloc, form, text, out, written))
}

/// Write what a code means, in a line of English.
///
/// # Errors
/// - `ASM_SMALL`: `out` is too small, and `written` is the room that is needed.
#[unsafe(no_mangle)]
pub extern "C" fn asm_error_text(code: i32, out: &mut [u8], written: &mut usize) -> i32
    ensures written { written.new ≡ length (text_of_code code) }
    ensures text { WritesText (λ text. text ≡ text_of_code code) (λ c. ⊥) out.old out.new written.new result }
{
    answer(write(text_of_code(code).as_bytes(), out, written))
}

/// Return the version of the library.
/// It is a million for each major version, and a thousand for each minor one.
#[unsafe(no_mangle)]
pub extern "C" fn asm_version() -> u32
    ensures { result ≡ 2000 }
{
    2_000
}
