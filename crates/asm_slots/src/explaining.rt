//! Judging whether a text reads as a form, with a sentence that says where and why it doesn't.
ghost use Rattle.std.specs.Prelude.{◌≡◌, IfNone, IfSome, MatchResult};
ghost use Rattle.asm_slots.specs.Forms.{DoesNotExplain, Explains, IsNoForm, form_code};

use crate::codes::{Code, copy_into};
use asm_explain::{Form, SENTENCE_LIMIT};
use std::alloc::Global;

fn form_of(form: i32) -> Option<Form>
    ensures some { IfSome result (λ f. form_code f ≡ form) }
    ensures none { IfNone result (IsNoForm form) }
{
    match form {
        0 => Some(Form::Locations),
        1 => Some(Form::Move),
        2 => Some(Form::State),
        3 => Some(Form::Event),
        4 => Some(Form::Script),
        _ => None,
    }
}

/// Do what `asm_explain` does.
///
/// The call judges what the readers of the forms accept, and nothing for which another call is refused. The choice of the
/// sentence is tested.
pub fn explain(
    alloc: Global,
    form: i32,
    text: &[u8],
    out: &mut [u8],
    written: &mut usize,
) -> Result<(), Code>
    ensures { MatchResult result (λ done. Explains form text.now out.old out.new written.new)
        (DoesNotExplain form text.now out.old out.new written.new) }
{
    *written = 0;
    let Some(form) = form_of(form) else {
        return Err(Code::NoForm);
    };
    let Some(said) = asm_explain::explain(alloc, form, text)? else {
        return Ok(());
    };
    let said = said.as_bytes();
    if out.len() < said.len() {
        *written = SENTENCE_LIMIT;
        return Err(Code::Small);
    }
    copy_into(said, out, written);
    Ok(())
}
