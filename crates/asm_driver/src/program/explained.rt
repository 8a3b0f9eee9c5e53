//! Where and why the input is refused.
ghost use Rattle.std.specs.Prelude.{IfOk, IfNone, IfSome, string_bytes, ◌≢◌, []};
ghost use Rattle.asm_driver.specs.Explained.{IsAccepted, IsExplained, IsRefused};

use crate::program::commands::Ending;
use crate::program::words::TextKind;
use asm_explain::{Form, explain, explain_journal};
use std::alloc::{AllocError, Global};

/// Return why the bytes are refused as a text of this kind, or `None` if accepted.
fn reported(alloc: Global, kind: TextKind, bytes: &[u8]) -> Result<Option<String>, AllocError>
    ensures accepted { IfOk result (λ said. IfNone said (IsAccepted kind bytes.now)) }
    ensures refused { IfOk result (λ said. IfSome said (λ s. IsRefused kind bytes.now (string_bytes s))) }
{
    match kind {
        TextKind::Script => explain(alloc, Form::Script, bytes),
        TextKind::Journal => explain_journal(alloc, bytes),
    }
}

/// Return the line that says where and why the bytes are refused.
///
/// They are read as a text of this kind. If they are accepted, the text is empty.
pub(crate) fn explained(alloc: Global, kind: TextKind, bytes: &[u8]) -> Result<Ending, AllocError>
    ensures { IfOk result (λ e. IsExplained bytes.now kind e.status (string_bytes e.text)) }
{
    Ok(match reported(alloc, kind, bytes)? {
        Some(sentence) => Ending {
            status: 1,
            text: format!(in alloc; "{sentence}\n")?,
        },
        None => Ending {
            status: 0,
            text: String::new(alloc),
        },
    })
}
