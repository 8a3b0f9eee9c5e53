//! Answers: the number and values of a read, and the replies to a fire.
ghost use Rattle.std.specs.Prelude.{IfSome};
ghost use Rattle.asm_journal.specs.Event.{IsCauseForm, IsReplyForm, IsAnswerForm};
ghost use Rattle.asm_journal.specs.readback.{clash_form_clean, reply_form_clean, answer_form_clean};
ghost use Rattle.asm_journal.specs.Shape.{BeginsAs};

use crate::form::Listed;
use crate::front::FromFront;
use crate::front::scalars::{behind, number, quoted_text};
use asm_element::{Items, Location, Value};
use asm_storage::{Answer, Reply};
use asm_update::{Cause, Clash};
use std::alloc::Global;

/// Return the cause that the word in quotes names.
fn front_cause(text: &[u8]) -> Option<(Cause, &[u8])>
    ensures { IfSome result (λ p. BeginsAs IsCauseForm text.now p.0 p.1.now) }
{
    let (word, rest) = quoted_text(text)?;
    match word {
        "Two" => Some((Cause::Two, rest)),
        "Mixed" => Some((Cause::Mixed, rest)),
        "Kind" => Some((Cause::Kind, rest)),
        "Both" => Some((Cause::Both, rest)),
        "Against" => Some((Cause::Against, rest)),
        "Short" => Some((Cause::Short, rest)),
        "Large" => Some((Cause::Large, rest)),
        _ => None,
    }
}

impl FromFront for Clash {
    ghost nests = { 18 };

    ghost clean = { clash_form_clean };

    fn from_front(alloc: Global, text: &[u8]) -> Option<(Clash, &[u8])> {
        let inside = behind(text, b"[")?;
        let (at, left) = Location::from_front(alloc, inside)?;
        let second = behind(left, b",")?;
        let (cause, end) = front_cause(second)?;
        let rest = behind(end, b"]")?;
        Some((Clash { at, cause }, rest))
    }
}

/// Return the number of the move that was fired.
fn front_fired(text: &[u8]) -> Option<(Reply, &[u8])>
    ensures { IfSome result (λ p. BeginsAs IsReplyForm text.now p.0 p.1.now) }
{
    let inside = behind(text, b"{\"fired\":")?;
    let (fired, left) = number(inside)?;
    let rest = behind(left, b"}")?;
    Some((Reply::Fired(fired), rest))
}

/// Return the location that was stale.
fn front_stale(alloc: Global, text: &[u8]) -> Option<(Reply, &[u8])>
    ensures { IfSome result (λ p. BeginsAs IsReplyForm text.now p.0 p.1.now) }
{
    let inside = behind(text, b"{\"stale\":")?;
    let (at, left) = Location::from_front(alloc, inside)?;
    let rest = behind(left, b"}")?;
    Some((Reply::Stale(at), rest))
}

/// Return the clash.
fn front_clash(alloc: Global, text: &[u8]) -> Option<(Reply, &[u8])>
    ensures { IfSome result (λ p. BeginsAs IsReplyForm text.now p.0 p.1.now) }
{
    let inside = behind(text, b"{\"clash\":")?;
    let (clash, left) = Clash::from_front(alloc, inside)?;
    let rest = behind(left, b"}")?;
    Some((Reply::Clash(clash), rest))
}

/// Return the word of a full storage.
fn front_full(text: &[u8]) -> Option<(Reply, &[u8])>
    ensures { IfSome result (λ p. BeginsAs IsReplyForm text.now p.0 p.1.now) }
{
    let rest = behind(text, b"\"full\"")?;
    Some((Reply::Full, rest))
}

impl FromFront for Reply {
    ghost nests = { 21 };

    ghost clean = { reply_form_clean };

    fn from_front(alloc: Global, text: &[u8]) -> Option<(Reply, &[u8])> {
        match text.get(2) {
            Some(b'f') => front_fired(text),
            Some(b's') => front_stale(alloc, text),
            Some(b'c') => front_clash(alloc, text),
            _ => front_full(text),
        }
    }
}

/// Return the number and the values of a read.
fn front_values(alloc: Global, text: &[u8]) -> Option<(Answer, &[u8])>
    ensures { IfSome result (λ p. BeginsAs IsAnswerForm text.now p.0 p.1.now) }
{
    let inside = behind(text, b"{\"number\":")?;
    let (number, left) = number(inside)?;
    let second = behind(left, b",\"values\":")?;
    let (listed, end) = Listed::<Value>::from_front(alloc, second)?;
    let rest = behind(end, b"}")?;
    let values = Items::new(listed.into_vec());
    Some((Answer::Read { number, values }, rest))
}

/// Return the reply to a fire as an answer.
fn front_reply(alloc: Global, text: &[u8]) -> Option<(Answer, &[u8])>
    ensures { IfSome result (λ p. BeginsAs IsAnswerForm text.now p.0 p.1.now) }
{
    let (reply, rest) = Reply::from_front(alloc, text)?;
    Some((Answer::Fire(reply), rest))
}

impl FromFront for Answer {
    ghost nests = { 21 };

    ghost clean = { answer_form_clean };

    fn from_front(alloc: Global, text: &[u8]) -> Option<(Answer, &[u8])> {
        match text.get(2) {
            Some(b'n') => front_values(alloc, text),
            _ => front_reply(alloc, text),
        }
    }
}
