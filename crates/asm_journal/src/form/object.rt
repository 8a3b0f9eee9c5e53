//! JSON objects whose keys are known.
ghost use Rattle.std.specs.Prelude.{◌≡◌, ◌≢◌, ◌↔◌, IsTrue, IfOk, IfSome, IfNone};
ghost use Rattle.serde_json.specs.Data.{Data, Members, object, member, no_members};
ghost use Rattle.serde_json.specs.View.{view, members_view};
ghost use Rattle.asm_journal.specs.Shape.{one_of, two_of, three_of};

use serde_json::{Map, Value as Json};
use std::alloc::{AllocError, Global};
use std::collections::btree_map::Iter;

/// Return the members of an object, in the order of their keys.
fn members_in<'v>(json: &'v Json) -> Option<Iter<'v, String, Json>>
    ensures some { IfSome result (λ members. view json.now ≡ object (members_view members)) }
    ensures none { IfNone result ((ms : Members) → view json.now ≢ object ms) }
{
    Some(json.as_object()?.iter())
}

/// Take the next member, in the order of keys; return its value if it has this key.
pub(crate) fn next_member<'v>(members: &mut Iter<'v, String, Json>, key: &str) -> Option<&'v Json>
    ensures some { IfSome result
        (λ v. members_view members.old ≡ member key.now (view v.now) (members_view members.new)) }
    ensures none { IfNone result
        ((d : Data) (ms : Members) → members_view members.old ≢ member key.now d ms) }
{
    let (name, value) = members.next()?;
    if name.as_str() == key {
        Some(value)
    } else {
        None
    }
}

/// Return whether there is no further member.
fn is_end(members: &mut Iter<'_, String, Json>) -> bool
    ensures { IsTrue result ↔ (members_view members.old ≡ no_members) }
{
    members.next().is_none()
}

/// Return the value in an object whose only key is this one.
///
/// `None` where the value is no object or has other keys.
pub fn one_member<'v>(json: &'v Json, key: &str) -> Option<&'v Json>
    ensures some { IfSome result (λ m. view json.now ≡ one_of key.now (view m.now)) }
    ensures none { IfNone result ((d : Data) → view json.now ≢ one_of key.now d) }
{
    let mut members = members_in(json)?;
    let value = next_member(&mut members, key)?;
    if is_end(&mut members) {
        Some(value)
    } else {
        None
    }
}

/// Return the values of an object that has only these two keys.
///
/// The keys are passed in the order of their bytes. `None` means that the value is no object or has other keys. The
/// order in the text is free.
pub fn two_members<'v>(json: &'v Json, first: &str, second: &str) -> Option<(&'v Json, &'v Json)>
    ensures some { IfSome result
        (λ m. view json.now ≡ two_of first.now (view m.0.now) second.now (view m.1.now)) }
    ensures none { IfNone result ((a b : Data) → view json.now ≢ two_of first.now a second.now b) }
{
    let mut members = members_in(json)?;
    let a = next_member(&mut members, first)?;
    let b = next_member(&mut members, second)?;
    if is_end(&mut members) {
        Some((a, b))
    } else {
        None
    }
}

/// Make an object of one member.
pub(crate) fn object_of(alloc: Global, key: &str, json: Json) -> Result<Json, AllocError>
    ensures { IfOk result (λ object. view object ≡ one_of key.now (view json)) }
{
    let mut members = Map::new(alloc);
    serde_json::put(&mut members, alloc, key, json)?;
    Ok(Json::Object(members))
}

/// Return the values of an object that has only these three keys.
///
/// The keys are passed in the order of their bytes.
pub(crate) fn three_members<'v>(
    json: &'v Json,
    first: &str,
    second: &str,
    third: &str,
) -> Option<(&'v Json, &'v Json, &'v Json)>
    ensures some { IfSome result (λ m. view json.now
        ≡ three_of first.now (view m.0.now) second.now (view m.1.now) third.now (view m.2.now)) }
    ensures none { IfNone result ((a b c : Data)
        → view json.now ≢ three_of first.now a second.now b third.now c) }
{
    let mut members = members_in(json)?;
    let a = next_member(&mut members, first)?;
    let b = next_member(&mut members, second)?;
    let c = next_member(&mut members, third)?;
    if is_end(&mut members) {
        Some((a, b, c))
    } else {
        None
    }
}

/// Return the values of an object that has only these five keys.
///
/// The keys are passed in the order of their bytes.
pub(crate) fn five_members<'v>(
    json: &'v Json,
    first: &str,
    second: &str,
    third: &str,
    fourth: &str,
    fifth: &str,
) -> Option<(&'v Json, &'v Json, &'v Json, &'v Json, &'v Json)>
    ensures some { IfSome result (λ m. view json.now
        ≡ object (member first.now (view m.0.now) (member second.now (view m.1.now)
        (member third.now (view m.2.now) (member fourth.now (view m.3.now)
        (member fifth.now (view m.4.now) no_members)))))) }
    ensures none { IfNone result ((d1 d2 d3 d4 d5 : Data) → view json.now
        ≢ object (member first.now d1 (member second.now d2
        (member third.now d3 (member fourth.now d4 (member fifth.now d5 no_members)))))) }
{
    let mut members = members_in(json)?;
    let a = next_member(&mut members, first)?;
    let b = next_member(&mut members, second)?;
    let c = next_member(&mut members, third)?;
    let d = next_member(&mut members, fourth)?;
    let e = next_member(&mut members, fifth)?;
    if is_end(&mut members) {
        Some((a, b, c, d, e))
    } else {
        None
    }
}
