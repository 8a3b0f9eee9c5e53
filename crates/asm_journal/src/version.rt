//! The versions of a journal: version 2 has lists, and version 1 has none.
ghost use Rattle.std.specs.Prelude.{◌≡◌, ◌↔◌, IsTrue};
ghost use Rattle.serde_json.specs.View.{view, items_view, members_view};
ghost use Rattle.asm_journal.specs.Shape.{IsVersion, IsOfVersion, has_list as has_list_of, items_have_list as items_have_list_of, members_have_list as members_have_list_of};

use serde_json::{Map, Value as Json};

/// Return whether a journal of this version is read.
pub(crate) fn is_version(version: u32) -> bool
    ensures { IsTrue result ↔ IsVersion version }
{
    version == 1 || version == 2
}

/// Return whether there is a list anywhere in the value.
///
/// It recurses as deep as the value nests, at most 127 levels in what was read from a text.
#[cycle(has_list)]
fn has_list(json: &Json) -> bool
    ensures { result ≡ has_list_of (view json.now) }
{
    match json {
        Json::Array(items) => items_have_list(items),
        Json::Object(members) => members_have_list(members),
        Json::Null | Json::Bool(_) | Json::Number(_) | Json::String(_) => false,
    }
}

/// Return whether there is a list anywhere in one of the items.
#[cycle(has_list)]
fn items_have_list(items: &[Json]) -> bool
    ensures { result ≡ items_have_list_of (items_view items.now) }
{
    for item in items {
        if has_list(item) {
            return true;
        }
    }
    false
}

/// Return whether the members are those of a list, or one of them has a list in it.
#[cycle(has_list)]
fn members_have_list(members: &Map<String, Json>) -> bool
    ensures { result ≡ members_have_list_of (members_view members.now.entries) }
{
    for (key, value) in members.iter() {
        if key.as_str() == "list" || has_list(value) {
            return true;
        }
    }
    false
}

/// Return whether a journal of this version may have the value.
pub(crate) fn is_of_version(json: &Json, version: u32) -> bool
    ensures { IsTrue result ↔ IsOfVersion version (view json.now) }
{
    version != 1 || !has_list(json)
}
