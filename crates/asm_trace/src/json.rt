//! JSON of a known shape.
ghost use Rattle.std.specs.Prelude.{◌≡◌, IfOk, OnOk, [], ◌∷◌, map, option_map, codes};
ghost use Rattle.serde_json.specs.View.{view, members_view};
ghost use Rattle.asm_journal.specs.Shape.{list_of, pair_of, one_of, two_of};
ghost use Rattle.asm_trace.specs.Text.{with_some};

use serde_json::{Map, Value as Json};
use std::alloc::{AllocError, Global};

/// Return an array of these values.
pub(crate) fn array_of(list: Vec<Json>) -> Json
    ensures { view result ≡ list_of (map view list.items) }
{
    Json::Array(list)
}

/// Return an array of one value.
pub(crate) fn array_of_one(alloc: Global, json: Json) -> Result<Json, AllocError>
    ensures { IfOk result (λ array. view array ≡ list_of (view json ∷ [])) }
{
    Ok(Json::Array(vec![in alloc; json]?))
}

/// Return an array of two values.
pub(crate) fn array_of_two(alloc: Global, first: Json, second: Json) -> Result<Json, AllocError>
    ensures { IfOk result (λ json. view json ≡ pair_of (view first) (view second)) }
{
    Ok(Json::Array(vec![in alloc; first, second]?))
}

/// Return an array of three values.
pub(crate) fn array_of_three(
    alloc: Global,
    first: Json,
    second: Json,
    third: Json,
) -> Result<Json, AllocError>
    ensures { IfOk result (λ json. view json ≡ list_of (view first ∷ view second ∷ view third ∷ [])) }
{
    Ok(Json::Array(vec![in alloc; first, second, third]?))
}

/// Return an object with the member `counts` alone.
pub(crate) fn counts_object(alloc: Global, counts: Json) -> Result<Json, AllocError>
    ensures { IfOk result (λ json. view json ≡ one_of (codes "counts") (view counts)) }
{
    let mut members = Map::new(alloc);
    serde_json::put(&mut members, alloc, "counts", counts)?;
    Ok(Json::Object(members))
}

/// Return an object with the members `added` and `removed` alone.
pub(crate) fn added_and_removed(
    alloc: Global,
    added: Json,
    removed: Json,
) -> Result<Json, AllocError>
    ensures { IfOk result (λ json. view json
        ≡ two_of (codes "added") (view added) (codes "removed") (view removed)) }
{
    let mut members = Map::new(alloc);
    serde_json::put(&mut members, alloc, "added", added)?;
    serde_json::put(&mut members, alloc, "removed", removed)?;
    Ok(Json::Object(members))
}

/// Return an object with the members `differs` and `number` alone.
pub(crate) fn differs_and_number(
    alloc: Global,
    differs: Json,
    number: Json,
) -> Result<Json, AllocError>
    ensures { IfOk result (λ json. view json
        ≡ two_of (codes "differs") (view differs) (codes "number") (view number)) }
{
    let mut members = Map::new(alloc);
    serde_json::put(&mut members, alloc, "differs", differs)?;
    serde_json::put(&mut members, alloc, "number", number)?;
    Ok(Json::Object(members))
}

/// Put a member into an object, if there is a value for it.
pub(crate) fn put_some(
    alloc: Global,
    members: &mut Map<String, Json>,
    key: &str,
    json: Option<Json>,
) -> Result<(), AllocError>
    ensures { OnOk result (members_view members.new.entries
        ≡ with_some key.now (option_map view json) (members_view members.old.entries)) }
{
    match json {
        Some(json) => serde_json::put(members, alloc, key, json),
        None => Ok(()),
    }
}
