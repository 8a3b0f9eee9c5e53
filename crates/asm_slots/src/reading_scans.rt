//! Reading scans of functions from bytes.
ghost use Rattle.std.specs.Prelude.{◌≡◌, ◌≢◌, ◌∷◌, [], IfOk, IfErr, IfSome, IfNone, option_map};
ghost use Rattle.serde_json.specs.Data.{Data};
ghost use Rattle.serde_json.specs.View.{view, items_view};
ghost use Rattle.asm_journal.specs.Shape.{AreForms, IsNumberForm, IsParsed, list_of};
ghost use Rattle.asm_explain.specs.Bytes.{IsMisread};
ghost use Rattle.asm_slots.specs.AgentAnswers.{AreScans, IsScanForm, ReadAsScans};

use asm_explain::{TextError, read_as};
use asm_journal::{FormCause, FormError, FromJson, two_items};
use asm_state::Scanned;
use serde_json::Value as Json;
use std::alloc::{AllocError, Global};
use std::marker::Model;

/// The scans that were read from a text; contracts see them as a list.
#[derive(Drop)]
struct ReadScans {
    scans: Vec<Scanned>,
}

impl Model for ReadScans {
    ghost use Rattle.std.specs.Prelude.{List};
    ghost use Rattle.std.specs.Coded.{coded_list};
    ghost use Rattle.asm_state.specs.declared.scanned.Scanned.{Scanned};
    ghost use Rattle.asm_state.specs.contracts.scanned.Scanned.{the_row as scanned_row};

    ghost Value = { List Scanned };

    ghost coded = { coded_list scanned_row.coded };

    ghost view = { λ s. s.scans.items };
}

// Return the items of an array of two.
fn pair_items(json: &Json) -> Option<(&Json, &Json)>
    ensures some { IfSome result (λ p. view json.now ≡ list_of (view p.0.now ∷ view p.1.now ∷ [])) }
    ensures none { IfNone result ((a b : Data) → view json.now ≢ list_of (a ∷ b ∷ [])) }
{
    two_items(json.as_array()?)
}

// Read a whole number from 0 to 4,294,967,295.
fn read_number(json: &Json) -> Option<u32>
    ensures { IsParsed IsNumberForm (view json.now) result }
{
    u32::try_from(json.as_u64()?).ok()
}

// Read `[NAME,NUMBER]`.
fn read_scan(alloc: Global, json: &Json) -> Result<Option<Scanned>, AllocError>
    ensures { IfOk result (IsParsed IsScanForm (view json.now)) }
{
    let Some((name, number)) = pair_items(json) else {
        return Ok(None);
    };
    let Some(number) = read_number(number) else {
        return Ok(None);
    };
    let Some(name) = name.as_str() else {
        return Ok(None);
    };
    let name = String::from_str(alloc, name)?;
    Ok(Some(Scanned { name, number }))
}

// Read each of the items, in order.
fn read_each(alloc: Global, items: &[Json]) -> Result<Option<Vec<Scanned>>, AllocError>
    ensures { IfOk result (λ o. IsParsed (AreForms IsScanForm) (items_view items.now) (option_map (λ v. v.items) o)) }
{
    let mut found = Vec::with_capacity(alloc, items.len())?;
    for item in items {
        match read_scan(alloc, item)? {
            Some(scan) => found.push(scan)?,
            None => return Ok(None),
        }
    }
    Ok(Some(found))
}

impl FromJson for ReadScans {
    ghost is_form = { AreScans };

    fn from_json(alloc: Global, json: &Json) -> Result<ReadScans, FormError> {
        let Some(items) = json.as_array() else {
            return Err(FormError::of(alloc, FormCause::NoArray));
        };
        match read_each(alloc, items)? {
            Some(scans) => Ok(ReadScans { scans }),
            None => Err(FormError::of(alloc, FormCause::Scan)),
        }
    }
}

/// Read the scans of `[[NAME,NUMBER], ..]`.
pub(crate) fn scans_of(alloc: Global, bytes: &[u8]) -> Result<Vec<Scanned>, TextError>
    ensures ok { IfOk result (λ scans. ReadAsScans bytes.now scans.items) }
    ensures err { IfErr result (IsMisread AreScans bytes.now) }
{
    match read_as::<ReadScans>(alloc, bytes) {
        Ok(read) => Ok(read.scans),
        Err(error) => Err(error),
    }
}
