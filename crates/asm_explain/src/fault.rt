//! The faults that the readers of JSON return, in words.
use crate::sentence::grouped;
use asm_element::{Element, Value};
use asm_journal::PathStep::{Index, Key};
use asm_journal::{FormCause, FormError, FormFault, FromJson, PathStep, read_location};
use asm_overlay::FRAMES_LIMIT;
use asm_storage::AGENTS_LIMIT;
use asm_update::{INSTRUCTIONS_LIMIT, UpdateSet};
use serde_json::Value as Json;
use std::alloc::{AllocError, Global};

/// How the items of a text's arrays are called, from the outermost array on, and the number of the first item.
#[derive(Clone, Copy, Drop)]
pub(crate) struct Root(pub(crate) &'static [&'static str], usize);

pub(crate) const LOCATIONS: Root = Root(&["location"], 1);

pub(crate) const STATE: Root = Root(&["pair"], 1);

pub(crate) const OBJECT: Root = Root(&[], 1);

pub(crate) const INIT: Root = Root(&["init pair"], 0);

pub(crate) const SCRIPT: Root = Root(&[], 0);

// The names of the items within this part of what has items with these names.
fn names_in(names: &'static [&'static str], part: PathStep) -> &'static [&'static str] {
    match part {
        Key("agents") => &["agent", "step", "block", "instruction"],
        Key("init") => &["init pair"],
        Key("fire") => &["instruction"],
        Key("read") => &["location"],
        Key("reads") => &["read"],
        Key("values") => &["value"],
        Key(_) => &[],
        Index(_) => names.get(1..).unwrap_or(&[]),
    }
}

// What an item of the part is called to which the path leads.
fn name_at(root: Root, path: &[PathStep]) -> &'static str {
    let mut names = root.0;
    for part in path.iter().rev() {
        names = names_in(names, *part);
    }
    match names.first() {
        Some(name) => name,
        None => "item",
    }
}

// The part to which the path leads.
fn part_at<'v>(json: &'v Json, path: &[PathStep]) -> Option<&'v Json> {
    let mut json = json;
    for part in path.iter().rev() {
        json = match *part {
            Index(index) => json.as_array()?.get(index)?,
            Key(key) => json.get(key)?,
        };
    }
    Some(json)
}

// The word of the instruction to which the path leads.
fn word_at<'v>(json: &'v Json, path: &[PathStep]) -> Option<&'v str> {
    part_at(json, path)?.as_array()?.first()?.as_str()
}

// The named parts through which the path leads, with their numbers: `agent 0 step 2`.
fn place(alloc: Global, root: Root, fault: &FormFault) -> Result<String, AllocError> {
    let Root(mut names, first) = root;
    let mut place = String::new(alloc);
    for part in fault.path().iter().rev() {
        let space = if place.is_empty() { "" } else { " " };
        if let (Index(index), Some(name)) = (*part, names.first()) {
            let number = index.saturating_add(first);
            place = format!(in alloc; "{place}{space}{name} {number}")?;
        } else if matches!(part, Key("reply")) && fault.cause() != FormCause::Reply {
            place.push_str("reply")?;
        }
        names = names_in(names, *part);
    }
    Ok(place)
}

// What holds the element to which the path leads.
fn holder(json: &Json, path: &[PathStep]) -> &'static str {
    match path {
        [Index(_), Key("list"), ..] => "list",
        [Index(_), Key("set"), ..] => "set",
        [Index(_), Index(_), Key("bag"), ..] => "bag",
        [Index(2), at @ ..] if matches!(at, [Index(_), Key("fire"), ..]) => {
            match word_at(json, at) {
                Some("add" | "remove") => "set",
                _ => "bag",
            }
        }
        _ => "location",
    }
}

// What is said of a part that is no array.
fn array_words(alloc: Global, root: Root, path: &[PathStep]) -> Result<String, AllocError> {
    let name = name_at(root, path);
    let words = match (name, path.first()) {
        (_, Some(Key("set"))) => "a set is written {\"set\":[..]}",
        (_, Some(Key("bag"))) => "a bag is written {\"bag\":[[ELEMENT,COUNT],..]}",
        ("pair", _) => "a state is an array of pairs",
        ("init pair", _) => "init is an array of pairs",
        ("step", _) => "an agent is an array of steps",
        ("block", _) => "a step is an array of blocks",
        ("instruction", Some(Index(_))) => "a block is an array of instructions",
        _ => return format!(in alloc; "the {name}s are an array"),
    };
    String::from_str(alloc, words)
}

// What is said of an array with so many items, which are too many.
fn count_words(alloc: Global, name: &str, count: usize, most: usize) -> Result<String, AllocError> {
    let (count, most) = (grouped(alloc, count)?, grouped(alloc, most)?);
    format!(in alloc; "{count} {name}, at most {most}")
}

// Whether the word may be quoted in a sentence: it is short, and none of its bytes ends a line or a quotation.
fn is_plain(word: &str) -> bool {
    word.len() <= 64
        && word
            .as_bytes()
            .iter()
            .all(|byte| byte.is_ascii_graphic() && *byte != b'"')
}

// What is said of an instruction's word, which a script's sentence quotes.
fn word_words(alloc: Global, root: Root, word: Option<&str>) -> Result<String, AllocError> {
    match word {
        Some(word) if root.1 == 0 && is_plain(word) => {
            format!(in alloc; "unknown word \"{word}\"")
        }
        _ => FormCause::Word.to_string(alloc),
    }
}

// The first pair whose location is in an earlier one.
fn first_twice(alloc: Global, pairs: &[Json]) -> Result<Option<usize>, AllocError> {
    let mut seen = UpdateSet::new(alloc);
    for (index, pair) in pairs.iter().enumerate() {
        let at = pair.as_array().and_then(|items| items.first());
        let Some(at) = read_location(alloc, at.unwrap_or(&Json::Null))? else {
            continue;
        };
        if seen.get(&at).is_some() {
            return Ok(Some(index));
        }
        seen.put(at, Value::Plain(Element::Undef))?;
    }
    Ok(None)
}

// What is said of a state with a location twice.
fn twice_words(alloc: Global, root: Root, state: Option<&Json>) -> Result<String, AllocError> {
    if let (0, Some(Json::Array(pairs))) = (root.1, state) {
        if let Some(index) = first_twice(alloc, pairs)? {
            return format!(in alloc; "init pair {index}: its location stands twice");
        }
    }
    FormCause::StateTwice.to_string(alloc)
}

// What is wrong with the part of the JSON.
fn words(alloc: Global, root: Root, json: &Json, fault: &FormFault) -> Result<String, AllocError> {
    let path = fault.path();
    let holder = holder(json, path);
    match fault.cause() {
        FormCause::NoArray => array_words(alloc, root, path),
        FormCause::ManyAgents(count) => count_words(alloc, "agents", count, AGENTS_LIMIT as usize),
        FormCause::BlockCount(0) => String::from_str(alloc, "no block, at least 1"),
        FormCause::BlockCount(count) => count_words(alloc, "blocks", count, FRAMES_LIMIT + 1),
        FormCause::Many(count) => count_words(alloc, "instructions", count, INSTRUCTIONS_LIMIT),
        FormCause::HeldSet => format!(in alloc; "a {holder} can't hold a set"),
        FormCause::HeldBag => format!(in alloc; "a {holder} can't hold a bag"),
        FormCause::Word => word_words(alloc, root, word_at(json, path)),
        FormCause::StateTwice => twice_words(alloc, root, part_at(json, path)),
        cause => cause.to_string(alloc),
    }
}

/// Return where and why JSON has another form, by what its reader returned.
pub(crate) fn sentence_of(
    alloc: Global,
    root: Root,
    json: &Json,
    error: FormError,
) -> Result<String, AllocError> {
    let FormError::Form(fault) = error else {
        return Err(AllocError);
    };
    let (place, words) = (
        place(alloc, root, &fault)?,
        words(alloc, root, json, &fault)?,
    );
    if place.is_empty() {
        return Ok(words);
    }
    format!(in alloc; "{place}: {words}")
}

/// Return where and why JSON is no value of this type; `None` if it is one.
pub(crate) fn why_not<T: FromJson>(
    alloc: Global,
    root: Root,
    json: &Json,
) -> Result<Option<String>, AllocError> {
    match T::from_json(alloc, json) {
        Ok(_) => Ok(None),
        Err(error) => Ok(Some(sentence_of(alloc, root, json, error)?)),
    }
}
