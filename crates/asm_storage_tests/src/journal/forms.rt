//! The forms of locations, values and instructions, by themselves: those that a text has are written unchanged read.
use asm_journal::{
    instruction_json, location_json, read_instruction, read_location, read_value, value_json,
};
use serde_json::Value as Json;
use std::alloc::{AllocError, Global};
use std::test::Fail;

/// What a text is read as.
#[derive(Clone, Copy)]
enum Form {
    Location,
    Value,
    Instruction,
}

/// Return the location that JSON is read as, written; none where it is read as none.
fn location_again(alloc: Global, json: &Json) -> Result<Option<Json>, AllocError> {
    match read_location(alloc, json)? {
        Some(location) => Ok(Some(location_json(alloc, &location)?)),
        None => Ok(None),
    }
}

/// Return the same for a value.
fn value_again(alloc: Global, json: &Json) -> Result<Option<Json>, AllocError> {
    match read_value(alloc, json)? {
        Some(value) => Ok(Some(value_json(alloc, &value)?)),
        None => Ok(None),
    }
}

/// Return the same for an instruction.
fn instruction_again(alloc: Global, json: &Json) -> Result<Option<Json>, AllocError> {
    match read_instruction(alloc, json)? {
        Some(instruction) => Ok(Some(instruction_json(alloc, &instruction)?)),
        None => Ok(None),
    }
}

/// Return the text of what JSON is read as in this form; none where it is read as none.
fn text_again(alloc: Global, form: Form, json: &Json) -> Result<Option<String>, AllocError> {
    let again = match form {
        Form::Location => location_again(alloc, json)?,
        Form::Value => value_again(alloc, json)?,
        Form::Instruction => instruction_again(alloc, json)?,
    };
    match again {
        Some(json) => Ok(Some(json.to_string(alloc)?)),
        None => Ok(None),
    }
}

/// Return whether a text is written unchanged read in this form, or where it has another form is read as none.
fn is_form(alloc: Global, form: Form, text: &str, is_kept: bool) -> Result<bool, Fail> {
    let json = Json::from_str(alloc, text).ok().ok_or("the text is JSON")?;
    match text_again(alloc, form, &json)? {
        Some(again) => Ok(is_kept && again.as_str() == text),
        None => Ok(!is_kept),
    }
}

static FORMS: [(Form, &str, bool); 33] = [
    (Form::Location, r#"["x"]"#, true),
    (
        Form::Location,
        r#"["_a1",null,false,true,-9223372036854775808,9223372036854775807,"","é\n"]"#,
        true,
    ),
    (Form::Location, r#"["x",1,2,3,4,5,6,7,8]"#, true),
    (
        Form::Location,
        r#"["a",{"list":[{"list":[]}]},1,{"list":[2]}]"#,
        true,
    ),
    (Form::Location, "[]", false),
    (Form::Location, r#"["x",[]]"#, false),
    (Form::Location, r#"["x",1,2,3,4,5,6,7,8,9]"#, false),
    (Form::Value, "null", true),
    (Form::Value, "true", true),
    (Form::Value, "-1", true),
    (Form::Value, r#""a""#, true),
    (Form::Value, r#"{"set":[]}"#, true),
    (
        Form::Value,
        r#"{"set":[null,false,true,-1,0,10,"","B","a"]}"#,
        true,
    ),
    (Form::Value, r#"{"bag":[]}"#, true),
    (
        Form::Value,
        r#"{"bag":[["e",2],[{"list":[]},1],[{"list":["é\n"]},4294967295]]}"#,
        true,
    ),
    (
        Form::Value,
        r#"{"list":[{"list":[]},"b",2,"a",1,-1,true,false,null,null]}"#,
        true,
    ),
    (Form::Value, "[]", false),
    (Form::Value, r#"{"set":[1,1]}"#, false),
    (Form::Value, r#"{"bag":[[1,0]]}"#, false),
    (Form::Value, r#"{"list":[{"set":[]}]}"#, false),
    (Form::Instruction, r#"["put",["x"],null]"#, true),
    (Form::Instruction, r#"["put",["x",1],{"set":[1,2]}]"#, true),
    (Form::Instruction, r#"["add",["s"],{"list":[1]}]"#, true),
    (Form::Instruction, r#"["remove",["s"],true]"#, true),
    (Form::Instruction, r#"["bagadd",["b"],"e",1]"#, true),
    (
        Form::Instruction,
        r#"["bagremove",["b"],-1,4294967295]"#,
        true,
    ),
    (
        Form::Instruction,
        r#"["inc",["n"],-9223372036854775808]"#,
        true,
    ),
    (Form::Instruction, r#"["inc",["n",{"list":[]}],0]"#, true),
    (Form::Instruction, r#"["put",["x"],1,1]"#, false),
    (Form::Instruction, r#"["set",["x"],1]"#, false),
    (Form::Instruction, r#"["bagadd",["b"],"e",0]"#, false),
    (Form::Instruction, r#"["inc",["n"],1.0]"#, false),
    (Form::Instruction, "null", false),
];

#[test]
fn forms_are_written_as_they_are_read(rt: HostRuntime) -> Result<(), Fail> {
    for (form, text, is_kept) in FORMS.iter() {
        assert!(rt; is_form(rt.alloc(), *form, text, *is_kept)?, "{text}");
    }
    Ok(())
}
