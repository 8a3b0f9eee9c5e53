//! Journals of histories: their JSON forms, their check, and the states that they leave.
//!
//! Where a comment says that memory was refused, it may also be that more copies would share a list than can be
//! counted.
#![tactic(auto)]

mod checking;
mod error;
mod form;
mod front;
pub mod laws;
mod line;
mod output;
mod parsing;
mod replaying;
mod spelling;
mod texts;
mod version;
mod writing;

pub use checking::{Legality, check, judge_event};
pub use error::{JournalError, WriteError};
pub use form::{
    FormCause, FormError, FormFault, FromJson, Listed, OfPart, PathStep, ToJson, instruction_json,
    instruction_parts, location_json, one_member, pair_json, read_amount, read_form,
    read_instruction, read_location, read_one, read_value, two_items, two_members, value_json,
    word_of_cause,
};
pub use front::{FromFront, read_compact};
pub use output::write_text;
pub use parsing::{Header, Limits, from_text, read_event, read_header};
pub use replaying::{next_storage, replay, replay_closing, replay_over};
pub use spelling::{ToText, list_text, values_text};
pub use texts::{answer_text, move_text, state_text, updates_text, value_text};
pub use writing::{closing_text, header_members, push_line, to_text};
