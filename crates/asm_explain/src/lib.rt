//! Where and why a text is refused that should be a script, a journal, or one of the texts of the library for C.
//!
//! The readers of these texts alone decide what is accepted: there is a sentence exactly if they refuse. What it says
//! is the fault that the reader of the form returns for the refused text, in words.
#![tactic(auto)]

mod explaining;
mod fault;
mod journal;
mod reading;
mod sentence;

pub use explaining::{Form, explain};
pub use journal::explain_journal;
pub use reading::{Fire, TextError, fire_of, read_as, read_quickly};
pub use sentence::SENTENCE_LIMIT;
