//! The content of a slot, in the box behind its handle.
use crate::audit::Audit;
use crate::owned_agent::OwnedAgent;
use crate::run::Run;
use crate::store::Store;
use asm_element::Location;
use asm_transaction::Transaction;
use asm_update::Instructions;

/// The content of a slot's box.
///
/// The box is reused: it contains nothing while a call works on the content that it took out.
#[derive(Drop)]
pub enum Content {
    Nothing,
    Store(Store),
    Agent(OwnedAgent),
    Step(Transaction),
    Location(Location),
    Move(Instructions),
    Audit(Audit),
    Run(Run),
}
