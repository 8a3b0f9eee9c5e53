//! The library for C: its calls on the slots of `asm_slots`.
//! A slot of zeros holds nothing.
#![tactic(auto)]

#[tactic(auto, using(asm_slots::proofs::Answered::answers))]
mod auditing;
#[tactic(auto, using(asm_slots::proofs::Answered::answers))]
mod committing;
#[tactic(auto, using(asm_slots::proofs::Answered::answers))]
mod counting;
mod counts_and_learning;
#[tactic(auto, using(asm_slots::proofs::Answered::answers))]
mod give_and_close;
#[tactic(auto, using(asm_slots::proofs::Answered::answers))]
mod instructing;
#[tactic(auto, using(asm_slots::proofs::Answered::answers))]
mod journals;
#[tactic(auto, using(asm_slots::proofs::Answered::answers))]
mod members;
#[tactic(auto, using(asm_slots::proofs::Answered::answers))]
mod opening;
#[tactic(auto, using(asm_slots::proofs::Answered::answers))]
mod own_state;
#[tactic(auto, using(asm_slots::proofs::Answered::answers))]
mod pushing;
#[tactic(auto, using(asm_slots::proofs::Answered::answers))]
mod pushing_at;
#[tactic(auto, using(asm_slots::proofs::Answered::answers))]
mod read_and_fire;
#[tactic(auto, using(asm_slots::proofs::Answered::answers))]
mod reading_moves;
#[tactic(auto, using(asm_slots::proofs::Answered::answers))]
mod running;
#[tactic(auto, using(asm_slots::proofs::Answered::answers))]
mod standing;
#[tactic(auto, using(asm_slots::proofs::Answered::answers))]
mod steps;
