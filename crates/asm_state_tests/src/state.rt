//! Tests of `asm_state` and `asm_overlay`.
mod equality;
mod frames;
mod holding;
mod in_place;
mod judging;
mod layers;
