//! Tests of `asm_row`.
mod drops;
mod marks;
mod rows;
mod seats;
mod steps;
mod threads;
