//! Tests of `asm_aggregate`.
mod admissions;
mod compositions;
mod counters;
mod errors;
mod groups;
mod joins;
mod lookups;
mod plain_data;
