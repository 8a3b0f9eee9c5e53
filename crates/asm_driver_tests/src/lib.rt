//! Tests of `asm_driver` and of what it uses, `asm_play`, `asm_script` and `asm_step`, of what no case of the program
//! shows; of `asm_transaction`; and the examples of the pages. They see public items alone.
#![tactic(auto)]

#[cfg(test)]
mod busy_steps;
#[cfg(test)]
mod errors;
#[cfg(test)]
mod examples;
#[cfg(test)]
mod failing_outputs;
#[cfg(test)]
mod limits;
#[cfg(test)]
mod plays;
#[cfg(test)]
mod ports;
#[cfg(test)]
mod refusals;
#[cfg(test)]
mod running;
#[cfg(test)]
mod transactions;
#[cfg(test)]
mod watches;
#[cfg(test)]
mod windows;
#[cfg(test)]
mod words;
