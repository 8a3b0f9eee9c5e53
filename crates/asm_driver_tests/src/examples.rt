//! What the README and the page on calling show, as a user has it: by the public surface of the libraries alone.
mod elements;
mod journal;
mod moves;
mod script;
mod shared;
mod steps;
mod trace;
mod transfer;
