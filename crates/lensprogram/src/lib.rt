//! The program, but for its `main`: from the arguments to the code with which the process ends.
#![tactic(auto)]

pub mod program;
