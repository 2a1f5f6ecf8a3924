//! Executions of all strands: the histories that they leave, and what makes one lawful, kept, plain and ordered.
#![tactic(auto)]

pub mod laws;
