// Tests of the book. What a test plays and a second book stand here: the second keeps only ranks and pairings, and computes
// hearing and labels anew, straight from their definitions.
#![tactic(auto)]

pub mod brute;
pub mod changes;
pub mod random;
pub mod relation;
#[cfg(test)]
mod tests;
