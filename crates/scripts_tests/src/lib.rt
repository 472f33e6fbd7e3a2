// Tests of scripts: every call in words, and where each fault is told.
#![tactic(auto)]

#[cfg(test)]
mod tests;
