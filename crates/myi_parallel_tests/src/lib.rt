//! Tests of trees that are laid side by side, which show what no clause of `myi_parallel` can say: that
//! workers run at the same time.
#![tactic(auto)]

#[cfg(test)]
mod tests;
