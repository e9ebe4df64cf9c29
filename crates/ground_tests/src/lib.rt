//! Tests of grounds, in a crate of their own, so that the crate `ground` is proved only once.
#![tactic(auto)]

#[cfg(test)]
mod tests;
