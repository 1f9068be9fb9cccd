//! A test of reading schema files: the tree of a file with each attribute. The rules of schemas refuse it, so no run
//! shows it. The forms of attributes are rows of `test_steps`; what is refused, and what reaches a limit, are rows of
//! `test_runs`.
#![tactic(auto)]

#[cfg(test)]
mod outline;
#[cfg(test)]
mod tree_rows;
