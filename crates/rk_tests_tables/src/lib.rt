//! `BucketTable` beside `SortedTable`: the same calls have the same answers.
#![tactic(auto)]

#[cfg(test)]
mod beside;
