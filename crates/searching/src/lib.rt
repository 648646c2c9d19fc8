// Words that ascend, searched.
#![tactic(auto, using(crate::proofs::WordSearch::word_inside))]

pub mod search;
