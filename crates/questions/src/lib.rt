// What the questions of every subject share: how the words of a line become arguments and entries of tables, and how an answer becomes numbers.

#![tactic(auto)]

pub mod answer;
pub mod arguments;
pub mod entries;
