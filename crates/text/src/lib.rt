// What programs that read text share: standard input byte by byte, numbers digit by digit, and rows of things in room of a fixed size.

#![tactic(auto)]

mod digits;
pub mod input;
mod row;

pub use digits::Digits;
pub use row::Row;
