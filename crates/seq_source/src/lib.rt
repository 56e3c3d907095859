//! One line of a source: where it is cut, and what it says.
#![tactic(auto)]

mod cutting;
mod directives;
mod instructions;
mod items;
mod names;
mod numbers;
mod operands;
mod reading;

pub use cutting::{Line, cut_line};
pub use directives::Directive;
pub use instructions::{branch_offset_of, jump_offset_of};
pub use items::{Item, Said};
pub use reading::{last_operand, read_words};

#[cfg(test)]
mod tests;
