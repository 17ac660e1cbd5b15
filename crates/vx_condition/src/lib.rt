//! Conditions on events: their grammar, and what they say. What transforms answer stands here too, since they go by
//! conditions.
#![tactic(auto)]

mod call;
mod comparison;
mod condition;
mod condition_fault;
mod conjunction;
mod dedupe_fields;
mod disjunction;
pub mod examples;
mod expected;
mod fixed_word;
mod frame;
mod frame_stack;
mod how;
mod literal;
mod mode;
mod openings;
mod operator;
mod parsing;
mod pattern;
mod predicate;
mod reader;
mod stop;
mod strategy;
mod term;
mod tokens;

pub use condition::{Condition, ConditionList};
pub use condition_fault::ConditionFault;
pub use dedupe_fields::{DedupeFields, PathList};
pub use how::How;
pub use parsing::parse;
pub use strategy::{Strategy, StrategyList};
