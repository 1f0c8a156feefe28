//! The laws of certificates, and of their texts.

mod certificates;
mod texts;

pub use certificates::{accepted_is_best, made_is_best, shallower, whole_trees_are_shallow};
pub use texts::{certificates_are_comments, printed_certificates_are_read, texts_have_one_answer};
