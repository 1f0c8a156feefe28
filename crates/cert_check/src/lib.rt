//! A checker of certificates that trusts no search: it accepts exactly what shows that a drawing is
//! the best one of its shape, and names the first fault of anything else.
#![tactic(auto)]

mod answer;
mod bounds;
mod checking;
mod cycles;
mod earlier;
mod fault;
mod law;
mod loads;
mod sides;
#[cfg(test)]
mod tests;
mod walk;

pub use checking::check_cert;
pub use fault::CheckFault;
pub use law::certificates_have_one_answer;
