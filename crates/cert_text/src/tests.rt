//! Certificates and their texts.

mod faults;
mod printing;
mod reading;
