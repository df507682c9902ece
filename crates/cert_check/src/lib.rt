//! The text of a certificate, printed and read; and the check of a certificate.
#![tactic(auto)]

mod checking;
mod draft;
mod fault;
mod leaves;
mod line;
mod lines;
mod numbers;
mod order;
mod reading;
mod reject;
mod rising;
mod scratch;
#[cfg(test)]
mod tests;
mod walking;
mod weights;
mod words;
mod writing;

pub use checking::check;
pub use fault::CertFault;
pub use line::Line;
pub use reading::read_certificate;
pub use reject::{Reason, Reject};
pub use scratch::Scratch;
pub use writing::print_certificate;
