//! The analyser: from command words and the bytes of files to the printed bound.
#![tactic(auto)]

mod analysis;
mod answer;
mod certificate;
mod contents;
mod program;
mod refusal;
#[cfg(test)]
mod tests;
mod text;
mod top;
mod words;

pub use analysis::{Analysis, Refused, analyse_bytes};
pub use refusal::{ConfigKind, Refusal, RefusalKind, Spot};
pub use top::{Status, wcet_main};
