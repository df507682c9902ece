//! ELF files of MIPS I programs, and the images that they load.
#![tactic(auto)]

mod ends;
mod fault;
mod fields;
mod header;
mod image;
mod index;
mod loader;
mod mark;
mod reader;
mod records;
mod section;
mod sections;
mod segment;
mod symbol;
mod symbols;

pub use fault::{ElfFault, ElfKind};
pub use image::Image;
pub use index::last_start;
pub use mark::Mark;
pub use reader::read_image;
pub use segment::{Segment, Start};
pub use symbol::Symbol;

#[cfg(test)]
mod tests;
