//! Symbols: names of addresses.

use wcet_io::List;

/// A name of a file's symbol table, with its value.
#[derive(Debug, Drop)]
pub struct Symbol {
    /// The bytes of the name, without the zero byte behind them.
    pub name: List<u8>,
    /// What it stands for, mostly an address.
    pub value: u32,
}
