//! Laws of this crate's definitions, each carried by the contract of a function that does nothing.

ghost use Rattle.mips_decode.specs.Units.{UnitsGrow};

/// A run that goes on by a state has one unit more at its end: that of the state at which it stopped.
pub fn units_grow()
    ensures grows { UnitsGrow }
{}
