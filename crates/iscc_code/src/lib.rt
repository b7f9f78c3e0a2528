//! Whole ISCCs as bytes: units of every width and ISCC-CODEs of several units, their reading and writing, and the
//! composing of units (ISO 24138:2024).
//!
//! It stands on `iscc_header`, whose headers and kinds it puts before bodies. `iscc_text` prints and reads
//! them as texts. `specs/Codes.antt` has the one encoding of an ISCC as bytes, and the fault of every other list of
//! bytes, `specs/Composites.antt` the units of an ISCC-CODE and the composite of given units.
#![tactic(auto)]

mod code;
mod composing;
mod iscc;
mod laws;
mod unit;

pub use code::Code;
pub use composing::{ComposeFault, compose};
pub use iscc::{Iscc, IsccFault, decode, encode};
pub use laws::{each_iscc_has_one_encoding, units_have_one_composite};
pub use unit::Unit;

#[cfg(test)]
mod tests;
