//! The parts of an ISCC below its texts and bodies: the nibbles of a number, headers, MainTypes, kinds of
//! units, units of 64 bits, and the Hamming distance of two bodies (ISO 24138:2024).
//!
//! This is the lowest crate. It knows nothing of texts, of composites or of the registry: `iscc_code` reads
//! and writes whole ISCCs over its headers, `iscc_text` prints and reads them, and `reg_model` declares units
//! and searches them. `specs/` has the definitions that every crate above cites.
#![tactic(auto)]

mod hamming;
mod header;
mod items;
mod kind;
mod laws;
mod memory;
mod number;
mod unit;

pub use hamming::distance;
pub use header::{Header, HeaderFault, decode_header, encode_header};
pub use items::Items;
pub use kind::{Kind, MainType};
pub use laws::{
    each_number_has_one_encoding, no_encoding_begins_another, no_header_begins_another,
};
pub use memory::NoMemory;
pub use number::{NUMBER_MOST, NibbleFault, Nibbles, get_nibbles, put_nibbles};
pub use unit::Unit64;

#[cfg(test)]
mod tests;
