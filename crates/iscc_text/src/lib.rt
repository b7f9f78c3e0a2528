//! Texts of ISCCs: the printed text, `ISCC:` and the base32 letters of header and body, and the lenient
//! reading of a text (ISO 24138:2024, canonical form; RFC 4648, section 6).
//!
//! It stands on `iscc_code`, whose bytes it prints and reads. Request lines, replies and histories of the
//! crates above are made of these texts. `specs/PrintedTexts.antt` has the printed text of an ISCC, `specs/Texts.antt`
//! what a text stands for and the fault of every other text, and `specs/UnitText.antt` the printed text of a unit
//! of 64 bits as a formula.
#![tactic(auto)]

mod explanation;
mod gather;
mod laws;
mod print;
mod read;

pub use explanation::explain;
pub use laws::{
    a_printed_text_is_of_one_unit, a_printed_text_stands_for_its_iscc, a_unit_text_is_printed,
    each_iscc_has_one_printed_text, each_text_stands_for_one_iscc,
};
pub use print::{print_iscc, print_unit};
pub use read::{TextFault, read_iscc, read_printed};

#[cfg(test)]
mod tests;
