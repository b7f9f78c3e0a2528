//! What single lines tell, and their texts both ways.

pub(crate) mod line;
pub(crate) mod print_line;
pub(crate) mod row_line;
pub(crate) mod told;
pub(crate) mod told_reply;
pub(crate) mod values;
