//! The commands, one file each: what is fetched, what is made of it, and how it ends.

pub(crate) mod check;
pub(crate) mod compose;
pub(crate) mod explain;
pub(crate) mod instance;
pub(crate) mod make;
pub(crate) mod run;
