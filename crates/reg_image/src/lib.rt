//! The image of what a run leaves: one list of bytes, from which the next run goes on.
//!
//! It stands on `reg_model`, whose [`reg_model::Carried`] is what is written and read, and on `iscc_instance`, whose hasher
//! makes the sum. `reg_top` stands above: it loads an image before a run and saves one after it. `specs/Images.antt` has the
//! bytes, `specs/ImageFaults.antt` the first fault of bytes that are no image, and its place. `image` writes, `front` asks
//! what stands before the declarations, and the sum, and `read` reads the declarations.
#![tactic(auto)]

mod fault;
mod front;
mod image;
mod laws;
mod read;

pub use fault::{ImageFault, ImageRefusal, ImageWhy};
pub use image::{DECLARED_MOST, write_image};
pub use laws::{an_image_is_of_one_carried_list, bytes_are_an_image_or_have_a_first_fault};
pub use read::read_image;

#[cfg(test)]
mod tests;
