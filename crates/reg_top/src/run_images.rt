//! The image with which a run begins, and that of what it leaves.

ghost use Rattle.std.specs.Prelude.{◌≡◌, ◌≤◌, length, IfOk, IfErr};
ghost use Rattle.std.specs.Option.{option_map};
ghost use Rattle.reg_image.specs.declared.image.TheConstants.{DECLARED_MOST};
ghost use Rattle.reg_top.specs.inner.RunImages.{OpensWith, DeclinesImage, SavesAs};

use crate::ending::Declined;
use crate::refusal::Refusal;
use crate::run_words::RunPlan;
use iscc_header::NoMemory;
use reg_image::{ImageRefusal, read_image, write_image};
use reg_model::Carried;
use std::alloc::Global;

/// What a run begins with: what the image is of, or nothing where none is loaded.
pub(crate) fn opening_of(alloc: Global, image: &Option<Vec<u8>>) -> Result<Carried, Declined>
    ensures opens { IfOk result (OpensWith (option_map (λ bytes. bytes.items) image.now)) }
    ensures why { IfErr result (DeclinesImage (option_map (λ bytes. bytes.items) image.now)) }
{
    match image {
        None => Ok(Carried::new(alloc, 0)),
        Some(bytes) => match read_image(alloc, bytes.as_slice()) {
            Ok(carried) => Ok(carried),
            Err(ImageRefusal::Fault(fault)) => Err(Declined::Refused(Refusal::Image(fault))),
            Err(ImageRefusal::NoMemory) => Err(Declined::NoMemory),
        },
    }
}

/// The image of what is left, where one is to be saved.
pub(crate) fn image_left(
    alloc: Global,
    plan: &RunPlan<'_>,
    left: &Carried,
) -> Result<Option<Vec<u8>>, NoMemory>
    requires { length left.now.list ≤ DECLARED_MOST }
    ensures { IfOk result (λ image. SavesAs plan.now.save left.now (option_map (λ bytes. bytes.items) image)) }
{
    match plan.save() {
        None => Ok(None),
        Some(_) => Ok(Some(write_image(alloc, left)?)),
    }
}
