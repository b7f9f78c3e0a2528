//! Laws of images. The functions do nothing: their contracts are the laws.

ghost use Rattle.reg_image.specs.Laws.{ImageTellsOpening, ImageOrFault};

/// An image is of one base and one list of carried declarations.
pub fn an_image_is_of_one_carried_list()
    ensures { ImageTellsOpening }
{}

/// Bytes are an image exactly where they have no fault.
pub fn bytes_are_an_image_or_have_a_first_fault()
    ensures { ImageOrFault }
{}
