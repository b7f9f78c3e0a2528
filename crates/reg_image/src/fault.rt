use iscc_header::NoMemory;

/// Why bytes are no image: the first of these, in the order in which they are asked.
#[derive(Clone, Copy, Debug, PartialEq, Eq)]
pub enum ImageWhy {
    /// There are fewer bytes than an image has, or than one with this count has.
    Short,
    /// They begin with another word.
    Magic,
    /// Another version than 1.
    Version,
    /// A declaration is of no kind.
    Kind,
    /// An id isn't above the one before it.
    Order,
    /// The base, the count or an id is out of range.
    Range,
    /// The hash is another one.
    Sum,
    /// There are bytes behind the hash.
    Trailing,
}

/// The place of the first fault, in bytes from the beginning, and why.
#[derive(Clone, Copy, Debug, PartialEq, Eq)]
pub struct ImageFault {
    pub at: u64,
    pub why: ImageWhy,
}

/// Why an image isn't read.
#[derive(Clone, Copy, Debug, PartialEq, Eq)]
pub enum ImageRefusal {
    /// The bytes are no image.
    Fault(ImageFault),
    /// Memory is wanting, whatever the bytes are.
    NoMemory,
}

impl From<NoMemory> for ImageRefusal {
    ghost use Rattle.std.specs.Prelude.{◌≡◌};
    ghost use Rattle.reg_image.specs.declared.fault.ImageRefusal.TheVariants.{NoMemory as refusal_no_memory};

    ghost from_gives = { λ _ e. e ≡ refusal_no_memory };

    fn from(_: NoMemory) -> ImageRefusal {
        ImageRefusal::NoMemory
    }
}
