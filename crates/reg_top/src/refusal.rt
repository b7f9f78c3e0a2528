ghost use Rattle.std.specs.Prelude.{◌≡◌};
ghost use Rattle.reg_top.specs.FaultLines.{refusal_number};

use iscc_code::ComposeFault;
use iscc_text::TextFault;
use reg_history::CheckFault;
use reg_image::ImageFault;

/// Why a word that is to be composed stands for no unit.
#[derive(Clone, Copy, Debug, PartialEq, Eq)]
pub enum WordFault {
    /// It stands for no ISCC.
    Text(TextFault),
    /// It stands for an ISCC-CODE, which has several units.
    NotUnit,
}

/// Why a command refuses what it is given.
#[derive(Clone, Copy, Debug, PartialEq, Eq)]
pub enum Refusal {
    /// The text to be explained stands for no ISCC.
    Text(TextFault),
    /// This word to be composed, counted from 0, is the first that stands for no unit.
    Word { at: usize, why: WordFault },
    /// The units have no composite.
    Units(ComposeFault),
    /// No line of the file begins a history.
    NoHistory,
    /// This line of the history in the file, counted from 1, is the first that can't stand.
    Line(CheckFault),
    /// The file to load has no image, and this is its first fault.
    Image(ImageFault),
    /// More declarations are live than the round with this number has entries.
    TooSmall { round: u64, live: u64, entries: u32 },
    /// The last id of the round with this number would be 2^34 or more.
    IdsSpent { round: u64, base: u64, log: u32 },
}

impl Refusal {
    /// The status of a refusal.
    pub(crate) fn number(self) -> u8
        ensures { result ≡ refusal_number self }
    {
        match self {
            Refusal::Text(_) => 10,
            Refusal::Word { .. } => 10,
            Refusal::Units(_) => 10,
            Refusal::NoHistory => 10,
            Refusal::Line(_) => 10,
            Refusal::Image(_) => 9,
            Refusal::TooSmall { .. } => 8,
            Refusal::IdsSpent { .. } => 11,
        }
    }
}
