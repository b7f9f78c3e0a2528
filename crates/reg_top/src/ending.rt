ghost use Rattle.std.specs.Prelude.{◌≡◌, MatchResult};
ghost use Rattle.reg_top.specs.inner.Endings.{ending_number, unread_number};

use crate::refusal::Refusal;
use reg_session::{Failed, FetchFault};

/// How a command ended whose words are of its form.
#[derive(Clone, Copy, Debug, PartialEq, Eq)]
pub enum Ending {
    /// All is done, and the whole output is written.
    Done,
    /// A file gave no bytes, and this is why.
    Unread(FetchFault),
    /// What the command is given is refused.
    Refused(Refusal),
    /// The output couldn't be written whole.
    Unwritten,
    /// The image that is to be saved couldn't be put under its name.
    Unsaved,
    /// Memory is wanting.
    NoMemory,
}

/// Why a command makes no output of what it is given.
#[derive(Clone, Copy, Debug, PartialEq, Eq)]
pub enum Declined {
    /// It is refused, and this is why.
    Refused(Refusal),
    /// Memory is wanting.
    NoMemory,
}

/// The status of words that are of no form.
pub(crate) const WORDS: u8 = 2;

impl Ending {
    /// The status with which the program ends.
    pub(crate) fn number(self) -> u8
        ensures { result ≡ ending_number self }
    {
        match self {
            Ending::Done => 0,
            Ending::Unread(fault) => number_of(fault),
            Ending::Refused(refusal) => refusal.number(),
            Ending::Unwritten | Ending::Unsaved => 5,
            Ending::NoMemory => 6,
        }
    }
}

fn number_of(fault: FetchFault) -> u8
    ensures { result ≡ unread_number fault }
{
    match fault {
        FetchFault::Missing => 3,
        FetchFault::Failed => 4,
        FetchFault::TooLong => 7,
        FetchFault::NoMemory => 6,
    }
}

/// How a command ended that wrote its output.
pub(crate) fn written(done: Result<(), Failed>) -> Ending
    ensures { MatchResult done (λ _. result ≡ Ending.Done) (λ _. result ≡ Ending.Unwritten) }
{
    match done {
        Ok(()) => Ending::Done,
        Err(Failed) => Ending::Unwritten,
    }
}
