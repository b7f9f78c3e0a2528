use iscc_header::NoMemory;

/// Why a line of a history can't stand: the first of these that applies to it.
#[derive(Clone, Copy, Debug, PartialEq, Eq)]
pub enum CheckWhy {
    /// It has no form that is allowed there.
    Form,
    /// The numbers of a carry line or of a round line can't stand.
    Round,
    /// The session isn't one of the round, or the number isn't the session's next.
    Session,
    /// The row isn't after the row before it.
    Order,
    /// The point isn't the base and the number of accepted rows, or is above the log's end.
    Point,
    /// The reply isn't the registry's at that point.
    Reply,
    /// The numbers of the end line are wrong, or the line stands after it, or it is missing.
    End,
}

/// The first line that can't stand, counted from 1, and why.
#[derive(Clone, Copy, Debug, PartialEq, Eq)]
pub struct CheckFault {
    pub line: u64,
    pub why: CheckWhy,
}

/// Why a text isn't accepted.
#[derive(Clone, Copy, Debug, PartialEq, Eq)]
pub enum CheckRefusal {
    /// A line can't stand: the text isn't that of a lawful history.
    Fault(CheckFault),
    /// Memory is wanting, whatever the text is.
    NoMemory,
}

impl From<NoMemory> for CheckRefusal {
    ghost use Rattle.std.specs.Prelude.{◌≡◌};
    ghost use Rattle.reg_history.specs.declared.check.fault.CheckRefusal.TheVariants.{NoMemory as refusal_no_memory};

    ghost from_gives = { λ _ e. e ≡ refusal_no_memory };

    fn from(_: NoMemory) -> CheckRefusal {
        CheckRefusal::NoMemory
    }
}

/// How many rows a history has, and how many declarations are live at its end.
#[derive(Clone, Copy, Debug, PartialEq, Eq)]
pub struct Summary {
    pub rows: u64,
    pub live: u64,
}
