use arrayvec::ArrayVec;
use iscc_header::Items;
use reg_model::Call;

/// Why a line is refused, in the order of the causes.
#[derive(Clone, Copy, Debug, PartialEq, Eq)]
pub enum BadLine {
    /// The first word is no command, or the number of words isn't the command's.
    Line,
    /// A text is that of no ISCC.
    Text,
    /// A text is that of a unit of 32 bits, which has no first 64 bits.
    Short,
    /// A word isn't a number of 1 to 20 decimal digits below 2^64.
    Number,
    /// A radius is above the greatest.
    Radius,
    /// A word isn't an even number of hexadecimal digits.
    Hex,
}

/// The calls of a line, in order: at most one for each unit of an ISCC.
pub(crate) type Calls = ArrayVec<Call, 5>;

/// What a line of a request file asks for. A line may ask for several calls, since an ISCC stands for each of its units.
#[derive(Debug, Drop, PartialEq)]
pub enum Line {
    /// Nothing: a line without words, or a comment.
    Skip,
    Bad(BadLine),
    /// These calls, in order.
    Calls(ArrayVec<Call, 5>),
}

/// A call of a request file, or a refused line.
#[derive(Clone, Copy, Debug, PartialEq, Eq)]
pub enum Item {
    Bad(BadLine),
    Call(Call),
}

/// The calls and refused lines of a request file, in its order.
pub type Requests = Items<Item>;
