//! Laws of the texts. The functions do nothing: their contracts are the laws.

ghost use Rattle.reg_history.specs.Laws.{TextTellsRun, TextHasOneCheck};

/// The rounds of a history are told by its text: where it begins, its rows, and its sizes but for the bits of a bucket.
pub fn a_history_text_has_one_run()
    ensures { TextTellsRun }
{}

/// What a check says of a text is told by the text: it has at most one first fault, in one line and for one cause, and a
/// history has none: it has one number of rows and one of live declarations.
pub fn a_text_has_one_check()
    ensures { TextHasOneCheck }
{}
