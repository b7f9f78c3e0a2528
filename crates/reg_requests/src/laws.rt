//! A law of request files. The function does nothing: its contract is the law.

ghost use Rattle.reg_requests.specs.Laws.{FileTellsItems};

/// The calls and refusals of a request file are told by its bytes.
pub fn a_file_has_one_list_of_items()
    ensures { FileTellsItems }
{}
