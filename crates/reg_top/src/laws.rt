//! Laws of words and outputs. The functions do nothing: their contracts are the laws.

ghost use Rattle.reg_top.specs.Laws.{OneCommand, LoneWordsTellOutput};

/// A command line is of the form of one command at most, and a `run` asks for one plan.
pub fn a_command_line_has_one_command()
    ensures { OneCommand }
{}

/// Where each round has one session, the words and files of a run have one output.
pub fn words_of_lone_sessions_have_one_output()
    ensures { LoneWordsTellOutput }
{}
