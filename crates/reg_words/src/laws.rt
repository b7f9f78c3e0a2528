//! Laws of words and areas. The functions do nothing: their contracts are the laws.

ghost use Rattle.std.specs.Prelude.{ℕ, List};
ghost use Rattle.reg_words.specs.Memory.{AreApart};
ghost use Rattle.reg_words.specs.Laws.{LogWordTellsRecord, LogWordIsNotZero, StampWordTellsStamp, OnlyUnbornIsZero, SweepWordTellsState, WriteChangesOneCell};

/// A word is the packing of one record of the log at most, and 0 of none.
pub fn a_log_word_is_of_one_record()
    ensures told { LogWordTellsRecord }
    ensures not_zero { LogWordIsNotZero }
{}

/// A word is the packing of one stamp at most, and 0 that of `Unborn`.
pub fn a_stamp_word_is_of_one_stamp()
    ensures told { StampWordTellsStamp }
    ensures zero { OnlyUnbornIsZero }
{}

/// A word is the packing of one state of the sweep at most.
pub fn a_sweep_word_is_of_one_state()
    ensures { SweepWordTellsState }
{}

/// Whatever the sizes of the areas: each cell is a word of its own, none is word 0, and all are below the number of words.
pub fn each_cell_is_a_word_of_its_own()
    ensures { (sizes : List ℕ) → AreApart sizes }
{}

/// A write to the word of a cell changes that cell, and no other.
pub fn a_write_changes_one_cell()
    ensures { WriteChangesOneCell }
{}
