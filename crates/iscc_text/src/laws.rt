ghost use Rattle.iscc_text.specs.Laws.{TextTellsIscc, PrintedTextStands, IsccTellsText, UnitTextIsPrinted, TextTellsUnit};

/// A text stands for one ISCC at most.
pub fn each_text_stands_for_one_iscc()
    ensures { TextTellsIscc }
{}

/// What is printed of an ISCC stands for it, and so is read back.
pub fn a_printed_text_stands_for_its_iscc()
    ensures { PrintedTextStands }
{}

/// An ISCC has one printed text.
pub fn each_iscc_has_one_printed_text()
    ensures { IsccTellsText }
{}

/// The text of a unit of 64 bits is the printed one of the ISCC that is this unit.
pub fn a_unit_text_is_printed()
    ensures { UnitTextIsPrinted }
{}

/// The printed text of a unit of 64 bits is that of no other.
pub fn a_printed_text_is_of_one_unit()
    ensures { TextTellsUnit }
{}
