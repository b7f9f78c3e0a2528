//! Laws of the definitions. The functions do nothing: their contracts are the laws.

ghost use Rattle.std.specs.Prelude.{◌≡◌, ℕ, List};
ghost use Rattle.iscc_code.specs.declared.iscc.Iscc.{Iscc as AnIscc};
ghost use Rattle.iscc_code.specs.Codes.{EncodesIscc};
ghost use Rattle.iscc_code.specs.Laws.{UnitsHaveOneComposite};

/// An ISCC has one encoding at most, and the other way round bytes encode one ISCC at most.
pub fn each_iscc_has_one_encoding()
    ensures encoding { (iscc : AnIscc) (a b : List ℕ) → EncodesIscc iscc a → EncodesIscc iscc b → a ≡ b }
    ensures iscc { (a b : AnIscc) (bytes : List ℕ) → EncodesIscc a bytes → EncodesIscc b bytes → a ≡ b }
{}

/// Units have one composite at most, and the order in which they are given makes no difference.
pub fn units_have_one_composite()
    ensures { UnitsHaveOneComposite }
{}
