ghost use Rattle.std.specs.Prelude.{◌≡◌, ◌++◌, ℕ, List};
ghost use Rattle.iscc_header.specs.Headers.{IsEncodable, EncodesNumber, Numbers, EncodesHeader};

/// Every number up to `NUMBER_MOST` has one encoding.
pub fn each_number_has_one_encoding()
    ensures { (n : ℕ) → IsEncodable n → (bits : List ℕ) × EncodesNumber bits n
        × ((other : List ℕ) → EncodesNumber other n → other ≡ bits) }
{}

/// No encoding of a number begins another, so a list of bits begins with at most one.
pub fn no_encoding_begins_another()
    ensures { (m n : ℕ) (a b x y : List ℕ) → EncodesNumber a m → EncodesNumber b n → a ++ x ≡ b ++ y → (m ≡ n) × (a ≡ b) }
{}

/// No encoding of a header begins another, so what was written is read again, whatever follows it.
pub fn no_header_begins_another()
    ensures { (g h : Numbers) (a b x y : List ℕ) → EncodesHeader g a → EncodesHeader h b → a ++ x ≡ b ++ y → (g ≡ h) × (a ≡ b) }
{}
