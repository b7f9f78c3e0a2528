ghost use Rattle.std.specs.Prelude.{◌≡◌, ◌<◌, ◌≤◌, ◌+◌, ◌^◌, [], ◌∷◌, ◌++◌, ◌↔◌, ℕ, List, IsTrue, slice_set};
ghost use Rattle.std.specs.List.{AllPass};
ghost use Rattle.iscc_header.specs.Bits.{bits_of};
ghost use Rattle.iscc_text.specs.inner.Letters.{digit as digit_of};
ghost use Rattle.iscc_text.specs.Texts.{is_allowed};
ghost use Rattle.iscc_text.specs.inner.Gathering.{Gathers, letter_bits};

/// How many bytes are kept: one more than the longest ISCC has, so that what is longer is still too long.
pub(crate) const KEPT: usize = 43;

/// Bits that become bytes: the first of these bytes, the number of all, and the bits behind the last one.
#[derive(Drop)]
pub(crate) struct Gathered {
    pub kept: [u8; KEPT],
    pub count: usize,
    pub width: u32,
    pub pending: u32,
}

/// The bytes that letters give. Hyphens give none.
pub(crate) fn gather(letters: &[u8]) -> Gathered
    requires { AllPass is_allowed letters.now }
    ensures { Gathers result (letter_bits letters.now) }
{
    let mut bits = Gathered {
        kept: [0; KEPT],
        count: 0,
        width: 0,
        pending: 0,
    };
    for byte in letters {
        add(&mut bits, *byte);
    }
    bits
}

/// The bits are those of whole bytes: no letter is more than these need, and no bit behind them is 1.
pub(crate) fn is_whole(bits: &Gathered) -> bool
    ensures { IsTrue result ↔ ((bits.now.width < 5) × (bits.now.pending ≡ 0)) }
{
    bits.width < 5 && bits.pending == 0
}

// A hyphen gives no bits.
fn add(bits: &mut Gathered, byte: u8)
    requires narrow { bits.old.width < 8 }
    requires fits { bits.old.pending < 2 ^ bits.old.width }
    requires room { bits.old.count + 1 < 2 ^ 64 }
    ensures gathers { (all : List ℕ) → Gathers bits.old all → Gathers bits.new (all ++ letter_bits (byte ∷ [])) }
    ensures count { bits.new.count ≤ bits.old.count + 1 }
{
    if byte == b'-' {
        return;
    }
    push(bits, digit(byte.to_ascii_uppercase()));
}

/// The five bits of a capital letter, and some five bits of any other byte.
pub(crate) fn digit(byte: u8) -> u8
    ensures value { result ≡ digit_of byte }
    ensures range { result < 32 }
{
    if byte < b'A' {
        (byte + 8) % 32
    } else {
        (byte - b'A') % 32
    }
}

fn push(bits: &mut Gathered, digit: u8)
    requires digit { digit < 32 }
    requires narrow { bits.old.width < 8 }
    requires fits { bits.old.pending < 2 ^ bits.old.width }
    requires room { bits.old.count + 1 < 2 ^ 64 }
    ensures gathers { (all : List ℕ) → Gathers bits.old all → Gathers bits.new (all ++ bits_of 5 digit) }
    ensures count { bits.new.count ≤ bits.old.count + 1 }
{
    let pending = bits.pending * 32 + digit as u32;
    if bits.width < 3 {
        bits.pending = pending;
        bits.width += 5;
        return;
    }
    let width = bits.width - 3;
    keep(&mut bits.kept, bits.count, (pending >> width) as u8);
    bits.count += 1;
    bits.width = width;
    bits.pending = pending % (1 << width);
}

// Keeps a byte, where it is one of the first.
fn keep(kept: &mut [u8; KEPT], at: usize, byte: u8)
    ensures { kept.new ≡ slice_set kept.old at byte }
{
    if at < KEPT {
        kept[at] = byte;
    }
}
