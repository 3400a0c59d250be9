// Numbers of eight bytes as u64 and back, i64 in two's complement: nothing is lost either way.
ghost use Rattle.std.specs.Prelude.{◌≡◌, ℕ, ◌^◌, ◌<◌};
ghost use Rattle.std.specs.Int.{w64, cast_signed, cast_unsigned};
ghost use Rattle.whole.specs.Bits.{Signed64, BitsAre, SignedBack, BitsBack, WordLaws};
ghost use Rattle.whole.specs.Words.{signed_word, unsigned_word};

pub trait Word: Copy {
    // A number's bits, the number that has some bits, and which numbers there are.
    ghost bits: { Self → ℕ };

    ghost of_bits: { ℕ → Self };

    ghost fits: { Self → Type 0 };

    fn to_bits(self) -> u64
        ensures { result ≡ bits self };

    fn from_bits(b: u64) -> Self
        ensures { result ≡ of_bits b };

    // Nothing is lost either way.
    ghost laws: { WordLaws bits of_bits fits };
}

impl Word for u64 {
    ghost bits = { λ x. x };

    ghost of_bits = { λ b. b };

    ghost fits = { λ x. x < 2 ^ 64 };

    fn to_bits(self) -> u64 {
        self
    }

    fn from_bits(b: u64) -> u64 {
        b
    }

    ghost laws = { unsigned_word };
}

impl Word for i64 {
    ghost bits = { cast_unsigned w64 };

    ghost of_bits = { cast_signed w64 };

    ghost fits = { Signed64 };

    fn to_bits(self) -> u64 {
        self.cast_unsigned()
    }

    fn from_bits(b: u64) -> i64 {
        b.cast_signed()
    }

    ghost laws = { signed_word };
}

// What the bits of a number are, and that either way is undone by the other.
pub fn bits_stand()
    ensures are { BitsAre }
    ensures signed { SignedBack }
    ensures unsigned { BitsBack }
{}
