// What is written. No method has a `requires`: what has no room is left out, and the place past it is counted all the same.
ghost use Rattle.std.specs.Prelude.{◌≡◌, [], ◌∷◌, ◌<◌, ◌≤◌, take};
ghost use Rattle.bits.specs.Bits.{whole};
ghost use Rattle.io.specs.Digits.{hex_digit_ascii as glyph_of};
ghost use Rattle.texts.specs.Puts.{Writes};
ghost use Rattle.texts.specs.Written.{numeral_within, decimal, hex, in_hex, row};

use crate::Page;
use bits::Bits;

// The digit of a number below 16, in small letters.
fn glyph(d: u8) -> u8
    requires { d < 16 }
    ensures { result ≡ glyph_of d }
{
    if d < 10 { b'0' + d } else { b'a' - 10 + d }
}

impl Page<'_> {
    // What was written, from the buffer's start on, as far as there was room.
    pub fn text(&self) -> &[u8]
        ensures { result.now ≡ take self.now.at self.now.out.now }
    {
        let n = self.at.min(self.out.len());
        &self.out[..n]
    }

    pub fn byte(&mut self, b: u8)
        ensures { Writes (b ∷ []) self.old self.new }
    {
        if self.at < self.out.len() {
            self.out[self.at] = b;
        }
        self.at = self.at.saturating_add(1);
    }

    // Some bytes, as a fixed string.
    pub fn bytes(&mut self, text: &[u8])
        ensures { Writes text.now self.old self.new }
    {
        for b in text {
            self.byte(*b);
        }
    }

    // A number in a base, without leading zeros. In base 2 a word has 64 digits.
    fn numeral(&mut self, n: u64, base: u64)
        requires { (2 ≤ base) × (base ≤ 16) }
        ensures { Writes (numeral_within 63 base n) self.old self.new }
    {
        let mut digits = [0u8; 64];
        let mut i = 64;
        let mut rest = n;
        // How many digits there are shows only as they are made.
        while rest >= base {
            i -= 1;
            digits[i] = glyph((rest % base) as u8);
            rest /= base;
        }
        i -= 1;
        digits[i] = glyph(rest as u8);
        self.bytes(&digits[i..]);
    }

    pub fn decimal(&mut self, n: u64)
        ensures { Writes (decimal n) self.old self.new }
    {
        self.numeral(n, 10);
    }

    pub fn hex(&mut self, n: u64)
        ensures { Writes (hex n) self.old self.new }
    {
        self.numeral(n, 16);
    }

    // A set in hex: k is in it where bit k of the number is 1.
    pub fn set(&mut self, set: Bits)
        ensures { Writes (hex (whole set)) self.old self.new }
    {
        self.hex(set.low_word());
    }

    fn pair(&mut self, b: u8)
        ensures { Writes (in_hex (b ∷ [])) self.old self.new }
    {
        self.byte(glyph(b / 16));
        self.byte(glyph(b % 16));
    }

    // Bytes in hex, two digits each.
    pub fn hex_bytes(&mut self, bytes: &[u8])
        ensures { Writes (in_hex bytes.now) self.old self.new }
    {
        for b in bytes {
            self.pair(*b);
        }
    }

    // Numbers in decimal, one blank between two.
    pub fn row(&mut self, numbers: &[u64])
        ensures { Writes (row numbers.now) self.old self.new }
    {
        let mut sign: &[u8] = b"";
        for n in numbers {
            self.bytes(sign);
            self.decimal(*n);
            sign = b" ";
        }
    }
}
