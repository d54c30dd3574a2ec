// Digits that are read: bytes in hex, and numbers in hex and decimal.
ghost use Rattle.std.specs.Prelude.{◌/◌, ◌≤◌, ◌≡◌, length, IfSome};
ghost use Rattle.io.specs.Counts.{IsPrefixLen};
ghost use Rattle.texts.specs.Digits.{digit_of, value_of, set_digits, SetIs};
ghost use Rattle.texts.specs.Bytes.{byte_of, Paired, Unhexed};

use bits::Bits;

// What a byte is worth as a digit, of either case. A byte that is none is worth 16, so that the one test of a digit against its base refuses it too; what
// `value_of` promises at any base rests on that number.
#[tactic(auto, unfolding(crate::specs::Digits::digit_of))]
fn digit(b: u8) -> u8
    ensures { (result ≡ digit_of b) × (result ≤ 16) }
{
    match b {
        b'0'..=b'9' => b - b'0',
        b'A'..=b'F' => b - b'A' + 10,
        b'a'..=b'f' => b - b'a' + 10,
        _ => 16,
    }
}

// The byte of two digits.
#[tactic(auto, unfolding(crate::specs::Bytes::byte_of))]
fn byte_of(high: u8, low: u8) -> Option<u8>
    ensures { result ≡ byte_of high low }
{
    let h = digit(high);
    let l = digit(low);
    if h < 16 && l < 16 {
        Some(16 * h + l)
    } else {
        None
    }
}

// The bytes of a text, up to the first two digits that are none, and how many they are.
fn pairs(text: &[u8], out: &mut [u8]) -> usize
    requires { length text.now / 2 ≤ length out.old }
    ensures { Paired text.now result out.old out.new }
{
    let count = text.len() / 2;
    for i in 0..count {
        let Some(b) = byte_of(text[2 * i], text[2 * i + 1]) else {
            return i;
        };
        out[i] = b;
    }
    count
}

// An even count of hex digits as bytes, where there is room for them: how many bytes.
pub fn hex_bytes(text: &[u8], out: &mut [u8]) -> Option<usize>
    ensures prefix_len { IfSome result (λ n. IsPrefixLen n out.new) }
    ensures unhexed { Unhexed text.now result out.old out.new }
{
    if out.len() < text.len() / 2 {
        return None;
    }
    let n = pairs(text, out);
    if 2 * n == text.len() { Some(n) } else { None }
}

// Digits of a base, at least one and at most so many. A number that no word holds is read as the largest.
pub fn value_of(text: &[u8], base: u64, most: usize) -> Option<u64>
    ensures { result ≡ value_of base most text.now }
{
    if text.is_empty() || most < text.len() {
        return None;
    }
    let mut value: u64 = 0;
    for b in text {
        let d = u64::from(digit(*b));
        if d >= base {
            return None;
        }
        value = value.saturating_mul(base).saturating_add(d);
    }
    Some(value)
}

// A word: 1 to 16 hex digits.
pub fn hex_value(text: &[u8]) -> Option<u64>
    ensures { result ≡ value_of 16 16 text.now }
{
    value_of(text, 16, 16)
}

// A state or an event: 1 to 16 hex digits a word.
pub fn set_value(text: &[u8]) -> Option<Bits>
    ensures { SetIs (value_of 16 set_digits text.now) result }
{
    let n = hex_value(text)?;
    Some(Bits::of_word(n))
}

// A length: 1 to 20 decimal digits.
pub fn decimal_value(text: &[u8]) -> Option<u64>
    ensures { result ≡ value_of 10 20 text.now }
{
    value_of(text, 10, 20)
}
