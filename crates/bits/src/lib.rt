// Sets of small numbers. `Bits` holds signals or halts, in so many words; a set of codes fits one word, and has functions of its own. No other crate opens a
// word of a set of signals or halts.
#![tactic(auto)]

ghost use Rattle.std.specs.Prelude.{◌≡◌, ◌||◌, ◌&&◌, ℕ, ◌+◌, ◌*◌, ◌/◌, ◌%◌, ◌^◌, ◌<◌, ◌≤◌, eqb, ltb, length, take, drop};
ghost use Rattle.std.proofs.lemmas.List.Edits.{sets};
ghost use Rattle.bits.specs.Bits.{has, signal_bit, halt_bit, none_from, no_bits, words, width, whole_in, whole, words_of, is_whole};
ghost use Rattle.bits.specs.Code.{SameAt};

use number::{HaltNo, SignalNo};

// The set with nothing in it, in one word.
pub const EMPTY: u64 = 0;

// Whether k is in w.
pub fn member(w: u64, k: u32) -> bool
    ensures { result ≡ has w k }
{
    k < 64 && (w >> k) % 2 == 1
}

// w and k.
pub fn add(w: u64, k: u32) -> u64
    requires { k < 64 }
    ensures { (j : ℕ) → has result j ≡ (has w j || eqb j k) }
{
    w | (1u64 << k)
}

// What is in a or in b.
pub fn join(a: u64, b: u64) -> u64
    ensures { (j : ℕ) → has result j ≡ (has a j || has b j) }
{
    a | b
}

// The numbers below n, of those that a word has.
fn below(n: u32) -> u64
    ensures { (j : ℕ) → j < 64 → has result j ≡ ltb j n }
{
    if 64 <= n {
        return u64::MAX;
    }
    (1u64 << n) - 1
}

// Whether w has nothing from k on.
fn none_from(w: u64, k: u32) -> bool
    ensures { result ≡ none_from k w }
{
    64 <= k || w >> k == 0
}

// Whether none of the `count` numbers from `from` on is in w.
fn none_in(w: u64, from: u32, count: u32) -> bool
    requires { from + count ≤ 64 }
    ensures { result ≡ no_bits count from (has w) }
{
    count <= u64::trailing_zeros(w >> (from % 64))
}

// Whether a and b are the same at what is in w.
fn same_at(w: u64, a: u64, b: u64) -> bool
    ensures { SameAt 64 w a b result }
{
    a & w == b & w
}

// "signal s at bit s".
pub fn signal_bit(s: SignalNo) -> u32
    ensures { result ≡ signal_bit s }
{
    s.number() as u32
}

// "Signal 0 is tick".
pub const TICK: u32 = 0;

// "bit 0 boot, bit 1+h halt h".
pub const BOOT: u32 = 0;

pub fn halt_bit(h: HaltNo) -> u32
    ensures { result ≡ halt_bit h }
{
    1 + (h.number() as u32)
}

// How many words a set of signals or of halts has.
pub const WORDS: usize = 1;

pub const WIDTH: u32 = 64 * WORDS as u32;

// How many sets a slice has in whole.
pub fn count(column: &[u64]) -> usize
    ensures { result ≡ length column.now / words }
{
    column.len() / WORDS
}

// Whether it has no part of another behind them.
pub fn is_whole(column: &[u64]) -> bool
    ensures { result ≡ is_whole column.now }
{
    column.len() % WORDS == 0
}

// A set of signals or of halts, in words, the lowest first.
#[repr(C)]
#[derive(Clone, Copy, Debug, PartialEq, Eq)]
pub struct Bits {
    words: [u64; WORDS],
}

impl Bits {
    // The set with nothing in it.
    pub fn empty() -> Bits
        ensures { whole result ≡ 0 }
    {
        Bits {
            words: [0u64; WORDS],
        }
    }

    // The set in one word.
    pub fn of_word(w: u64) -> Bits
        ensures { whole result ≡ w }
    {
        let mut words = [0u64; WORDS];
        words[0] = w;
        Bits { words }
    }

    // What the lowest word has of it.
    pub fn low_word(self) -> u64
        ensures { result ≡ whole self % 2 ^ 64 }
    {
        let words = self.words;
        words[0]
    }

    // Whether k is in it.
    pub fn member(self, k: u32) -> bool
        ensures { result ≡ has (whole self) k }
    {
        let at = (k / 64) as usize;
        at < WORDS && member(self.words[at], k % 64)
    }

    // It and k. The first test never holds, and it tells the compiler which word is meant where there is one.
    pub fn add(self, k: u32) -> Bits
        requires { k < width }
        ensures { (j : ℕ) → has (whole result) j ≡ (has (whole self) j || eqb j k) }
    {
        let at = (k / 64) as usize;
        if WORDS <= at {
            return self;
        }
        let mut words = self.words;
        words[at] = add(words[at], k % 64);
        Bits { words }
    }

    // What is in either.
    pub fn join(self, other: Bits) -> Bits
        ensures { (j : ℕ) → has (whole result) j ≡ (has (whole self) j || has (whole other) j) }
    {
        let mine = self.words;
        let others = other.words;
        let mut words = [0u64; WORDS];
        for (i, word) in words.iter_mut().enumerate() {
            *word = mine[i] | others[i];
        }
        Bits { words }
    }

    // What is in both. It has a loop of its own beside `join`: one loop with the operator handed in would need a longer contract than both.
    pub fn meet(self, other: Bits) -> Bits
        ensures { (j : ℕ) → has (whole result) j ≡ (has (whole self) j && has (whole other) j) }
    {
        let mine = self.words;
        let others = other.words;
        let mut words = [0u64; WORDS];
        for (i, word) in words.iter_mut().enumerate() {
            *word = mine[i] & others[i];
        }
        Bits { words }
    }

    // The numbers below n.
    pub fn below(n: u32) -> Bits
        requires { n ≤ width }
        ensures { (j : ℕ) → has (whole result) j ≡ ltb j n }
    {
        let mut words = [0u64; WORDS];
        for (i, word) in words.iter_mut().enumerate() {
            *word = below(n.saturating_sub(64 * i as u32));
        }
        Bits { words }
    }

    // Whether it has nothing from k on.
    pub fn none_from(self, k: u32) -> bool
        ensures { result ≡ none_from k (whole self) }
    {
        for (i, word) in self.words.iter().enumerate() {
            if !none_from(*word, k.saturating_sub(64 * i as u32)) {
                return false;
            }
        }
        true
    }

    // Whether none of the `count` numbers from `from` on is in it, word by word.
    fn none_across(self, from: u32, count: u32) -> bool
        requires { from + count ≤ width }
        ensures { result ≡ no_bits count from (has (whole self)) }
    {
        for (i, word) in self.words.iter().enumerate() {
            let base = 64 * i as u32;
            let first = from.saturating_sub(base).min(64);
            let past = (from + count).saturating_sub(base).min(64);
            if !none_in(*word, first, past - first) {
                return false;
            }
        }
        true
    }

    // Whether none of the `count` numbers from `from` on is in it. Where all of them are in the lowest word, that one alone is asked.
    pub fn none_in(self, from: u32, count: u32) -> bool
        requires { from + count ≤ width }
        ensures { result ≡ no_bits count from (has (whole self)) }
    {
        if 64 < from + count {
            return self.none_across(from, count);
        }
        let words = self.words;
        none_in(words[0], from, count)
    }

    // Whether a and b are the same at what is in it.
    pub fn same_at(self, a: Bits, b: Bits) -> bool
        ensures { SameAt width (whole self) (whole a) (whole b) result }
    {
        let first = a.words;
        let second = b.words;
        for (i, word) in self.words.iter().enumerate() {
            if !same_at(*word, first[i], second[i]) {
                return false;
            }
        }
        true
    }

    // The set at place n of a slice of sets.
    pub fn read(column: &[u64], n: usize) -> Bits
        requires { n * words + words ≤ length column.now }
        ensures { whole result ≡ whole_in (take words (drop (n * words) column.now)) }
    {
        let mut words = [0u64; WORDS];
        words.copy_from_slice(&column[n * WORDS..(n + 1) * WORDS]);
        Bits { words }
    }

    // It becomes the set at place n of a slice of sets.
    pub fn write(self, column: &mut [u64], n: usize)
        requires { n * words + words ≤ length column.old }
        ensures { column.new ≡ sets column.old (n * words) (words_of words (whole self)) }
    {
        column[n * WORDS..(n + 1) * WORDS].copy_from_slice(&self.words);
    }
}
