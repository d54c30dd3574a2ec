// What a trace prints.
ghost use Rattle.bits.specs.Bits.{whole};
ghost use Rattle.texts.specs.Puts.{Writes};
ghost use Rattle.tracing.specs.Texts.{word_line, rest_text, instant_text};

use bits::Bits;
use texts::Page;

// A word, and two numbers.
pub fn word_line(page: &mut Page, word: &[u8], a: u64, b: u64)
    ensures { Writes (word_line word.now a b) page.old page.new }
{
    page.bytes(word);
    page.row(&[a, b]);
    page.byte(b'\n');
}

// `R` at rest, or `-`.
#[tactic(auto, unfolding(crate::specs::Texts::rest_text))]
fn rest_mark(page: &mut Page, rest: bool)
    ensures { Writes (rest_text rest) page.old page.new }
{
    if rest {
        page.bytes(b" R\n");
    } else {
        page.bytes(b" -\n");
    }
}

// Instant, outputs, state, `R` or `-`.
pub fn instant_line(page: &mut Page, instant: u64, outputs: Bits, state: Bits, rest: bool)
    ensures { Writes (instant_text instant (whole outputs) (whole state) rest) page.old page.new }
{
    page.decimal(instant);
    page.byte(b' ');
    page.set(outputs);
    page.byte(b' ');
    page.set(state);
    rest_mark(page, rest);
}
