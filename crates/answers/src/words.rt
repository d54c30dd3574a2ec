// Words of a line, and those that are bytes.
ghost use Rattle.std.specs.Prelude.{◌≡◌, length, IfSome};
ghost use Rattle.io.specs.Counts.{IsPrefixLen};
ghost use Rattle.answers.specs.Words.{part_end, word_end};
ghost use Rattle.answers.specs.Questions.{room};
ghost use Rattle.answers.specs.Code.{Decodes};

// For no bytes, or no tables.
pub const NONE: &[u8] = b"-";

// Where the first word ends: at the first blank, or at the end.
pub fn word_end(line: &[u8]) -> usize
    ensures prefix_len { IsPrefixLen result line.now }
    ensures value { result ≡ word_end line.now }
{
    part_end(line, b' ')
}

// Where the first part ends: at the first such sign, or at the end.
pub fn part_end(text: &[u8], sign: u8) -> usize
    ensures prefix_len { IsPrefixLen result text.now }
    ensures value { result ≡ part_end sign text.now }
{
    text.iter().position(|b| *b == sign).unwrap_or(text.len())
}

// An even count of hex digits, or `-` for no bytes: how many bytes.
pub fn hex_bytes(text: &[u8], out: &mut [u8]) -> Option<usize>
    requires { length out.old ≡ room }
    ensures prefix_len { IfSome result (λ n. IsPrefixLen n out.new) }
    ensures decodes { Decodes text.now result out.new }
{
    if text == NONE {
        return Some(0);
    }
    if text.is_empty() {
        return None;
    }
    texts::hex_bytes(text, out)
}
