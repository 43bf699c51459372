// The text that the row printer reads: three lines of decimal numbers, read from the left.
#![tactic(auto)]

ghost use Rattle.std.specs.Prelude.{◌≡◌, ℕ, ◌-◌, ◌≤◌, length, slice_index, replicate, MatchOption};
ghost use Rattle.rowtext.specs.Format.{nearest};
ghost use Rattle.rowtext.specs.Promise.{ReadPost};
ghost use Rattle.rowtext.specs.Reader.{
  got,
  nothing,
  digit_of,
  read_number,
  read_field,
  read_line,
  read_lines,
  mark_of,
  LinePost,
  RowPost,
};

// A number that was read, and the text after it.
#[derive(Drop)]
struct Number<'a> {
    value: u16,
    rest: &'a [u8],
}

// A line's numbers, 0 past them, and the text after it.
#[derive(Drop)]
struct Line<'a> {
    values: [u16; 64],
    rest: &'a [u8],
}

// A row that was read: the first w samples and depths, and 0 past them.
#[derive(Drop)]
pub struct Row {
    pub w: usize,
    pub samples: [u16; 64],
    pub depths: [u8; 64],
}

// The digit that a byte stands for.
#[tactic(auto, using(std::proofs::lemmas::Bool::Decides::nat_tests), unfolding(crate::specs::Reader::digit_of))]
fn digit_of(b: u8) -> Option<u16>
    ensures { result ≡ digit_of b }
{
    match b {
        b'0'..=b'9' => Some(u16::from(b - b'0')),
        _ => None,
    }
}

// The number that the text begins with, if it is at most `most`. Ten times that, and a digit, fit 16 bits.
#[tactic(auto, using(crate::proofs::Numbers::reading))]
fn read_number(text: &[u8], most: u16) -> Option<Number>
    requires { (9 ≤ most) × (most ≤ 6000) }
    ensures { MatchOption result (read_number most text.now ≡ nothing) (λ n. read_number most text.now ≡ got n.value n.rest.now) }
{
    let (first, mut rest) = text.split_first()?;
    let mut value = digit_of(*first)?;
    while let Some((b, after)) = rest.split_first() {
        let Some(digit) = digit_of(*b) else {
            break;
        };
        if value == 0 {
            return None;
        }
        value = 10 * value + digit;
        if most < value {
            return None;
        }
        rest = after;
    }
    Some(Number { value, rest })
}

// The number that the text begins with and the byte `mark` that ends it.
#[tactic(auto, using(std::proofs::lemmas::Bool::Decides::nat_tests), unfolding(crate::specs::Reader::read_field, crate::specs::Reader::read_mark))]
fn read_field(text: &[u8], most: u16, mark: u8) -> Option<Number>
    requires { (9 ≤ most) × (most ≤ 6000) }
    ensures { MatchOption result (read_field most mark text.now ≡ nothing) (λ n. read_field most mark text.now ≡ got n.value n.rest.now) }
{
    let number = read_number(text, most)?;
    let (end, rest) = number.rest.split_first()?;
    if *end == mark {
        Some(Number {
            value: number.value,
            rest,
        })
    } else {
        None
    }
}

// What ends a number with n more of its line to come: a space, or the newline.
fn mark_of(n: usize) -> u8
    ensures { result ≡ mark_of n }
{
    if n == 0 { b'\n' } else { b' ' }
}

// A line of w numbers, each 0 to `most`.
#[tactic(auto, using(crate::proofs::Lines::turns))]
fn read_line(text: &[u8], w: usize, most: u16) -> Option<Line>
    requires { (w ≤ 64) × (9 ≤ most) × (most ≤ 6000) }
    ensures { MatchOption result (read_line most w text.now ≡ nothing) (λ l. LinePost w (read_line most w text.now) l.values l.rest.now) }
{
    let mut values = [0; 64];
    let mut rest = text;
    for k in 0..w {
        let number = read_field(rest, most, mark_of(w - k - 1))?;
        values[k] = number.value;
        rest = number.rest;
    }
    Some(Line { values, rest })
}

// Depths as the bytes that hold them.
fn bytes(values: &[u16; 64]) -> [u8; 64]
    requires { (length values.now ≡ 64) × ((i : ℕ) → slice_index values.now i ≤ nearest) }
    ensures { result ≡ values.now }
{
    let mut narrowed = [0; 64];
    for (i, value) in values.iter().enumerate() {
        narrowed[i] = *value as u8;
    }
    narrowed
}

// The two lines after w, to the text's end.
#[tactic(auto, unfolding(crate::specs::Reader::read_lines, crate::specs::Reader::read_end))]
fn read_lines(text: &[u8], w: usize) -> Option<Row>
    requires { w ≤ 64 }
    ensures { MatchOption result (read_lines w text.now ≡ nothing) (λ r. RowPost (read_lines w text.now) r.w r.samples r.depths) }
{
    let first = read_line(text, w, 1023)?;
    let second = read_line(first.rest, w, 255)?;
    if !second.rest.is_empty() {
        return None;
    }
    let samples = first.values;
    let depths = second.values;
    Some(Row {
        w,
        samples,
        depths: bytes(&depths),
    })
}

// The row that a text is, if it is one.
#[tactic(auto, using(crate::proofs::Rows::not_read), unfolding(crate::specs::Reader::read_row))]
pub fn read_row(text: &[u8]) -> Option<Row>
    ensures { ReadPost text.now result }
{
    let width = read_field(text, 64, b'\n')?;
    if width.value == 0 {
        return None;
    }
    read_lines(width.rest, usize::from(width.value))
}
