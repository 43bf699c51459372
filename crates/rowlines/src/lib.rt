// The lines that the row printer prints: decimal numbers, a header, and a line for each position.
#![tactic(auto)]

ghost use Rattle.std.specs.Prelude.{◌≡◌, [], ◌∷◌, ◌++◌, ◌+◌, ◌≤◌, ◌<◌, length};
ghost use Rattle.model.specs.Lists.{rows};
ghost use Rattle.rowtext.specs.Format.{decimal, text_line, digit as Format·digit};
ghost use Rattle.rowlines.specs.Printed.{header_of};
ghost use Rattle.rowlines.specs.Steps.{Put, shown_line};

// Writes a byte and, as each of the following, answers where the next one goes.
fn put(out: &mut [u8], at: usize, b: u8) -> usize
    requires { at < length out.old }
    ensures { Put 1 out.old at (b ∷ []) out.new result }
{
    out[at] = b;
    at + 1
}

// The byte of a digit.
fn digit(d: usize) -> u8
    requires { d < 10 }
    ensures { result ≡ Format·digit d }
{
    b'0' + d as u8
}

// Writes a number: the digits before its last one, and that.
#[tactic(auto, using(crate::proofs::Puts::digits))]
fn put_number(out: &mut [u8], at: usize, n: usize) -> usize
    requires { at + length (decimal n) ≤ length out.old }
    ensures { Put (length (decimal n)) out.old at (decimal n) out.new result }
{
    if n < 10 {
        return put(out, at, digit(n));
    }
    let next = put_number(out, at, n / 10);
    put(out, next, digit(n % 10))
}

// Writes a number and the byte that ends it.
#[tactic(auto, using(rowtext::proofs::Lengths::length_5))]
fn put_field(out: &mut [u8], at: usize, n: usize, mark: u8) -> usize
    requires { (n < 65536) × (at + 6 ≤ length out.old) }
    ensures { Put 6 out.old at (decimal n ++ (mark ∷ [])) out.new result }
{
    let next = put_number(out, at, n);
    put(out, next, mark)
}

// Writes the line of position p.
#[tactic(auto, unfolding(rowtext::specs::Format::text_line, rowtext::specs::Format::spaced))]
fn put_position(out: &mut [u8], at: usize, p: usize, sample: u16, mark: u8, front: u8) -> usize
    requires { (p < 64) × (at + 24 ≤ length out.old) }
    ensures { Put 24 out.old at (text_line (p ∷ sample ∷ mark ∷ front ∷ [])) out.new result }
{
    let first = put_field(out, at, p, b' ');
    let second = put_field(out, first, usize::from(sample), b' ');
    let third = put_field(out, second, usize::from(mark), b' ');
    put_field(out, third, usize::from(front), b'\n')
}

// Writes a word or two at the start.
pub fn put_text(out: &mut [u8], text: &[u8]) -> usize
    requires { (length text.now ≤ 16) × (16 ≤ length out.old) }
    ensures { Put 16 out.old 0 text.now out.new result }
{
    out[..text.len()].copy_from_slice(text);
    text.len()
}

// Writes the header: the word row and w.
#[tactic(auto, unfolding(crate::specs::Printed::header_of, rowtext::specs::Format::text_line, rowtext::specs::Format::spaced))]
fn put_header(out: &mut [u8], w: usize) -> usize
    requires { (w ≤ 64) × (22 ≤ length out.old) }
    ensures { Put 22 out.old 0 (header_of w) out.new result }
{
    let next = put_text(out, b"row ");
    put_field(out, next, w, b'\n')
}

// Writes the header and a line for each position.
#[tactic(auto, unfolding(model::specs::Lists::rows, crate::specs::Steps::shown_line))]
pub fn put_row(out: &mut [u8], w: usize, samples: &[u16], marks: &[u8], fronts: &[u8]) -> usize
    requires w_bound { (w ≤ 64) × (2048 ≤ length out.old) }
    requires samples_len { (length samples.now ≡ 64) × (length marks.now ≡ 64) × (length fronts.now ≡ 64) }
    ensures { Put 2048 out.old 0 (header_of w ++ rows (shown_line samples.now marks.now fronts.now) w) out.new result }
{
    let mut at = put_header(out, w);
    for p in 0..w {
        at = put_position(out, at, p, samples[p], marks::mark_at(marks, p), fronts[p]);
    }
    at
}
