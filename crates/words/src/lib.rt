// Holes counted by the word: eight bytes of packed marks are joined to one, and its ones counted.
#![tactic(auto)]

ghost use Rattle.std.specs.Prelude.{◌≡◌, ◌+◌, ◌*◌, ◌%◌, ◌^◌, ◌<◌, ◌≤◌, length, get_or};
ghost use Rattle.model.specs.Marks.{mark_bytes, row_holes, holes_in};
ghost use Rattle.words.specs.Words.{joined};

// Eight bytes joined to one word, low byte first: the compiler makes one load of them.
#[tactic(auto, unfolding(crate::specs::Words::joined, model::specs::Lists::sum_to))]
fn word_at(row: &[u8], j: usize) -> u64
    requires { j + 8 ≤ length row.now }
    ensures { result ≡ joined row.now j 8 }
{
    u64::from_le_bytes([
        row[j],
        row[j + 1],
        row[j + 2],
        row[j + 3],
        row[j + 4],
        row[j + 5],
        row[j + 6],
        row[j + 7],
    ])
}

// Up to eight bytes, n of them, joined likewise: what a row has past its whole words.
#[tactic(auto, unfolding(crate::specs::Words::joined, model::specs::Lists::sum_to))]
fn tail_at(row: &[u8], j: usize, n: usize) -> u64
    requires { (n ≤ 8) × (j + n ≤ length row.now) }
    ensures { result ≡ joined row.now j n }
{
    let mut v = 0u64;
    for k in 0..n {
        v += u64::from(row[j + k]) << (8 * k);
    }
    v
}

// The lowest bits of a word.
fn low_bits(word: u64, bits: usize) -> u64
    requires { bits < 64 }
    ensures { result ≡ word % 2 ^ bits }
{
    word % (1u64 << bits)
}

// The marks of 1 at the positions below w of a row: whole words, then the tail's bits below w.
#[tactic(auto, unfolding(model::specs::Marks::row_holes, model::specs::Lists::sum_to))]
pub fn row_holes(row: &[u8], w: usize) -> u32
    requires { (w ≤ 8 * length row.now) × (w ≤ 4096) }
    ensures { result ≡ row_holes row.now w }
{
    let words = w / 64;
    let mut n = 0u32;
    for k in 0..words {
        n += word_at(row, 8 * k).count_ones();
    }
    let bits = w % 64;
    let tail = tail_at(row, 8 * words, bits.div_ceil(8));
    n + low_bits(tail, bits).count_ones()
}

// The marks of 1 at the positions below w of h rows. It stays a function of its own: taken into the exported one, its loops keep less in
// registers.
#[inline(never)]
#[tactic(auto, unfolding(model::specs::Marks::holes_in, model::specs::Lists::sum_to))]
pub fn holes(marks: &[u8], w: usize, h: usize) -> u64
    requires { (w ≤ 4096) × ((h ≤ 4096) × (length marks.now ≡ mark_bytes w * h)) }
    ensures { result ≡ holes_in marks.now w h }
{
    // by index: rows of width 0 have no bytes to cut chunks of
    let bytes = w.div_ceil(8);
    let mut n = 0u64;
    for y in 0..h {
        let start = y * bytes;
        n += u64::from(row_holes(&marks[start..start + bytes], w));
    }
    n
}
