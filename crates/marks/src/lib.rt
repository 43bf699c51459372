// Packed hole marks: read, set and packed.
#![tactic(auto)]

ghost use Rattle.std.specs.Prelude.{◌≡◌, ℕ, ◌+◌, ◌*◌, ◌%◌, ◌<◌, ◌≤◌, length, get_or};
ghost use Rattle.model.specs.Marks.{mark_bytes, mark_at, pack_row};
ghost use Rattle.marks.specs.Puts.{put_bit, set_mark, put_marks, held_pixel};

use model::Pixel;

// The mark at position p.
pub fn mark_at(row: &[u8], p: usize) -> u8
    requires { p < 8 * length row.now }
    ensures { result ≡ mark_at row.now p }
{
    (row[p / 8] >> (p % 8)) % 2
}

// What a view holds at entry i of a row: sample, as it is read, mark and front depth.
#[tactic(auto, unfolding(crate::specs::Puts::held_pixel))]
pub fn held_pixel(samples: &[u16], fronts: &[u8], marks: &[u8], i: usize) -> Pixel
    requires { (i < length samples.now) × ((i < length fronts.now) × (i < 8 * length marks.now)) }
    ensures { result ≡ held_pixel samples.now fronts.now marks.now i }
{
    Pixel {
        sample: model::sample_in(samples, i),
        mark: mark_at(marks, i),
        front: fronts[i],
    }
}

// A byte with v in its bit k.
fn put_bit(byte: u8, k: usize, v: u8) -> u8
    requires { (k < 8) × (v < 2) }
    ensures { result ≡ put_bit byte k v }
{
    let bit = 1u8 << k;
    byte - byte / bit % 2 * bit + v * bit
}

// Sets the mark at position p; every other bit is kept.
pub fn put_mark(row: &mut [u8], p: usize, v: u8)
    requires { (p < 8 * length row.old) × (v < 2) }
    ensures { row.new ≡ set_mark row.old p v }
{
    row[p / 8] = put_bit(row[p / 8], p % 8, v);
}

// Sets the marks from position start on; every other bit is kept.
#[tactic(auto, unfolding(crate::specs::Puts::put_marks))]
pub fn put_marks(row: &mut [u8], start: usize, flags: &[u8])
    requires flags_bound { (start + length flags.now ≤ 8 * length row.old) × (start + length flags.now ≤ 4096) }
    requires by_index { (i : ℕ) → get_or flags.now i 0 < 2 }
    ensures { row.new ≡ put_marks row.old start flags.now (length flags.now) }
{
    for (i, flag) in flags.iter().enumerate() {
        put_mark(row, start + i, *flag);
    }
}

// Packs a row's marks; spare bits are zero.
pub fn pack(flags: &[u8], row: &mut [u8])
    requires row_len { (length row.old ≡ mark_bytes (length flags.now)) × (length flags.now ≤ 4096) }
    requires by_index { (i : ℕ) → get_or flags.now i 0 < 2 }
    ensures { row.new ≡ pack_row (mark_bytes (length flags.now)) flags.now }
{
    row.fill(0);
    put_marks(row, 0, flags);
}
