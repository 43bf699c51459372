// The rows of a candidate. A full block's rows are lent as they are; rows of any other kind are made in a room, by one leaf a kind.
#![tactic(auto)]

ghost use Rattle.std.specs.Prelude.{◌≡◌, cond, ◌+◌, ◌*◌, ◌≤◌, ltb, eqb, length};
ghost use Rattle.model.specs.declared.Candidate.TheVariants.{Regions};
ghost use Rattle.model.specs.Lists.{list_of};
ghost use Rattle.model.specs.Marks.{mark_at};
ghost use Rattle.fill.specs.Rows.{above, below, Near, is_lent, room_of, Started, RowThere, RowsThere, filled_row, row_in, RowsMade};

use model::{Candidate, Point, Split};

// Whether the candidate's rows are lent as they are.
pub fn lent(candidate: Candidate) -> bool
    ensures { result ≡ is_lent candidate }
{
    matches!(candidate, Candidate::Full)
}

// The entries of the room that one row takes: none where the rows are lent.
#[tactic(auto, unfolding(crate::specs::Rows::room_of))]
pub fn room_of(candidate: Candidate, width: usize) -> usize
    ensures { result ≡ room_of candidate width }
{
    if lent(candidate) { 0 } else { width }
}

// A value for each column: value1 where `under` < `over`, both of which grow by a fixed step from column to column.
#[tactic(auto, using(crate::proofs::Lines::product_most))]
fn walk(over: u32, under: u32, up: u32, down: u32, value0: u8, value1: u8, room: &mut [u8])
    requires { (over ≤ 33554432) × ((under ≤ 33554432) × ((up ≤ 4096) × ((down ≤ 4096) × (length room.old ≤ 4096)))) }
    ensures { room.new ≡ list_of (λ k. cond (ltb (under + down * k) (over + up * k)) value1 value0) (length room.old) }
{
    let mut a = over;
    let mut b = under;
    for entry in room.iter_mut() {
        *entry = if b < a { value1 } else { value0 };
        a += up;
        b += down;
    }
}

// Row i of the regions of a line, whose cross product is above 0 where `below` < `above`.
#[tactic(auto, using(crate::proofs::Lines::product_most), unfolding(crate::specs::Rows::above, crate::specs::Rows::below))]
fn fill_line(start: Point, end: Point, value0: u8, value1: u8, i: u32, room: &mut [u8])
    requires { (Near start) × ((Near end) × ((i ≤ 4096) × (length room.old ≤ 4096))) }
    ensures { room.new ≡ list_of (λ k. cond (ltb (below start end i k) (above start end i k)) value1 value0) (length room.old) }
{
    let over = end.column * i + end.row * start.column;
    let under = start.column * i + end.column * start.row;
    walk(over, under, start.row, end.row, value0, value1, room)
}

// The regions of a mask from position `from` on.
fn fill_mask(bits: &[u8], from: usize, value0: u8, value1: u8, room: &mut [u8])
    requires { (from + length room.old ≤ 8 * length bits.now) × (from + length room.old ≤ 16777216) }
    ensures { room.new ≡ list_of (λ k. cond (eqb (mark_at bits.now (from + k)) 1) value1 value0) (length room.old) }
{
    for (k, entry) in room.iter_mut().enumerate() {
        let bit = marks::mark_at(bits, from + k);
        *entry = if bit == 1 { value1 } else { value0 };
    }
}

// What is the same in every row: one value is written once, over the whole room.
pub fn start(candidate: Candidate, room: &mut [u8])
    ensures { (Started candidate room.new) × (length room.new ≡ length room.old) }
{
    if let Candidate::Flat(depth) = candidate {
        room.fill(depth);
    }
}

// One row of two regions.
#[tactic(auto, using(crate::proofs::Rows::mask_row, crate::proofs::Lines::product_most))]
fn fill_regions(value0: u8, value1: u8, split: Split, bytes: &[u8], i: usize, row: &mut [u8])
    requires { (RowThere (length row.old) (Regions value0 value1 split) bytes.now i) × ((length row.old ≤ 4096) × (i ≤ 4095)) }
    ensures { row.new ≡ filled_row (length row.old) (Regions value0 value1 split) bytes.now i }
{
    match split {
        Split::Line { start, end } => fill_line(start, end, value0, value1, i as u32, row),
        Split::Mask => fill_mask(bytes, i * row.len(), value0, value1, row),
    }
}

// Makes n rows from row i on, one after the other in the room, which `start` has prepared.
#[tactic(auto, using(crate::proofs::Rows::row_holds))]
pub fn fill_rows(
    candidate: Candidate,
    bytes: &[u8],
    width: usize,
    i: usize,
    n: usize,
    room: &mut [u8],
)
    requires rows_there { (RowsThere width candidate bytes.now i n) × ((width ≤ 4096) × (i + n ≤ 4096)) }
    requires room_len { (length room.old ≡ room_of candidate (n * width)) × (Started candidate room.old) }
    ensures { RowsMade width candidate bytes.now i n room.old room.new }
{
    if let Candidate::Regions {
        value0,
        value1,
        split,
    } = candidate
    {
        for k in 0..n {
            let from = k * width;
            let to = from + width;
            fill_regions(value0, value1, split, bytes, i + k, &mut room[from..to]);
        }
    }
}

// Row i, to be lent on: a part of the bytes, or the room in which it was made.
#[tactic(auto, using(crate::proofs::Rows::there_lent), unfolding(crate::specs::Rows::row_in, model::specs::Lists::row_of))]
pub fn row_of<'a>(
    candidate: Candidate,
    bytes: &'a [u8],
    width: usize,
    i: usize,
    room: &'a [u8],
) -> &'a [u8]
    requires { (RowThere width candidate bytes.now i) × ((width ≤ 4096) × (i ≤ 4095)) }
    ensures { result.now ≡ row_in width candidate bytes.now i room.now }
{
    if lent(candidate) {
        let from = i * width;
        let to = from + width;
        return &bytes[from..to];
    }
    room
}
