// What a candidate would change: the trials of the block's rows, summed.
#![tactic(auto)]

ghost use Rattle.std.specs.Prelude.{◌+◌, ◌-◌, ◌*◌, ◌/◌, ◌≤◌, ◌<◌, ◌≡◌, true, false, length};
ghost use Rattle.model.specs.Lists.{row_of};
ghost use Rattle.model.specs.Candidates.{filled};
ghost use Rattle.model.specs.Refusals.{table_ok, candidate_then};
ghost use Rattle.planes.specs.Parts.{block_of};
ghost use Rattle.sums.specs.Squares.{Squares};
ghost use Rattle.fill.specs.Rows.{is_lent};
ghost use Rattle.strips.specs.Strips.{around_lent, own_lent, RowTrial};
ghost use Rattle.trial.specs.Trial.{own_row, around_row, OwnRowIn, AroundRowIn, Sized, Fits, BlockTrial};

use model::Candidate;
use strips::{Counterpart, Source, Sums};

// The two sums of row y of the planes and row i of the candidate, which is `width` wide.
fn trial_at(
    squares: &[u32; 1024],
    v: Source,
    o: Counterpart,
    w: usize,
    y: usize,
    width: usize,
    i: usize,
    first: usize,
    candidate: &[u8],
) -> Sums
    requires table_value { (table_ok v.table.now ≡ true) × ((Squares squares.now) × (o.share ≤ 64)) }
    requires own_row_in { OwnRowIn w y (own_lent v) }
    requires around_row_in { AroundRowIn w y (around_lent o) }
    requires width_in_bounds { (i * width + width ≤ length candidate.now) × ((0 < width) × ((first + width ≤ w) × (w ≤ 4096))) }
    ensures { RowTrial (around_row w (around_lent o.entry) y) (own_row w (own_lent v.entry) y) (row_of candidate.now width i) first result.old result.new }
{
    let bytes = (w + 7) / 8;
    let p = y * w;
    let q = p + w;
    let m = y * bytes;
    let n = m + bytes;
    let row = Source {
        texture: &v.texture[p..q],
        depths: &v.depths[p..q],
        limits: &v.limits[p..q],
        ..v
    };
    let beside = Counterpart {
        samples: &o.samples[p..q],
        fronts: &o.fronts[p..q],
        marks: &o.marks[m..n],
        combined: &o.combined[p..q],
        reference: &o.reference[p..q],
        ..o
    };
    let k = i * width;
    strips::trial_row(squares, row, beside, &candidate[k..k + width], first)
}

// The two sums of a block's trial in one view, with the candidate's depths in row order: v is the view, and o has the other one's held planes.
pub fn trial_block(
    v: Source,
    o: Counterpart,
    w: usize,
    h: usize,
    column: usize,
    row: usize,
    width: usize,
    height: usize,
    candidate: &[u8],
) -> Sums
    requires table_value { (table_ok v.table.now ≡ true) × (o.share ≤ 64) }
    requires sized { Sized w h (around_lent o) (own_lent v) }
    requires fits { Fits w h (block_of column row width height) candidate.now }
    ensures { BlockTrial w (around_lent o.entry) (own_lent v.entry) (block_of column row width height) candidate.now height result.old result.new }
{
    let squares = sums::squares();
    let first = places::part_start(o.right, w, column, column + width);
    let mut old = 0u64;
    let mut new = 0u64;
    for i in 0..height {
        let s = trial_at(&squares, v, o, w, row + i, width, i, first, candidate);
        old += s.old;
        new += s.new;
    }
    Sums { old, new }
}

// The same for a candidate whose rows are made: as many of them as the room holds, and these are then tried together, as a block of their own.
fn trial_by_rooms(
    v: Source,
    o: Counterpart,
    w: usize,
    h: usize,
    column: usize,
    row: usize,
    width: usize,
    height: usize,
    candidate: Candidate,
    bytes: &[u8],
    room: &mut [u8],
) -> Sums
    requires table_value { (table_ok v.table.now ≡ true) × (o.share ≤ 64) }
    requires sized { Sized w h (around_lent o) (own_lent v) }
    requires fits { (Fits w h (block_of column row width height) (filled (block_of column row width height) candidate bytes.now)) × (candidate_then (block_of column row width height) candidate (length bytes.now) 0 ≡ 0) }
    requires candidate_value { (is_lent candidate ≡ false) × ((width ≤ length room.old) × (length room.old ≤ 4096)) }
    ensures { BlockTrial w (around_lent o.entry) (own_lent v.entry) (block_of column row width height) (filled (block_of column row width height) candidate bytes.now) height result.old result.new }
{
    let most = room.len() / width;
    fill::start(candidate, room);
    let mut old = 0u64;
    let mut new = 0u64;
    for done in (0..height).step_by(most) {
        let n = most.min(height - done);
        let end = n * width;
        fill::fill_rows(candidate, bytes, width, done, n, &mut room[..end]);
        let part = trial_block(v, o, w, h, column, row + done, width, n, &room[..end]);
        old += part.old;
        new += part.new;
    }
    Sums { old, new }
}

// The same in a room of its own, which is to stand in no frame but this one's.
#[inline(never)]
pub fn trial_made(
    v: Source,
    o: Counterpart,
    w: usize,
    h: usize,
    column: usize,
    row: usize,
    width: usize,
    height: usize,
    candidate: Candidate,
    bytes: &[u8],
) -> Sums
    requires table_value { (table_ok v.table.now ≡ true) × (o.share ≤ 64) }
    requires sized { Sized w h (around_lent o) (own_lent v) }
    requires fits { (Fits w h (block_of column row width height) (filled (block_of column row width height) candidate bytes.now)) × (candidate_then (block_of column row width height) candidate (length bytes.now) 0 ≡ 0) }
    requires candidate_value { is_lent candidate ≡ false }
    ensures { BlockTrial w (around_lent o.entry) (own_lent v.entry) (block_of column row width height) (filled (block_of column row width height) candidate bytes.now) height result.old result.new }
{
    if width <= 256 {
        let mut room = planes::room::<u8, 256>(0);
        return trial_by_rooms(
            v,
            o,
            w,
            h,
            column,
            row,
            width,
            height,
            candidate,
            bytes,
            &mut room[..],
        );
    }
    let mut room = planes::room::<u8, 4096>(0);
    trial_by_rooms(
        v,
        o,
        w,
        h,
        column,
        row,
        width,
        height,
        candidate,
        bytes,
        &mut room[..],
    )
}

// The two sums of a block's trial with a candidate of any kind.
pub fn trial_candidate(
    v: Source,
    o: Counterpart,
    w: usize,
    h: usize,
    column: usize,
    row: usize,
    width: usize,
    height: usize,
    candidate: Candidate,
    bytes: &[u8],
) -> Sums
    requires table_value { (table_ok v.table.now ≡ true) × (o.share ≤ 64) }
    requires sized { Sized w h (around_lent o) (own_lent v) }
    requires fits { (Fits w h (block_of column row width height) (filled (block_of column row width height) candidate bytes.now)) × (candidate_then (block_of column row width height) candidate (length bytes.now) 0 ≡ 0) }
    ensures { BlockTrial w (around_lent o.entry) (own_lent v.entry) (block_of column row width height) (filled (block_of column row width height) candidate bytes.now) height result.old result.new }
{
    if fill::lent(candidate) {
        return trial_block(v, o, w, h, column, row, width, height, bytes);
    }
    trial_made(v, o, w, h, column, row, width, height, candidate, bytes)
}
