// What SET writes, row by row: the planes of one view on the block's rows, and the combined picture in each row's span.
#![tactic(auto)]

ghost use Rattle.std.specs.Prelude.{◌≡◌, true, ◌+◌, ◌-◌, ◌*◌, ◌≤◌, ◌<◌, length};
ghost use Rattle.model.specs.Planes.{view};
ghost use Rattle.model.specs.Candidates.{filled};
ghost use Rattle.model.specs.Refusals.{table_ok, candidate_then};
ghost use Rattle.planes.specs.Parts.{splice, block_of};
ghost use Rattle.fill.specs.Rows.{room_of};
ghost use Rattle.blend.specs.Blend.{combined_part};
ghost use Rattle.commit.specs.Commit.{Sized, RowIn, held_at};
ghost use Rattle.combine.specs.Combine.{ViewIn, OtherSized, BlockIn, RowSet, BlockSet};

use model::{Candidate, Tear};

// Commits a row of one view, and combines the entries that are drawn anew with the other view.
fn set_row(
    tear: Tear,
    right: bool,
    table: &[u16; 256],
    share: u8,
    tolerance: u8,
    w: usize,
    y: usize,
    column: usize,
    texture: &[u16],
    candidate: &[u8],
    depths: &mut [u8],
    samples: &mut [u16],
    fronts: &mut [u8],
    limits: &mut [i16],
    marks: &mut [u8],
    samples2: &[u16],
    fronts2: &[u8],
    marks2: &[u8],
    combined: &mut [u16],
)
    requires table_value { (table_ok table.now ≡ true) × ((share ≤ 64) × (w ≤ 4096)) }
    requires row_in { RowIn w y texture.now depths.old (view samples.old fronts.old limits.old marks.old) }
    requires view_in { (ViewIn w y samples2.now fronts2.now marks2.now) × (y * w + w ≤ length combined.old) }
    requires candidate_nonzero { (0 < length candidate.now) × (column + length candidate.now ≤ w) }
    ensures { RowSet tear right table.now share tolerance w y column texture.now candidate.now samples2.now fronts2.now marks2.now
        depths.old depths.new
        (view samples.old fronts.old limits.old marks.old)
        (view samples.new fronts.new limits.new marks.new)
        combined.old combined.new }
{
    let drawn = commit::commit_row(
        tear, right, table, texture, w, y, column, candidate, depths, samples, fronts, limits,
        marks,
    );
    let from = drawn.from;
    let to = drawn.to;
    blend::blend_row(
        right, share, tolerance, w, y, from, to, samples, fronts, marks, samples2, fronts2, marks2,
        combined,
    );
}

// Writes the candidate into the block in one view's depths, row by row, and brings that view's planes and the combined picture up to date.
pub fn set_rows(
    tear: Tear,
    right: bool,
    table: &[u16; 256],
    share: u8,
    tolerance: u8,
    w: usize,
    h: usize,
    column: usize,
    row: usize,
    width: usize,
    height: usize,
    texture: &[u16],
    candidate: Candidate,
    bytes: &[u8],
    room: &mut [u8],
    depths: &mut [u8],
    samples: &mut [u16],
    fronts: &mut [u8],
    limits: &mut [i16],
    marks: &mut [u8],
    samples2: &[u16],
    fronts2: &[u8],
    marks2: &[u8],
    combined: &mut [u16],
)
    requires table_value { (table_ok table.now ≡ true) × ((share ≤ 64) × ((w ≤ 4096) × (h ≤ 4096))) }
    requires sized { Sized w h texture.now depths.old (view samples.old fronts.old limits.old marks.old) }
    requires other_sized { OtherSized w h samples2.now fronts2.now marks2.now combined.old }
    requires block_in { (BlockIn w h (block_of column row width height) (filled (block_of column row width height) candidate bytes.now)) × ((candidate_then (block_of column row width height) candidate (length bytes.now) 0 ≡ 0) × (length room.old ≡ room_of candidate width)) }
    ensures { BlockSet tear right table.now share tolerance w h (block_of column row width height) texture.now (filled (block_of column row width height) candidate bytes.now) samples2.now fronts2.now marks2.now
        depths.old depths.new
        (view samples.old fronts.old limits.old marks.old)
        (view samples.new fronts.new limits.new marks.new)
        combined.old combined.new }
{
    fill::start(candidate, room);
    for j in 0..height {
        fill::fill_rows(candidate, bytes, width, j, 1, room);
        let chosen = fill::row_of(candidate, bytes, width, j, room);
        set_row(
            tear,
            right,
            table,
            share,
            tolerance,
            w,
            row + j,
            column,
            texture,
            chosen,
            depths,
            samples,
            fronts,
            limits,
            marks,
            samples2,
            fronts2,
            marks2,
            combined,
        );
    }
}
