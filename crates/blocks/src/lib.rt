// A candidate of any kind written into a block.
#![tactic(auto)]

ghost use Rattle.std.specs.Prelude.{◌≡◌, true, ◌≤◌, ◌<◌, length};
ghost use Rattle.model.specs.Planes.{view};
ghost use Rattle.model.specs.Candidates.{filled};
ghost use Rattle.model.specs.Refusals.{table_ok, candidate_then};
ghost use Rattle.planes.specs.Parts.{block_of};
ghost use Rattle.commit.specs.Commit.{Sized};
ghost use Rattle.combine.specs.Combine.{OtherSized, BlockIn, BlockSet};

use model::{Candidate, Tear};

// Writes the candidate into the block in one view's depths and brings that view's planes and the combined picture up to date.
#[tactic(auto, using(combine::proofs::Filled::room_most))]
pub fn set_block(
    tear: Tear,
    right: bool,
    table: &[u16; 256],
    share: u8,
    tolerance: u8,
    w: usize,
    h: usize,
    column: usize,
    row: usize,
    width: usize,
    height: usize,
    texture: &[u16],
    candidate: Candidate,
    bytes: &[u8],
    depths: &mut [u8],
    samples: &mut [u16],
    fronts: &mut [u8],
    limits: &mut [i16],
    marks: &mut [u8],
    samples2: &[u16],
    fronts2: &[u8],
    marks2: &[u8],
    combined: &mut [u16],
)
    requires table_value { (table_ok table.now ≡ true) × ((share ≤ 64) × ((w ≤ 4096) × (h ≤ 4096))) }
    requires sized { Sized w h texture.now depths.old (view samples.old fronts.old limits.old marks.old) }
    requires other_sized { OtherSized w h samples2.now fronts2.now marks2.now combined.old }
    requires block_in { (BlockIn w h (block_of column row width height) (filled (block_of column row width height) candidate bytes.now)) × (candidate_then (block_of column row width height) candidate (length bytes.now) 0 ≡ 0) }
    ensures { BlockSet tear right table.now share tolerance w h (block_of column row width height) texture.now (filled (block_of column row width height) candidate bytes.now) samples2.now fronts2.now marks2.now
        depths.old depths.new
        (view samples.old fronts.old limits.old marks.old)
        (view samples.new fronts.new limits.new marks.new)
        combined.old combined.new }
{
    // The two calls differ in the room's size alone. A function over that size would have all their arguments once more.
    let n = fill::room_of(candidate, width);
    if n <= 256 {
        let mut room = planes::room::<u8, 256>(0);
        return combine::set_rows(
            tear,
            right,
            table,
            share,
            tolerance,
            w,
            h,
            column,
            row,
            width,
            height,
            texture,
            candidate,
            bytes,
            &mut room[..n],
            depths,
            samples,
            fronts,
            limits,
            marks,
            samples2,
            fronts2,
            marks2,
            combined,
        );
    }
    let mut room = planes::room::<u8, 4096>(0);
    combine::set_rows(
        tear,
        right,
        table,
        share,
        tolerance,
        w,
        h,
        column,
        row,
        width,
        height,
        texture,
        candidate,
        bytes,
        &mut room[..n],
        depths,
        samples,
        fronts,
        limits,
        marks,
        samples2,
        fronts2,
        marks2,
        combined,
    )
}
