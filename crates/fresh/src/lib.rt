// The fresh drawing: both views, their combined picture and its total.
#![tactic(auto)]

ghost use Rattle.std.specs.Prelude.{◌≡◌, false, true, ◌*◌, ◌≤◌, ◌<◌, length};
ghost use Rattle.model.specs.Planes.{pictures, depths, view, held};
ghost use Rattle.draw.specs.Drawn.{Table, PlanesOf};
ghost use Rattle.fresh.specs.Filled.{Filled};

use model::Tear;

// Draws both views and combines them; answers the total. The planes come one slice each, as C lends them.
pub fn fill(
    leftTable: &[u16; 256],
    rightTable: &[u16; 256],
    share: u8,
    tolerance: u8,
    tear: Tear,
    w: usize,
    h: usize,
    left: &[u16],
    right: &[u16],
    reference: &[u16],
    leftDepths: &[u8],
    rightDepths: &[u8],
    leftSamples: &mut [u16],
    leftFronts: &mut [u8],
    leftLimits: &mut [i16],
    leftMarks: &mut [u8],
    rightSamples: &mut [u16],
    rightFronts: &mut [u8],
    rightLimits: &mut [i16],
    rightMarks: &mut [u8],
    combined: &mut [u16],
) -> u64
    requires table { (Table leftTable.now) × ((Table rightTable.now) × (share ≤ 64)) }
    requires w_nonzero { (0 < w) × ((w ≤ 4096) × (h ≤ 4096)) }
    requires planes_of { PlanesOf w h left.now leftDepths.now (view leftSamples.old leftFronts.old leftLimits.old leftMarks.old) }
    requires planes_of_2 { PlanesOf w h right.now rightDepths.now (view rightSamples.old rightFronts.old rightLimits.old rightMarks.old) }
    requires reference_len { (length reference.now ≡ w * h) × (length combined.old ≡ w * h) }
    ensures { Filled leftTable.now rightTable.now share tolerance tear w h
        (pictures left.now right.now reference.now) (depths leftDepths.now rightDepths.now)
        (held (view leftSamples.new leftFronts.new leftLimits.new leftMarks.new)
        (view rightSamples.new rightFronts.new rightLimits.new rightMarks.new) combined.new) result }
{
    draw::draw_view(
        tear,
        false,
        leftTable,
        w,
        h,
        left,
        leftDepths,
        leftSamples,
        leftFronts,
        leftLimits,
        leftMarks,
    );
    draw::draw_view(
        tear,
        true,
        rightTable,
        w,
        h,
        right,
        rightDepths,
        rightSamples,
        rightFronts,
        rightLimits,
        rightMarks,
    );
    let squares = sums::squares();
    draw::combine_picture(
        &squares,
        share,
        tolerance,
        w,
        h,
        leftSamples,
        leftFronts,
        leftMarks,
        rightSamples,
        rightFronts,
        rightMarks,
        reference,
        combined,
    )
}
