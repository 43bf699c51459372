// Whole planes drawn row by row: the planes of one view, and the combined picture with its total. Planes come one slice each, as C lends them.
#![tactic(auto)]

ghost use Rattle.std.specs.Prelude.{◌≡◌, ◌+◌, ◌*◌, ◌≤◌, ◌<◌, length};
ghost use Rattle.model.specs.Lists.{row_of};
ghost use Rattle.model.specs.Combined.{worst};
ghost use Rattle.model.specs.Planes.{view};
ghost use Rattle.sums.specs.Squares.{Squares};
ghost use Rattle.draw.specs.Drawn.{Table, PlanesIn, PlanesOf, RowDrawn, ViewDrawn};
ghost use Rattle.draw.specs.Combination.{held_rows, SideOf, row_error, PictureCombined};

use model::Tear;

// Draws row y of a view's planes; `flags` is room for the row's marks.
pub fn draw_plane_row(
    tear: Tear,
    right: bool,
    table: &[u16; 256],
    w: usize,
    y: usize,
    texture: &[u16],
    depths: &[u8],
    samples: &mut [u16],
    fronts: &mut [u8],
    limits: &mut [i16],
    marks: &mut [u8],
    flags: &mut [u8],
)
    requires table { (Table table.now) × ((0 < w) × (w ≤ 4096)) }
    requires planes_in { PlanesIn w y texture.now depths.now (view samples.old fronts.old limits.old marks.old) }
    requires flags_len { length flags.old ≡ w }
    ensures { RowDrawn tear right table.now w y texture.now depths.now
        (view samples.old fronts.old limits.old marks.old)
        (view samples.new fronts.new limits.new marks.new) }
{
    let from = y * w;
    let to = from + w;
    row::draw_row(
        tear,
        right,
        table,
        &texture[from..to],
        &depths[from..to],
        &mut samples[from..to],
        &mut fronts[from..to],
        flags,
        &mut limits[from..to],
    );
    let bytes = w.div_ceil(8);
    let first = y * bytes;
    let last = first + bytes;
    marks::pack(flags, &mut marks[first..last]);
}

// Draws every row of a view's planes.
pub fn draw_view(
    tear: Tear,
    right: bool,
    table: &[u16; 256],
    w: usize,
    h: usize,
    texture: &[u16],
    depths: &[u8],
    samples: &mut [u16],
    fronts: &mut [u8],
    limits: &mut [i16],
    marks: &mut [u8],
)
    requires table { (Table table.now) × ((0 < w) × (w ≤ 4096)) }
    requires planes_of { PlanesOf w h texture.now depths.now (view samples.old fronts.old limits.old marks.old) }
    ensures { ViewDrawn tear right table.now w h texture.now depths.now
        (view samples.new fronts.new limits.new marks.new) }
{
    let mut flags = [0u8; 4096];
    for y in 0..h {
        draw_plane_row(
            tear,
            right,
            table,
            w,
            y,
            texture,
            depths,
            samples,
            fronts,
            limits,
            marks,
            &mut flags[..w],
        );
    }
}

// The sum of the squared errors of row y of the picture.
fn error_row(squares: &[u32; 1024], w: usize, y: usize, combined: &[u16], reference: &[u16]) -> u32
    requires squares { (Squares squares.now) × (w ≤ 4096) }
    requires w_in_bounds { (y * w + w ≤ length combined.now) × (y * w + w ≤ length reference.now) }
    ensures { (result ≡ row_error w (row_of combined.now w y) reference.now y) × (result ≤ worst * w) }
{
    let from = y * w;
    let to = from + w;
    sums::row_error(squares, &combined[from..to], &reference[from..to])
}

// Combines the left view's planes (0) and the right view's (1) into the picture, and answers its total.
pub fn combine_picture(
    squares: &[u32; 1024],
    share: u8,
    tolerance: u8,
    w: usize,
    h: usize,
    samples0: &[u16],
    fronts0: &[u8],
    marks0: &[u8],
    samples1: &[u16],
    fronts1: &[u8],
    marks1: &[u8],
    reference: &[u16],
    combined: &mut [u16],
) -> u64
    requires squares { (Squares squares.now) × ((share ≤ 64) × ((w ≤ 4096) × (h ≤ 4096))) }
    requires side_of { (SideOf w h samples0.now fronts0.now marks0.now) × (SideOf w h samples1.now fronts1.now marks1.now) }
    requires reference_len { (length reference.now ≡ w * h) × (length combined.old ≡ w * h) }
    ensures { PictureCombined share tolerance w h (held_rows w samples0.now fronts0.now marks0.now) (held_rows w samples1.now fronts1.now marks1.now) reference.now combined.new result }
{
    let mut total = 0u64;
    for y in 0..h {
        blend::blend_row(
            false, share, tolerance, w, y, 0, w, samples0, fronts0, marks0, samples1, fronts1,
            marks1, combined,
        );
        total += u64::from(error_row(squares, w, y, combined, reference));
    }
    total
}
