// CHECK's walk over all positions, and its verdict.
#![tactic(auto)]

ghost use Rattle.std.specs.Prelude.{◌≡◌, ◌+◌, ◌*◌, ◌≤◌, ◌<◌, length};
ghost use Rattle.model.specs.Planes.{pictures, depths, view, held, view_rows};
ghost use Rattle.model.specs.Refusals.{check_number};
ghost use Rattle.sums.specs.Squares.{Squares};
ghost use Rattle.draw.specs.Drawn.{Table, drawn_row};
ghost use Rattle.compare.specs.Agree.{drawn_planes};
ghost use Rattle.scan.specs.Walks.{drawing_settings, Walked, verdict_of};

use compare::{DrawnRow, HeldView};
use model::{Report, Tear};

// A position of the picture.
#[derive(Clone, Copy)]
pub struct Place {
    pub row: u32,
    pub column: u32,
}

// What a walk over all positions finds: the place of the first difference, if there is one, and the sum of the squared errors of the
// positions that it passed.
#[derive(Clone, Copy)]
pub struct Found {
    pub place: Option<Place>,
    pub sum: u64,
}

// The report of a walk, where `total` is the held total.
pub fn verdict(found: Found, total: u64) -> Report
    ensures { result ≡ verdict_of found.place found.sum total }
{
    match found.place {
        Some(Place { row, column }) => Report::Difference { row, column },
        None if total == found.sum => Report::Sound,
        None => Report::Total,
    }
}

// Draws row y of a view.
fn draw_front(
    tear: Tear,
    right: bool,
    table: &[u16; 256],
    w: usize,
    y: usize,
    texture: &[u16],
    depths: &[u8],
    row: &mut DrawnRow,
)
    requires table { (Table table.now) × ((0 < w) × (w ≤ 4096)) }
    requires w_in_bounds { (y * w + w ≤ length texture.now) × (y * w + w ≤ length depths.now) }
    ensures { view_rows w (drawn_planes row.new) 0 ≡ drawn_row tear right table.now w texture.now depths.now y }
{
    let mut flags = [0u8; 4096];
    let from = y * w;
    let to = from + w;
    draw::draw_plane_row(
        tear,
        right,
        table,
        w,
        0,
        &texture[from..to],
        &depths[from..to],
        &mut row.samples,
        &mut row.fronts,
        &mut row.limits,
        &mut row.marks,
        &mut flags[..w],
    );
}

// Walks over all positions by rows and stops at the first at which a held entry differs from a fresh drawing.
pub fn walk(
    w: usize,
    h: usize,
    leftTable: &[u16; 256],
    rightTable: &[u16; 256],
    share: u8,
    tolerance: u8,
    tear: Tear,
    squares: &[u32; 1024],
    left: &[u16],
    right: &[u16],
    reference: &[u16],
    leftDepths: &[u8],
    rightDepths: &[u8],
    leftSamples: &[u16],
    leftFronts: &[u8],
    leftLimits: &[i16],
    leftMarks: &[u8],
    rightSamples: &[u16],
    rightFronts: &[u8],
    rightLimits: &[i16],
    rightMarks: &[u8],
    combined: &[u16],
) -> Found
    requires squares { Squares squares.now }
    requires combined_value { check_number (drawing_settings w h leftTable.now rightTable.now share tolerance tear)
        (pictures left.now right.now reference.now)
        (depths leftDepths.now rightDepths.now)
        (held (view leftSamples.now leftFronts.now leftLimits.now leftMarks.now)
        (view rightSamples.now rightFronts.now rightLimits.now rightMarks.now)
        combined.now) ≡ 0 }
    ensures { Walked (drawing_settings w h leftTable.now rightTable.now share tolerance tear)
        (pictures left.now right.now reference.now)
        (depths leftDepths.now rightDepths.now)
        (held (view leftSamples.now leftFronts.now leftLimits.now leftMarks.now)
        (view rightSamples.now rightFronts.now rightLimits.now rightMarks.now)
        combined.now) result }
{
    // The planes come one slice each, as C lends them; from here on they go by view.
    let leftHeld = HeldView {
        samples: leftSamples,
        fronts: leftFronts,
        limits: leftLimits,
        marks: leftMarks,
    };
    let rightHeld = HeldView {
        samples: rightSamples,
        fronts: rightFronts,
        limits: rightLimits,
        marks: rightMarks,
    };
    let mut leftRow = DrawnRow::new();
    let mut rightRow = DrawnRow::new();
    let mut place = None;
    let mut sum = 0u64;
    'rows: for y in 0..h {
        draw_front(tear, false, leftTable, w, y, left, leftDepths, &mut leftRow);
        draw_front(
            tear,
            true,
            rightTable,
            w,
            y,
            right,
            rightDepths,
            &mut rightRow,
        );
        for x in 0..w {
            let shown = compare::shown_at(share, tolerance, &leftRow, &rightRow, x);
            if !compare::same_at(
                w, y, x, &leftHeld, &rightHeld, combined, &leftRow, &rightRow, shown,
            ) {
                // Both are below 4,096: `try_from` would only add a way out that is never taken.
                place = Some(Place {
                    row: y as u32,
                    column: x as u32,
                });
                break 'rows;
            }
            let wanted = model::sample_in(reference, y * w + x);
            sum += u64::from(sums::square_error(squares, shown, wanted));
        }
    }
    Found { place, sum }
}
