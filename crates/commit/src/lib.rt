// What SET writes of one row of one view: the edit of its depths and limits, and the span of samples, front depths and marks drawn anew.
#![tactic(auto)]

ghost use Rattle.std.specs.Prelude.{◌≡◌, true, ◌+◌, ◌-◌, ◌*◌, ◌≤◌, ◌<◌, length};
ghost use Rattle.model.specs.Lists.{row_of};
ghost use Rattle.model.specs.Row.{line};
ghost use Rattle.model.specs.Views.{seen};
ghost use Rattle.model.specs.Marks.{mark_bytes};
ghost use Rattle.model.specs.Planes.{view};
ghost use Rattle.model.specs.Refusals.{table_ok};
ghost use Rattle.limits.specs.Limits.{Edged};
ghost use Rattle.row.specs.Drawing.{Ready};
ghost use Rattle.commit.specs.Commit.{RowIn, Drawable, PartDrawn, Redrawn, RowRedrawn, RowCommitted};

use model::Tear;
use pixel::Edge;

// The entries of a row from `from` up to `to`.
#[derive(Drop)]
pub struct Stretch {
    pub from: usize,
    pub to: usize,
}

// Draws the positions from `start` on from the columns below `columns` and the edge right of them into parts of just that stretch, and puts
// their marks into the row's from entry `at` on; `flags` is room for them.
fn draw_marked(
    tear: Tear,
    right: bool,
    table: &[u16; 256],
    texture: &[u16],
    depths: &[u8],
    columns: usize,
    edge: Edge,
    start: usize,
    at: usize,
    samples: &mut [u16],
    fronts: &mut [u8],
    marks: &mut [u8],
    flags: &mut [u8],
)
    requires drawable { Drawable tear right table.now texture.now depths.now columns edge start at samples.old fronts.old marks.old }
    requires flags_len { length flags.old ≡ length samples.old }
    ensures { PartDrawn right (line tear table.now (seen right texture.now) (seen right depths.now)) columns edge start at (length samples.old)
        marks.old samples.new fronts.new marks.new }
{
    row::draw_part(
        tear, right, table, texture, depths, columns, edge, start, samples, fronts, flags,
    );
    marks::put_marks(marks, at, flags);
}

// The same with room for the marks of N positions.
fn draw_in<const N: usize>(
    tear: Tear,
    right: bool,
    table: &[u16; 256],
    texture: &[u16],
    depths: &[u8],
    columns: usize,
    edge: Edge,
    start: usize,
    at: usize,
    samples: &mut [u16],
    fronts: &mut [u8],
    marks: &mut [u8],
)
    requires drawable { Drawable tear right table.now texture.now depths.now columns edge start at samples.old fronts.old marks.old }
    requires samples_bound { (length samples.old ≤ N) × (N ≤ 4096) }
    ensures { PartDrawn right (line tear table.now (seen right texture.now) (seen right depths.now)) columns edge start at (length samples.old)
        marks.old samples.new fronts.new marks.new }
{
    let mut flags = planes::room::<u8, N>(0);
    let n = samples.len();
    draw_marked(
        tear,
        right,
        table,
        texture,
        depths,
        columns,
        edge,
        start,
        at,
        samples,
        fronts,
        marks,
        &mut flags[..n],
    );
}

// The same with as much room as the stretch asks for: one of more than 64 positions is rare.
fn draw_stretch(
    tear: Tear,
    right: bool,
    table: &[u16; 256],
    texture: &[u16],
    depths: &[u8],
    columns: usize,
    edge: Edge,
    start: usize,
    at: usize,
    samples: &mut [u16],
    fronts: &mut [u8],
    marks: &mut [u8],
)
    requires { Drawable tear right table.now texture.now depths.now columns edge start at samples.old fronts.old marks.old }
    ensures { PartDrawn right (line tear table.now (seen right texture.now) (seen right depths.now)) columns edge start at (length samples.old)
        marks.old samples.new fronts.new marks.new }
{
    if samples.len() <= 64 {
        draw_in::<64>(
            tear, right, table, texture, depths, columns, edge, start, at, samples, fronts, marks,
        );
    } else {
        draw_in::<4096>(
            tear, right, table, texture, depths, columns, edge, start, at, samples, fronts, marks,
        );
    }
}

// Draws the span from `low` to the edge of row y from the columns below `columns`, and answers its entries. Of samples and fronts only the
// span's own stretch is lent for writing.
#[tactic(auto, using(model::proofs::Views::length_seen, model::proofs::Views::seen_seen, row::proofs::Below::first_within, row::proofs::Wholes::ready_seen))]
fn redraw(
    tear: Tear,
    right: bool,
    table: &[u16; 256],
    texture: &[u16],
    depths: &[u8],
    columns: usize,
    low: u32,
    edge: Edge,
    y: usize,
    samples: &mut [u16],
    fronts: &mut [u8],
    marks: &mut [u8],
) -> Stretch
    requires ready { Ready (line tear table.now (seen right texture.now) (seen right depths.now)) }
    requires columns_nonzero { (0 < columns) × ((columns ≤ length (seen right depths.now)) × (Edged table.now (seen right depths.now) columns edge)) }
    requires depths_in_bounds { (y * length depths.now + length depths.now ≤ length samples.old) × ((y * length depths.now + length depths.now ≤ length fronts.old) × (length marks.old ≡ mark_bytes (length depths.now))) }
    ensures { Redrawn right (line tear table.now (seen right texture.now) (seen right depths.now)) (length depths.now) y columns low edge result.from result.to
        samples.old fronts.old marks.old samples.new fronts.new marks.new }
{
    let start = places::first_at(low);
    let end = places::first_at(edge.limit);
    if end <= start {
        return Stretch { from: 0, to: 0 };
    }
    let w = depths.len();
    let n = end - start;
    let at = places::part_start(right, w, start, end);
    let from = y * w + at;
    let to = from + n;
    draw_stretch(
        tear,
        right,
        table,
        texture,
        depths,
        columns,
        edge,
        start,
        at,
        &mut samples[from..to],
        &mut fronts[from..to],
        marks,
    );
    Stretch {
        from: at,
        to: at + n,
    }
}

// The same for planes: the row's texture, depths and marks are lent.
#[tactic(auto, using(model::proofs::Views::length_seen, row::proofs::Wholes::ready_seen, planes::proofs::Splices::part_row))]
fn redraw_row(
    tear: Tear,
    right: bool,
    table: &[u16; 256],
    texture: &[u16],
    depths: &[u8],
    w: usize,
    y: usize,
    columns: usize,
    low: u32,
    edge: Edge,
    samples: &mut [u16],
    fronts: &mut [u8],
    marks: &mut [u8],
) -> Stretch
    requires table_value { (table_ok table.now ≡ true) × ((0 < w) × (w ≤ 4096)) }
    requires columns_nonzero { (0 < columns) × ((columns ≤ w) × (Edged table.now (seen right (row_of depths.now w y)) columns edge)) }
    requires w_in_bounds { (y * w + w ≤ length texture.now) × (y * w + w ≤ length depths.now) }
    requires w_in_bounds_2 { (y * w + w ≤ length samples.old) × ((y * w + w ≤ length fronts.old) × (y * mark_bytes w + mark_bytes w ≤ length marks.old)) }
    ensures { RowRedrawn right (line tear table.now (seen right (row_of texture.now w y)) (seen right (row_of depths.now w y))) w y columns low edge result.from result.to
        samples.old fronts.old marks.old samples.new fronts.new marks.new }
{
    let base = y * w;
    let end = base + w;
    let bytes = (w + 7) / 8;
    let byte = y * bytes;
    let last = byte + bytes;
    redraw(
        tear,
        right,
        table,
        &texture[base..end],
        &depths[base..end],
        columns,
        low,
        edge,
        y,
        samples,
        fronts,
        &mut marks[byte..last],
    )
}

// Writes the candidate into row y from `column` on, and brings the view's planes up to date. Answers the entries that are drawn anew.
pub fn commit_row(
    tear: Tear,
    right: bool,
    table: &[u16; 256],
    texture: &[u16],
    w: usize,
    y: usize,
    column: usize,
    candidate: &[u8],
    depths: &mut [u8],
    samples: &mut [u16],
    fronts: &mut [u8],
    limits: &mut [i16],
    marks: &mut [u8],
) -> Stretch
    requires table_value { (table_ok table.now ≡ true) × (w ≤ 4096) }
    requires row_in { RowIn w y texture.now depths.old (view samples.old fronts.old limits.old marks.old) }
    requires candidate_nonzero { (0 < length candidate.now) × (column + length candidate.now ≤ w) }
    ensures { RowCommitted tear right table.now texture.now w y column candidate.now depths.old depths.new
        (view samples.old fronts.old limits.old marks.old)
        (view samples.new fronts.new limits.new marks.new) result.from result.to }
{
    let edit = edits::change_row(right, table, w, y, column, candidate, depths, limits);
    let columns = edit.columns;
    let low = edit.low;
    let edge = edit.edge;
    redraw_row(
        tear, right, table, texture, depths, w, y, columns, low, edge, samples, fronts, marks,
    )
}
