// One row of one view, drawn from the right.
#![tactic(auto)]

ghost use Rattle.std.specs.Prelude.{◌≡◌, true, false, ◌+◌, ◌-◌, ◌≤◌, ◌<◌, length, get_or, set};
ghost use Rattle.model.specs.Row.{line, quarter};
ghost use Rattle.model.specs.Views.{seen, view_row};
ghost use Rattle.model.specs.Refusals.{table_ok};
ghost use Rattle.planes.specs.Parts.{splice, Painted};
ghost use Rattle.pixel.specs.Pairs.{Among, Stands, edge_right, edge_past};
ghost use Rattle.places.specs.Positions.{first_at};
ghost use Rattle.row.specs.Drawing.{pixel_below, shown_of, Ready, line_with, Ahead, SpanDrawn, Shows, Drawn};
ghost use Rattle.limits.specs.Limits.{Edged};

use model::{Pixel, Tear};
use pixel::{Edge, Pair};

// Stores what position i of a part shows, as the view reads it. The parts are three lists, since the C interface lends the planes so.
fn put_pixel(
    right: bool,
    samples: &mut [u16],
    fronts: &mut [u8],
    flags: &mut [u8],
    i: usize,
    shown: Pixel,
)
    requires { (i < length samples.old) × ((length fronts.old ≡ length samples.old) × (length flags.old ≡ length samples.old)) }
    ensures { (seen right samples.new ≡ set (seen right samples.old) i shown.sample)
        × ((seen right fronts.new ≡ set (seen right fronts.old) i shown.front)
        × (seen right flags.new ≡ set (seen right flags.old) i shown.mark)) }
{
    let e = planes::entry(right, samples.len(), i);
    samples[e] = shown.sample;
    fronts[e] = shown.front;
    flags[e] = shown.mark;
}

// Column c of a row of w at depth d0, the column after it, and the edge right of it.
pub fn pair_of(
    right: bool,
    table: &[u16; 256],
    w: usize,
    c: usize,
    d0: u8,
    d1: u8,
    next: u32,
    edge: Edge,
) -> Pair
    requires table_value { (table_ok table.now ≡ true) × ((c < w) × (w ≤ 4096)) }
    requires column_lt_w { edge.limit < quarter w → edge.column < w }
    ensures { (Among right w result) × ((result.column ≡ c) × ((result.d0 ≡ d0) × ((result.d1 ≡ d1) × ((result.here ≡ quarter c - get_or table.now d0 0) × ((result.next ≡ next) × (edge_right result ≡ edge)))))) }
{
    Pair {
        column: c,
        entry: planes::entry(right, w, c),
        d0,
        d1,
        here: places::place_at(table, c, d0),
        next,
        limit: edge.limit,
        front: edge.column,
    }
}

// Columns c and c + 1 of a row, and the edge right of column c.
pub fn pair_at(right: bool, table: &[u16; 256], depths: &[u8], c: usize, edge: Edge) -> Pair
    requires table_value { (table_ok table.now ≡ true) × ((c < length depths.now) × (length depths.now ≤ 4096)) }
    requires edged { Edged table.now (seen right depths.now) (c + 1) edge }
    ensures { (result.column ≡ c) × ((edge_right result ≡ edge) × ((Among right (length depths.now) result) × (Stands table.now (seen right depths.now) result))) }
{
    let d0 = places::at(right, depths, c);
    let d1 = places::at(right, depths, c + 1);
    let next = limits::next_place(right, table, depths, c);
    pair_of(right, table, depths.len(), c, d0, d1, next, edge)
}

// The pair one column to the left.
fn step(
    right: bool,
    table: &[u16; 256],
    depths: &[u8],
    candidate: &[u8],
    column: usize,
    q: Pair,
) -> Pair
    requires table_value { (table_ok table.now ≡ true) × (column + length candidate.now ≤ length depths.now) }
    requires among { (Among right (length depths.now) q) × (0 < q.column) }
    requires stands { Stands table.now (seen right (splice depths.now column candidate.now)) q }
    ensures { (result.column ≡ q.column - 1) × ((result.next ≡ q.here) × ((edge_right result ≡ edge_past q)
        × ((Among right (length depths.now) result) × (Stands table.now (seen right (splice depths.now column candidate.now)) result)))) }
{
    let c = q.column - 1;
    let e = planes::left_of(right, depths.len(), q.column, q.entry);
    let d0 = places::tried_at(depths, candidate, column, e);
    Pair {
        column: c,
        entry: e,
        d0,
        d1: q.d0,
        here: places::place_at(table, c, d0),
        next: q.here,
        limit: q.here.min(q.limit),
        front: pixel::front_past(q),
    }
}

// What x shows, where the pair's column owns it: the near edge, or what the column itself shows. That is made first, though an edge does not
// need it: with the filter behind the test, the compiler takes it for half as likely and leaves it out of the trial's loop.
fn shown_at(
    tear: Tear,
    right: bool,
    texture: &[u16],
    depths: &[u8],
    candidate: &[u8],
    column: usize,
    q: Pair,
    x: u32,
) -> Pixel
    requires texture_len { (length texture.now ≡ length depths.now) × (column + length candidate.now ≤ length depths.now) }
    requires among { Among right (length depths.now) q }
    requires here_le_x { (q.here ≤ x) × ((x < q.limit) × ((q.limit ≤ q.next) × (q.next ≤ quarter (length depths.now)))) }
    ensures { result ≡ shown_of tear (seen right texture.now) (seen right (splice depths.now column candidate.now)) q x }
{
    let own = pixel::pixel_of(tear, right, texture, q, x);
    if pixel::at_edge(q.limit, q.next, x) {
        let e = planes::entry(right, depths.len(), q.front);
        let depth = places::tried_at(depths, candidate, column, e);
        pixel::edge_pixel(right, texture, q.front, e, depth)
    } else {
        own
    }
}

// Draws the positions from `start` on, from the right, into parts of just that stretch: columns are stepped to the left until one is placed at
// most at the position, which is then its owner; the nearest that was passed is the edge right of it. Answers the pair that it has come to.
fn draw_positions(
    tear: Tear,
    right: bool,
    table: &[u16; 256],
    texture: &[u16],
    depths: &[u8],
    candidate: &[u8],
    column: usize,
    from: Pair,
    start: usize,
    samples: &mut [u16],
    fronts: &mut [u8],
    flags: &mut [u8],
) -> Pair
    requires ready { (Ready (line_with tear right table.now texture.now depths.now column candidate.now)) × (column + length candidate.now ≤ length depths.now) }
    requires ahead { Ahead right (line_with tear right table.now texture.now depths.now column candidate.now) (start + length samples.old) from }
    requires fronts_len { (length fronts.old ≡ length samples.old) × (length flags.old ≡ length samples.old) }
    ensures { SpanDrawn right (line_with tear right table.now texture.now depths.now column candidate.now) start from result
        samples.old fronts.old flags.old samples.new fronts.new flags.new }
{
    let mut q = from;
    for i in (0..samples.len()).rev() {
        let x = 4 * (start + i) as u32 + 1024;
        while x < q.here {
            q = step(right, table, depths, candidate, column, q);
        }
        let shown = shown_at(tear, right, texture, depths, candidate, column, q, x);
        put_pixel(right, samples, fronts, flags, i, shown);
    }
    q
}

// The same with the view as a constant: the compiler makes a loop for each.
fn draw_side<const RIGHT: bool>(
    tear: Tear,
    table: &[u16; 256],
    texture: &[u16],
    depths: &[u8],
    candidate: &[u8],
    column: usize,
    from: Pair,
    start: usize,
    samples: &mut [u16],
    fronts: &mut [u8],
    flags: &mut [u8],
) -> Pair
    requires ready { (Ready (line_with tear RIGHT table.now texture.now depths.now column candidate.now)) × (column + length candidate.now ≤ length depths.now) }
    requires ahead { Ahead RIGHT (line_with tear RIGHT table.now texture.now depths.now column candidate.now) (start + length samples.old) from }
    requires fronts_len { (length fronts.old ≡ length samples.old) × (length flags.old ≡ length samples.old) }
    ensures { SpanDrawn RIGHT (line_with tear RIGHT table.now texture.now depths.now column candidate.now) start from result
        samples.old fronts.old flags.old samples.new fronts.new flags.new }
{
    draw_positions(
        tear, RIGHT, table, texture, depths, candidate, column, from, start, samples, fronts, flags,
    )
}

// Draws the positions from `start` on of a row with the candidate in the entries from `column` on, into parts of just that stretch. The pair
// `from` may be any whose edge lies past them; drawn is what the columns up to its first show, and the edge.
pub fn draw_span(
    tear: Tear,
    right: bool,
    table: &[u16; 256],
    texture: &[u16],
    depths: &[u8],
    candidate: &[u8],
    column: usize,
    from: Pair,
    start: usize,
    samples: &mut [u16],
    fronts: &mut [u8],
    flags: &mut [u8],
) -> Pair
    requires ready { (Ready (line_with tear right table.now texture.now depths.now column candidate.now)) × (column + length candidate.now ≤ length depths.now) }
    requires ahead { Ahead right (line_with tear right table.now texture.now depths.now column candidate.now) (start + length samples.old) from }
    requires fronts_len { (length fronts.old ≡ length samples.old) × (length flags.old ≡ length samples.old) }
    ensures { SpanDrawn right (line_with tear right table.now texture.now depths.now column candidate.now) start from result
        samples.old fronts.old flags.old samples.new fronts.new flags.new }
{
    if right {
        draw_side::<true>(
            tear, table, texture, depths, candidate, column, from, start, samples, fronts, flags,
        )
    } else {
        draw_side::<false>(
            tear, table, texture, depths, candidate, column, from, start, samples, fronts, flags,
        )
    }
}

// Draws the positions from `start` on of a row as it stands, from the columns below `columns` and the edge right of them.
pub fn draw_part(
    tear: Tear,
    right: bool,
    table: &[u16; 256],
    texture: &[u16],
    depths: &[u8],
    columns: usize,
    edge: Edge,
    start: usize,
    samples: &mut [u16],
    fronts: &mut [u8],
    flags: &mut [u8],
)
    requires ready { Ready (line tear table.now texture.now depths.now) }
    requires columns_nonzero { (0 < columns) × ((columns ≤ length depths.now) × ((Edged table.now (seen right depths.now) columns edge) × (start + length samples.old ≤ first_at edge.limit))) }
    requires fronts_len { (length fronts.old ≡ length samples.old) × (length flags.old ≡ length samples.old) }
    ensures { Painted (λ i. pixel_below (line tear table.now (seen right texture.now) (seen right depths.now)) columns edge (start + i)) 0 (length samples.old)
        (seen right samples.old) (seen right fronts.old) (seen right flags.old)
        (seen right samples.new) (seen right fronts.new) (seen right flags.new) }
{
    let from = pair_at(right, table, depths, columns - 1, edge);
    draw_span(
        tear,
        right,
        table,
        texture,
        depths,
        &depths[..0],
        0,
        from,
        start,
        samples,
        fronts,
        flags,
    );
}

// Draws the samples, front depths and marks of a whole row.
pub fn draw_view_row(
    tear: Tear,
    right: bool,
    table: &[u16; 256],
    texture: &[u16],
    depths: &[u8],
    samples: &mut [u16],
    fronts: &mut [u8],
    flags: &mut [u8],
)
    requires ready { Ready (line tear table.now texture.now depths.now) }
    requires samples_len { (length samples.old ≡ length depths.now) × ((length fronts.old ≡ length depths.now) × (length flags.old ≡ length depths.now)) }
    ensures { Shows (view_row right (line tear table.now texture.now depths.now)) samples.new fronts.new flags.new }
{
    let w = depths.len();
    let end = Edge {
        limit: 4 * w as u32 + 1024,
        column: w,
    };
    draw_part(
        tear, right, table, texture, depths, w, end, 0, samples, fronts, flags,
    );
}

// Draws a whole row with its limits.
pub fn draw_row(
    tear: Tear,
    right: bool,
    table: &[u16; 256],
    texture: &[u16],
    depths: &[u8],
    samples: &mut [u16],
    fronts: &mut [u8],
    flags: &mut [u8],
    limits: &mut [i16],
)
    requires ready { Ready (line tear table.now texture.now depths.now) }
    requires samples_len { (length samples.old ≡ length depths.now) × ((length fronts.old ≡ length depths.now) × ((length flags.old ≡ length depths.now) × (length limits.old ≡ length depths.now))) }
    ensures { Drawn (view_row right (line tear table.now texture.now depths.now)) samples.new fronts.new flags.new limits.new }
{
    let w = depths.len();
    draw_view_row(tear, right, table, texture, depths, samples, fronts, flags);
    let high = 4 * w as u32 + 1024;
    limits::draw_limits(right, table, depths, w, high, limits);
}
