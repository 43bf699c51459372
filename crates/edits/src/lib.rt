// An edit of one row: its depths are written, and its limits brought up to date.
#![tactic(auto)]

ghost use Rattle.std.specs.Prelude.{◌≡◌, true, ◌+◌, ◌-◌, ◌*◌, ◌≤◌, ◌<◌, length};
ghost use Rattle.model.specs.Views.{seen};
ghost use Rattle.model.specs.Refusals.{table_ok};
ghost use Rattle.limits.specs.Limits.{span_top};
ghost use Rattle.edits.specs.Changes.{Rewritten, Relimited, Limited, Changed};

use pixel::Edge;

// An edit of a row: the column after its last, as the view reads the row, the low end of its span, and the edge right of its columns, whose
// limit is the high end.
#[derive(Drop)]
pub struct Edit {
    pub columns: usize,
    pub low: u32,
    pub edge: Edge,
}

// Copies `values` into a part of that length: entry by entry, since the library's copy has a program in C need `memmove` besides `memcpy` and
// `memset`.
fn write(part: &mut [u8], values: &[u8])
    requires { length part.old ≡ length values.now }
    ensures { part.new ≡ values.now }
{
    for (i, value) in values.iter().enumerate() {
        part[i] = *value;
    }
}

// Writes the candidate into a row of depths from `column` on, and answers the low end of the span. `first` is its first column, as the
// view reads the row.
fn edit_row(
    right: bool,
    table: &[u16; 256],
    column: usize,
    first: usize,
    candidate: &[u8],
    depths: &mut [u8],
) -> u32
    requires table_value { (table_ok table.now ≡ true) × (length depths.old ≤ 4096) }
    requires candidate_nonzero { (0 < length candidate.now) × ((column + length candidate.now ≤ length depths.old) × (first + length candidate.now ≤ length depths.old)) }
    ensures { Rewritten right table.now column first result candidate.now depths.old depths.new }
{
    let n = candidate.len();
    let old = places::row_low(right, table, depths, first, n);
    let end = column + n;
    write(&mut depths[column..end], candidate);
    let least = places::least_place(right, table, depths, first, n, old);
    least.saturating_sub(1)
}

// What is taken for the limit of column `columns`, as a trial takes it: the held one, or the column's own place where that is less, or the
// row's end.
fn high_of(right: bool, table: &[u16; 256], depths: &[u8], limits: &[i16], columns: usize) -> u32
    requires table_value { (table_ok table.now ≡ true) × (length depths.now ≤ 4096) }
    requires columns_nonzero { (0 < columns) × (columns ≤ length depths.now) }
    ensures { result ≡ span_top table.now (seen right depths.now) (seen right limits.now) columns }
{
    let next = limits::next_place(right, table, depths, columns - 1);
    limits::limit_under(right, limits, columns, next)
}

// Writes the limits of the columns below `columns`, from the right. Left of column `first` it stops where the held limit is right already:
// those before it are too.
#[tactic(auto, using(limits::proofs::Below::below_most, model::proofs::Views::length_seen))]
fn write_limits(
    right: bool,
    table: &[u16; 256],
    depths: &[u8],
    first: usize,
    columns: usize,
    high: u32,
    limits: &mut [i16],
)
    requires table_value { (table_ok table.now ≡ true) × (high ≤ 17408) }
    requires columns_bound { (columns ≤ 4096) × (columns ≤ length limits.old) }
    ensures { Relimited table.now (seen right depths.now) first columns high (seen right limits.old) (seen right limits.new) }
{
    let mut top = high;
    for c in (0..columns).rev() {
        top = places::place_of(right, table, depths, c).min(top);
        if c < first && limits::held_limit(right, limits, c) == top {
            return;
        }
        places::put_limit(right, limits, c, signed::limit_of(top));
    }
}

// Brings a row's limits up to date, and answers the edge right of the columns below `columns`, with the high end of the span.
#[tactic(auto, using(limits::proofs::Limits::limit_least, pixel::proofs::Pairs::next_most, model::proofs::Views::length_seen))]
fn update_limits(
    right: bool,
    table: &[u16; 256],
    depths: &[u8],
    first: usize,
    columns: usize,
    limits: &mut [i16],
) -> Edge
    requires table_value { (table_ok table.now ≡ true) × (length depths.now ≤ 4096) }
    requires limits_len { (length limits.old ≡ length depths.now) × ((0 < columns) × (columns ≤ length depths.now)) }
    ensures { Limited table.now (seen right depths.now) first columns result (seen right limits.old) (seen right limits.new) }
{
    let high = high_of(right, table, depths, limits, columns);
    let edge = limits::edge_of(right, limits, columns, high);
    write_limits(right, table, depths, first, columns, high, limits);
    edge
}

// Writes the candidate into row y of the depths from `column` on, and brings the row's limits up to date.
#[tactic(auto, using(crate::proofs::Lent::rewritten_wide, crate::proofs::Lent::lent_again))]
pub fn change_row(
    right: bool,
    table: &[u16; 256],
    w: usize,
    y: usize,
    column: usize,
    candidate: &[u8],
    depths: &mut [u8],
    limits: &mut [i16],
) -> Edit
    requires table_value { (table_ok table.now ≡ true) × (w ≤ 4096) }
    requires candidate_nonzero { (0 < length candidate.now) × (column + length candidate.now ≤ w) }
    requires w_in_bounds { (y * w + w ≤ length depths.old) × (y * w + w ≤ length limits.old) }
    ensures { Changed right table.now w y column candidate.now depths.old depths.new limits.old limits.new result.columns result.low result.edge }
{
    let base = y * w;
    let end = base + w;
    let n = candidate.len();
    let stop = column + n;
    let first = places::part_start(right, w, column, stop);
    let columns = first + n;
    let low = edit_row(
        right,
        table,
        column,
        first,
        candidate,
        &mut depths[base..end],
    );
    let edge = update_limits(
        right,
        table,
        &depths[base..end],
        first,
        columns,
        &mut limits[base..end],
    );
    Edit { columns, low, edge }
}
