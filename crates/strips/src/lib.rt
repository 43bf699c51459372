// What a candidate would change in one row: it is drawn over the span alone, strip by strip from the right, and measured.
#![tactic(auto)]

ghost use Rattle.std.specs.Prelude.{ℕ, ◌+◌, ◌-◌, ◌*◌, ◌≤◌, ◌<◌, min, ◌≡◌, true, length, get_or};
ghost use Rattle.model.specs.Row.{place, greatest, sample_in, pixel};
ghost use Rattle.model.specs.Views.{seen};
ghost use Rattle.model.specs.Span.{first_column};
ghost use Rattle.model.specs.Refusals.{table_ok};
ghost use Rattle.model.specs.Combined.{worst, square_error};
ghost use Rattle.planes.specs.Parts.{splice};
ghost use Rattle.marks.specs.Puts.{held_pixel};
ghost use Rattle.sums.specs.Squares.{Squares};
ghost use Rattle.sums.specs.Sides.{paired};
ghost use Rattle.pixel.specs.Pairs.{edge_right};
ghost use Rattle.row.specs.Drawing.{Ready, pixel_below, Ahead};
ghost use Rattle.strips.specs.Strips.{Beside, span_start, around_lent, own_lent, line_lent, error_with, Summed, Measured, Stretch, RowTrial};

use model::{Pixel, Tear};
use pixel::Pair;

// What is drawn: where rows tear, and a view's table, texture, depths and held limits.
#[derive(Clone, Copy)]
pub struct Source<'a> {
    pub tear: Tear,
    pub table: &'a [u16; 256],
    pub texture: &'a [u16],
    pub depths: &'a [u8],
    pub limits: &'a [i16],
}

// What it is set against: the other view's held planes, the combined picture and the reference, and how the views are combined.
#[derive(Clone, Copy)]
pub struct Counterpart<'a> {
    pub right: bool,
    pub share: u8,
    pub tolerance: u8,
    pub samples: &'a [u16],
    pub fronts: &'a [u8],
    pub marks: &'a [u8],
    pub combined: &'a [u16],
    pub reference: &'a [u16],
}

// The squared errors of some positions: as held, and as the trial shows them.
#[derive(Drop)]
pub struct Sums {
    pub old: u64,
    pub new: u64,
}

// The same of a strip of a row, and the pair from which the positions before it are drawn.
#[derive(Drop)]
struct Strip {
    old: u64,
    new: u64,
    pair: Pair,
}

// The first position that the candidate can change: one quarter below the least of the old and the new places, column by column from the right.
fn span_start(
    right: bool,
    table: &[u16; 256],
    depths: &[u8],
    candidate: &[u8],
    first: usize,
    column: usize,
) -> usize
    requires table_value { table_ok table.now ≡ true }
    requires candidate_in_bounds { (first + length candidate.now ≤ length depths.now) × (length depths.now ≤ 4096) }
    requires candidate_nonzero { (0 < length candidate.now) × (column ≡ first_column right (length depths.now) first (length candidate.now)) }
    ensures { result ≡ span_start (place table.now (seen right depths.now)) (place table.now (splice (seen right depths.now) first (seen right candidate.now))) first (length candidate.now) }
{
    let mut low = places::place_of(right, table, depths, first.saturating_sub(1));
    for n in (0..candidate.len()).rev() {
        let k = planes::entry(right, candidate.len(), n);
        let old = places::place_at(table, first + n, depths[column + k]);
        let new = places::place_at(table, first + n, candidate[k]);
        low = old.min(new).min(low);
    }
    places::first_at(low.saturating_sub(1))
}

// The squared error of the combined sample at entry i, where the view shows q.
fn error_with(squares: &[u32; 1024], o: Counterpart, q: Pixel, i: usize) -> u32
    requires squares { (Squares squares.now) × ((o.share ≤ 64) × (q.sample ≤ greatest)) }
    requires i_in_bounds { (i < length o.samples.now) × ((i < length o.fronts.now) × ((i < 8 * length o.marks.now) × (i < length o.reference.now))) }
    ensures { (result ≡ error_with (around_lent o.entry) q i) × (result ≤ worst) }
{
    let other = marks::held_pixel(o.samples, o.fronts, o.marks, i);
    sums::square_error(
        squares,
        sums::paired(o.right, o.share, o.tolerance, q, other),
        model::sample_in(o.reference, i),
    )
}

// The sums over the entries of a row from `from` on, where the view shows what the strip holds: its samples s, front depths f and marks m.
fn measure(
    squares: &[u32; 1024],
    o: Counterpart,
    from: usize,
    s: &[u16],
    f: &[u8],
    m: &[u8],
) -> Sums
    requires squares { (Squares squares.now) × (o.share ≤ 64) }
    requires beside { Beside (length o.reference.now) o.samples.now o.fronts.now o.marks.now o.combined.now }
    requires s_in_bounds { (from + length s.now ≤ length o.reference.now) × (length o.reference.now ≤ 4096) }
    requires f_len { (length f.now ≡ length s.now) × (length m.now ≡ length s.now) }
    requires by_index { (k : ℕ) → get_or s.now k 0 ≤ greatest }
    ensures { Measured (around_lent o.entry)
        from (length s.now) (λ k. pixel (get_or s.now k 0) (get_or m.now k 0) (get_or f.now k 0)) result.old result.new }
{
    let mut old = 0u64;
    let mut new = 0u64;
    for (k, sample) in s.iter().enumerate() {
        let i = from + k;
        let shown = Pixel {
            sample: *sample,
            mark: m[k],
            front: f[k],
        };
        let error = error_with(squares, o, shown, i);
        new += u64::from(error);
        old += u64::from(sums::error_at(squares, o.combined, o.reference, i));
    }
    Sums { old, new }
}

// The trial of the positions from `start` on: drawn into the strip, samples s, front depths f and marks m, then measured.
fn trial_into(
    squares: &[u32; 1024],
    v: Source,
    o: Counterpart,
    candidate: &[u8],
    column: usize,
    from: Pair,
    start: usize,
    s: &mut [u16],
    f: &mut [u8],
    m: &mut [u8],
) -> Strip
    requires squares { (Squares squares.now) × (o.share ≤ 64) }
    requires beside { Beside (length o.reference.now) o.samples.now o.fronts.now o.marks.now o.combined.now }
    requires ready { (Ready (line_lent v o.right column candidate.now)) × ((column + length candidate.now ≤ length v.depths.now) × (length o.reference.now ≡ length v.depths.now)) }
    requires ahead { (Ahead o.right (line_lent v o.right column candidate.now) (start + length s.old) from) × ((length f.old ≡ length s.old) × (length m.old ≡ length s.old)) }
    ensures { Stretch (around_lent o.entry)
        (line_lent v.entry o.entry.right column candidate.now) start (start + length s.old) from result.pair result.old result.new }
{
    let n = s.len();
    let pair = row::draw_span(
        v.tear, o.right, v.table, v.texture, v.depths, candidate, column, from, start, s, f, m,
    );
    let at = places::part_start(o.right, v.depths.len(), start, start + n);
    let sums = measure(squares, o, at, s, f, m);
    Strip {
        old: sums.old,
        new: sums.new,
        pair,
    }
}

// The same of n positions, at most 32. A strip is short, since it is cleared for every row; a longer span takes several.
fn trial_strip(
    squares: &[u32; 1024],
    v: Source,
    o: Counterpart,
    candidate: &[u8],
    column: usize,
    from: Pair,
    start: usize,
    n: usize,
) -> Strip
    requires squares { (Squares squares.now) × (o.share ≤ 64) }
    requires beside { Beside (length o.reference.now) o.samples.now o.fronts.now o.marks.now o.combined.now }
    requires ready { (Ready (line_lent v o.right column candidate.now)) × ((column + length candidate.now ≤ length v.depths.now) × (length o.reference.now ≡ length v.depths.now)) }
    requires ahead { (Ahead o.right (line_lent v o.right column candidate.now) (start + n) from) × (n ≤ 32) }
    ensures { Stretch (around_lent o.entry)
        (line_lent v.entry o.entry.right column candidate.now) start (start + n) from result.pair result.old result.new }
{
    let mut s = planes::room::<u16, 32>(0);
    let mut f = planes::room::<u8, 32>(0);
    let mut m = planes::room::<u8, 32>(0);
    trial_into(
        squares,
        v,
        o,
        candidate,
        column,
        from,
        start,
        &mut s[..n],
        &mut f[..n],
        &mut m[..n],
    )
}

// The trial of the positions from `start` up to `stop`, strip by strip from the right.
fn trial_strips(
    squares: &[u32; 1024],
    v: Source,
    o: Counterpart,
    candidate: &[u8],
    column: usize,
    from: Pair,
    start: usize,
    stop: usize,
) -> Sums
    requires squares { (Squares squares.now) × (o.share ≤ 64) }
    requires beside { Beside (length o.reference.now) o.samples.now o.fronts.now o.marks.now o.combined.now }
    requires ready { (Ready (line_lent v o.right column candidate.now)) × ((column + length candidate.now ≤ length v.depths.now) × (length o.reference.now ≡ length v.depths.now)) }
    requires ahead { Ahead o.right (line_lent v o.right column candidate.now) stop from }
    ensures { Summed (around_lent o.entry) (length o.entry.reference.now)
        (pixel_below (line_lent v.entry o.entry.right column candidate.now) (from.column + 1) (edge_right from)) (min start stop) stop result.old result.new }
{
    let mut q = from;
    let mut top = stop;
    let mut old = 0u64;
    let mut new = 0u64;
    // no range: the leftmost strip is as long as what is left
    while start < top {
        let bottom = top.saturating_sub(32).max(start);
        let strip = trial_strip(squares, v, o, candidate, column, q, bottom, top - bottom);
        old += strip.old;
        new += strip.new;
        q = strip.pair;
        top = bottom;
    }
    Sums { old, new }
}

// The two sums of a row's trial, over the positions that the candidate can change.
pub fn trial_row(
    squares: &[u32; 1024],
    v: Source,
    o: Counterpart,
    candidate: &[u8],
    first: usize,
) -> Sums
    requires table_value { (table_ok v.table.now ≡ true) × ((Squares squares.now) × (o.share ≤ 64)) }
    requires depths_len { (length v.depths.now ≡ length o.reference.now) × ((length v.texture.now ≡ length o.reference.now) × (length v.limits.now ≡ length o.reference.now)) }
    requires beside { Beside (length o.reference.now) o.samples.now o.fronts.now o.marks.now o.combined.now }
    requires candidate_nonzero { (0 < length candidate.now) × ((first + length candidate.now ≤ length v.depths.now) × (length o.reference.now ≤ 4096)) }
    ensures { RowTrial (around_lent o.entry) (own_lent v.entry) candidate.now first result.old result.new }
{
    let w = v.depths.len();
    let width = candidate.len();
    let n = first + width;
    let column = places::part_start(o.right, w, first, n);
    let start = span_start(o.right, v.table, v.depths, candidate, first, column);
    let next = limits::next_place(o.right, v.table, v.depths, n - 1);
    let high = limits::limit_under(o.right, v.limits, n, next);
    let d0 = places::at(o.right, candidate, width - 1);
    let d1 = places::at(o.right, v.depths, n);
    let edge = limits::edge_of(o.right, v.limits, n, high);
    let from = row::pair_of(o.right, v.table, w, n - 1, d0, d1, next, edge);
    trial_strips(
        squares,
        v,
        o,
        candidate,
        column,
        from,
        start,
        places::first_at(high),
    )
}
