// Where the columns of a row are placed, and what they are read from, as a view reads the row.
#![tactic(auto)]

ghost use Rattle.std.specs.Prelude.{◌≡◌, true, ◌+◌, ◌-◌, ◌≤◌, ◌<◌, min, length, get_or, set};
ghost use Rattle.model.specs.Row.{quarter, place, least as leastOf};
ghost use Rattle.model.specs.Views.{seen};
ghost use Rattle.model.specs.Span.{first_column};
ghost use Rattle.model.specs.Refusals.{table_ok};
ghost use Rattle.planes.specs.Parts.{splice};
ghost use Rattle.places.specs.Positions.{first_at};

// What stands at column c, as the view reads the row; 0 past its end.
#[tactic(auto, using(model::proofs::Views::get_or_seen))]
pub fn at(right: bool, row: &[u8], c: usize) -> u8
    ensures { result ≡ get_or (seen right row.now) c 0 }
{
    if c < row.len() {
        let i = planes::entry(right, row.len(), c);
        row[i]
    } else {
        0
    }
}

// Stores a limit at column c, as the view reads the row.
pub fn put_limit(right: bool, row: &mut [i16], c: usize, v: i16)
    requires { c < length row.old }
    ensures { seen right row.new ≡ set (seen right row.old) c v }
{
    let i = planes::entry(right, row.len(), c);
    row[i] = v;
}

// The place of column c at depth d, raised by 1,024.
#[tactic(auto, using(model::proofs::Refusals::table_most))]
pub fn place_at(table: &[u16; 256], c: usize, d: u8) -> u32
    requires { (table_ok table.now ≡ true) × (c ≤ 4096) }
    ensures { result ≡ quarter c - get_or table.now d 0 }
{
    4 * c as u32 + 1024 - u32::from(table[usize::from(d)])
}

// The place of column c, raised by 1,024.
#[tactic(auto, unfolding(model::specs::Row::place))]
pub fn place_of(right: bool, table: &[u16; 256], depths: &[u8], c: usize) -> u32
    requires { (table_ok table.now ≡ true) × (c ≤ 4096) }
    ensures { result ≡ place table.now (seen right depths.now) c }
{
    place_at(table, c, at(right, depths, c))
}

// The first position at or past x.
pub fn first_at(x: u32) -> usize
    ensures { result ≡ first_at x }
{
    (x.saturating_sub(1021) / 4) as usize
}

// The first entry of the part that holds positions `start` to `end` of a row of w.
#[tactic(auto, unfolding(model::specs::Span::first_column))]
pub fn part_start(right: bool, w: usize, start: usize, end: usize) -> usize
    requires { (start ≤ end) × (end ≤ w) }
    ensures { (result ≡ first_column right w start (end - start)) × (result + (end - start) ≤ w) }
{
    if right { w - end } else { start }
}

// The depth at entry e of a row, with the candidate in the entries from `column` on.
#[tactic(auto, using(planes::proofs::Splices::splice_under, planes::proofs::Splices::splice_inside, planes::proofs::Splices::splice_beyond))]
pub fn tried_at(depths: &[u8], candidate: &[u8], column: usize, e: usize) -> u8
    requires { (e < length depths.now) × (column + length candidate.now ≤ length depths.now) }
    ensures { result ≡ get_or (splice depths.now column candidate.now) e 0 }
{
    if e < column {
        return depths[e];
    }
    if column + candidate.len() <= e {
        return depths[e];
    }
    candidate[e - column]
}

// The least of `top` and the places of the n columns from `from` on, as the view reads the row.
#[tactic(auto, using(crate::proofs::Lows::least_none, crate::proofs::Lows::least_back, crate::proofs::Lows::least_all))]
pub fn least_place(
    right: bool,
    table: &[u16; 256],
    depths: &[u8],
    from: usize,
    n: usize,
    top: u32,
) -> u32
    requires { (table_ok table.now ≡ true) × (from + n ≤ 4096) }
    ensures { result ≡ leastOf (place table.now (seen right depths.now)) top from n }
{
    let mut low = top;
    for i in (0..n).rev() {
        low = place_of(right, table, depths, from + i).min(low);
    }
    low
}

// The least place of column a − 1 and of the n columns from a on.
pub fn row_low(right: bool, table: &[u16; 256], depths: &[u8], a: usize, n: usize) -> u32
    requires { (table_ok table.now ≡ true) × (a + n ≤ 4096) }
    ensures { result ≡ leastOf (place table.now (seen right depths.now)) (place table.now (seen right depths.now) (a - 1)) a n }
{
    let top = place_of(right, table, depths, a.saturating_sub(1));
    least_place(right, table, depths, a, n, top)
}
