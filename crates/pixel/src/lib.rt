// What one position shows, from its owner, the column after it and the near edge beyond.
#![tactic(auto)]

ghost use Rattle.std.specs.Prelude.{◌≡◌, ◌+◌, ◌-◌, ◌≤◌, ◌<◌, length};
ghost use Rattle.model.specs.Row.{sample_in, step_of, mixed, pixel};
ghost use Rattle.model.specs.Views.{seen, entry_of};
ghost use Rattle.pixel.specs.Pairs.{Among, reached, smooth_of, torn_of, last_of, kind_pixel, pixel_of, at_edge, front_past};

use model::{Pixel, Tear};

// The near edge right of some columns: the limit of the column after them, and the greatest column placed there. At the row's end none is, and
// the column is the one past the last.
#[derive(Clone, Copy)]
pub struct Edge {
    pub limit: u32,
    pub column: usize,
}

// A column and the one after it, as the view reads the row: the column and its entry, the two depths and the two places; and the near edge
// right of the column, its limit and the greatest column placed there. Where the column is the last of its row, `next` is the row's end.
#[derive(Clone, Copy)]
pub struct Pair {
    pub column: usize,
    pub entry: usize,
    pub d0: u8,
    pub d1: u8,
    pub here: u32,
    pub next: u32,
    pub limit: u32,
    pub front: usize,
}

// 1 where x is at least m, else 0.
fn reaches(x: u32, m: u32) -> u32
    ensures { (result ≡ reached x m) × (result ≤ 1) }
{
    (m <= x) as u32
}

// The step k, t quarters into a smooth pair, (8 × t + gap) div (2 × gap): how many multiples of 2 × gap are reached. A gap of 4, that of
// equal depths, is by far the commonest, and there the step is t.
fn step_of(t: u32, gap: u32) -> u32
    requires { (t < gap) × (gap < 65536) }
    ensures { (result ≡ step_of t gap) × (result ≤ 4) }
{
    if gap == 4 {
        return t;
    }
    let x = 8 * t + gap;
    reaches(x, 2 * gap) + reaches(x, 4 * gap) + reaches(x, 6 * gap) + reaches(x, 8 * gap)
}

// The sample of column c, whose entry is e.
fn sample_at(right: bool, texture: &[u16], c: usize, e: usize) -> u16
    requires { (c < length texture.now) × (e ≡ entry_of right (length texture.now) c) }
    ensures { result ≡ sample_in (seen right texture.now) c }
{
    model::sample_in(texture, e)
}

// The sample of the column after c, whose entry is e.
fn sample_after(right: bool, texture: &[u16], c: usize, e: usize) -> u16
    requires { (c + 1 < length texture.now) × (e ≡ entry_of right (length texture.now) c) }
    ensures { result ≡ sample_in (seen right texture.now) (c + 1) }
{
    let after = planes::right_of(right, texture.len(), c, e);
    model::sample_in(texture, after)
}

// The sample k quarters of the way from column c, whose entry is e, to the next. The right view reads the same filters backwards.
fn mix(right: bool, texture: &[u16], c: usize, e: usize, k: u32) -> u16
    requires k_bound { (k ≤ 4) × (length texture.now ≤ 4096) }
    requires c_in_bounds { (c + 1 < length texture.now) × (e ≡ entry_of right (length texture.now) c) }
    ensures { result ≡ mixed (seen right texture.now) c k }
{
    if right {
        filter::between(texture, e - 1, 4 - k)
    } else {
        filter::between(texture, e, k)
    }
}

// What a smooth pair shows at t.
fn smooth_pixel(right: bool, texture: &[u16], q: Pair, t: u32) -> Pixel
    requires among { (Among right (length texture.now) q) × (q.column + 1 < length texture.now) }
    requires t_bound { (t < q.next - q.here) × (q.next < 65536) }
    ensures { result ≡ smooth_of (seen right texture.now) q t }
{
    let k = step_of(t, q.next - q.here);
    Pixel {
        sample: mix(right, texture, q.column, q.entry, k),
        mark: 0,
        front: q.d0,
    }
}

// What a torn pair shows at t: the near column up to the distance past it, then the far one, as a hole.
fn torn_pixel(tear: Tear, right: bool, texture: &[u16], q: Pair, t: u32) -> Pixel
    requires { (Among right (length texture.now) q) × (q.column + 1 < length texture.now) }
    ensures { result ≡ torn_of tear (seen right texture.now) q t }
{
    if t <= tear.distance as u32 {
        Pixel {
            sample: sample_at(right, texture, q.column, q.entry),
            mark: 0,
            front: q.d0,
        }
    } else {
        Pixel {
            sample: sample_after(right, texture, q.column, q.entry),
            mark: 1,
            front: q.d1,
        }
    }
}

// What the last column shows at t: a hole from beyond the distance on.
fn last_pixel(tear: Tear, right: bool, texture: &[u16], q: Pair, t: u32) -> Pixel
    requires { Among right (length texture.now) q }
    ensures { result ≡ last_of tear (seen right texture.now) q t }
{
    Pixel {
        sample: sample_at(right, texture, q.column, q.entry),
        mark: ((tear.distance as u32) < t) as u8,
        front: q.d0,
    }
}

// What a pair shows at t, by its kind, which follows from its gap.
fn kind_pixel(tear: Tear, right: bool, texture: &[u16], q: Pair, t: u32) -> Pixel
    requires among { (Among right (length texture.now) q) × (q.column + 1 < length texture.now) }
    requires t_bound { (t < q.next - q.here) × (q.next < 65536) }
    ensures { result ≡ kind_pixel tear (seen right texture.now) q t }
{
    let gap = signed::gap_of(q.here, q.next);
    match gap {
        ..=0 => Pixel {
            sample: sample_at(right, texture, q.column, q.entry),
            mark: 0,
            front: q.d0,
        },
        1.. => {
            if (tear.gap as i32) < gap {
                torn_pixel(tear, right, texture, q, t)
            } else {
                smooth_pixel(right, texture, q, t)
            }
        }
    }
}

// What x shows by the pair's column itself, where that owns it.
pub fn pixel_of(tear: Tear, right: bool, texture: &[u16], q: Pair, x: u32) -> Pixel
    requires among { Among right (length texture.now) q }
    requires here_le_x { (q.here ≤ x) × ((x < q.next) × (q.next < 65536)) }
    ensures { result ≡ pixel_of tear (seen right texture.now) q x }
{
    let t = x - q.here;
    if texture.len() <= q.column + 1 {
        last_pixel(tear, right, texture, q, t)
    } else {
        kind_pixel(tear, right, texture, q, t)
    }
}

// Whether x shows the near edge at `limit`: it is at most a quarter away, and the column after the owner, placed at `next`, lies beyond it.
pub fn at_edge(limit: u32, next: u32, x: u32) -> bool
    requires { x < limit }
    ensures { result ≡ at_edge limit next x }
{
    limit < next && limit - x <= 1
}

// What a near edge shows: sample and depth of its column, whose entry is e.
pub fn edge_pixel(right: bool, texture: &[u16], c: usize, e: usize, depth: u8) -> Pixel
    requires { (c < length texture.now) × (e ≡ entry_of right (length texture.now) c) }
    ensures { result ≡ pixel (sample_in (seen right texture.now) c) 0 depth }
{
    let mark = 0;
    Pixel {
        sample: sample_at(right, texture, c, e),
        mark,
        front: depth,
    }
}

// The greatest column placed at the limit of the pair's column: the pair's own where it is placed before the limit of the next, so that of
// columns placed there the greatest stays.
pub fn front_past(q: Pair) -> usize
    ensures { result ≡ front_past q }
{
    if q.here < q.limit { q.column } else { q.front }
}
