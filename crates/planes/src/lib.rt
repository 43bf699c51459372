// Lists as planes: parts that are replaced, filled or painted; and the entries of a row as a view reads it.
#![tactic(auto)]

ghost use Rattle.std.specs.Prelude.{◌≡◌, ◌+◌, ◌-◌, ◌<◌, ◌≤◌, length};
ghost use Rattle.model.specs.Views.{entry_of};

// Room for N entries, blank ones.
pub fn room<T: Copy, const N: usize>(blank: T) -> [T; N]
    ensures { N ≡ length result }
{
    [blank; N]
}

// The entry of column c in a row of w: the right view reads the row backwards.
#[tactic(auto, unfolding(model::specs::Views::entry_of))]
pub fn entry(right: bool, w: usize, c: usize) -> usize
    requires { c < w }
    ensures { (result ≡ entry_of right w c) × (result < w) }
{
    if right { w - 1 - c } else { c }
}

// The entry of column c − 1 in a row of w, from the entry e of column c.
#[tactic(auto, unfolding(model::specs::Views::entry_of))]
pub fn left_of(right: bool, w: usize, c: usize, e: usize) -> usize
    requires { (0 < c) × ((c < w) × (e ≡ entry_of right w c)) }
    ensures { (result ≡ entry_of right w (c - 1)) × (result < w) }
{
    if right { e + 1 } else { e - 1 }
}

// The entry of column c + 1 in a row of w, from the entry e of column c.
#[tactic(auto, unfolding(model::specs::Views::entry_of))]
pub fn right_of(right: bool, w: usize, c: usize, e: usize) -> usize
    requires { (c + 1 < w) × (e ≡ entry_of right w c) }
    ensures { (result ≡ entry_of right w (c + 1)) × (result < w) }
{
    if right { e - 1 } else { e + 1 }
}
