// Values that lie in their ranges: sides, entries of tables and pictures, gaps, saved depths.
#![tactic(auto)]

ghost use Rattle.std.specs.Prelude.{◌≡◌, ◌&&◌};
ghost use Rattle.std.specs.List.{fold};
ghost use Rattle.model.specs.Refusals.{side_ok, up_to, table_ok, tear_ok, picture_ok};

use model::Tear;
use std::ops::BitOr;

// A width or height of 1 to 4,096.
#[tactic(auto, unfolding(model::specs::Refusals::side_ok))]
pub fn side_ok(n: u32) -> bool
    ensures { result ≡ side_ok n }
{
    1 <= n && n <= 4096
}

// The bits of all entries, joined. The loop never stops early: so the compiler takes many entries at a time, which is the quicker way.
fn join<T: BitOr<Output = T> + Copy>(none: T, entries: &[T]) -> T
    requires { (x y : T) → T.can_bitor x y }
    ensures { (or : T → T → T) → ((x y z : T) → T.bitor_gives x y z → z ≡ or x y) → result ≡ fold or none entries.now }
{
    let mut all = none;
    for entry in entries {
        all = all | *entry;
    }
    all
}

// No entry of either table is above 1,023, which is ten bits.
pub fn tables_ok(left: &[u16; 256], right: &[u16; 256]) -> bool
    ensures { result ≡ (table_ok left.now && table_ok right.now) }
{
    join(join(0, left), right) <= 1023
}

// No entry of a picture is above 1,023, which is ten bits.
pub fn picture_ok(picture: &[u16]) -> bool
    ensures { result ≡ picture_ok picture.now }
{
    join(0, picture) <= 1023
}

// A widest gap of 4 to 64, and a distance of at most 3.
#[tactic(auto, unfolding(model::specs::Refusals::tear_ok))]
pub fn tear_ok(tear: Tear) -> bool
    ensures { result ≡ tear_ok tear }
{
    4 <= tear.gap && tear.gap <= 64 && tear.distance <= 3
}

// No word is above 255, which is eight bits.
pub fn depths_ok(words: &[u32]) -> bool
    ensures { result ≡ up_to 255 words.now }
{
    join(0, words) <= 255
}
