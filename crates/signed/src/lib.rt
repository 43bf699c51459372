// The edge of the signed numbers: the gap of a pair, the limits as they are held, and the change of the total.
#![tactic(auto)]

ghost use Rattle.std.specs.Prelude.{◌≡◌, ◌+◌, ◌≤◌, ◌<◌, ◌^◌, pos, nat_abs, ◌+ℤ◌};
ghost use Rattle.std.proofs.Math.IntN.{sub_ℕ};
ghost use Rattle.model.specs.Row.{signed};
ghost use Rattle.model.specs.Refusals.{within};
ghost use Rattle.signed.specs.Limits.{raised_of};

// The gap of the pair whose places are `here` and `next`.
pub fn gap_of(here: u32, next: u32) -> i32
    requires { (here < 65536) × (next < 65536) }
    ensures { result ≡ sub_ℕ next here }
{
    (next as i32) - (here as i32)
}

// A raised limit as it is held.
pub fn limit_of(x: u32) -> i16
    requires { x ≤ 17408 }
    ensures { result ≡ signed x }
{
    (x as i16) - 1024
}

// A held limit as a raised number; one that no row has is read as the nearer end.
pub fn raised_of(limit: i16) -> u32
    ensures { (result ≡ raised_of limit) × (result ≤ 17408) }
{
    (i32::from(limit) + 1024).clamp(0, 17408) as u32
}

// The change from `old` to `new`.
pub fn difference(new: u64, old: u64) -> i64
    requires { (new < 2 ^ 62) × (old < 2 ^ 62) }
    ensures { result ≡ sub_ℕ new old }
{
    (new as i64) - (old as i64)
}

// Whether the held total plus the change from `old` to `new` is neither below 0 nor above `most`.
pub fn in_range(total: u64, old: u64, new: u64, most: u64) -> bool
    requires { (old < 2 ^ 62) × ((new < 2 ^ 62) × (most < 2 ^ 62)) }
    ensures { result ≡ within (pos total +ℤ sub_ℕ new old) most }
{
    total <= most + old && old <= total + new && total + new <= most + old
}

// The total plus the change from `old` to `new`, where it was found in range.
pub fn moved_total(total: u64, old: u64, new: u64) -> u64
    requires { (old ≤ total + new) × (total + new < 2 ^ 64) }
    ensures { result ≡ nat_abs (pos total +ℤ sub_ℕ new old) }
{
    total + new - old
}
