// The filters of document 02, card 2, over given samples: what the taps add and take away, divided and held.
#![tactic(auto)]

ghost use Rattle.std.specs.Prelude.{◌≡◌, ◌+◌, ◌-◌, ◌<◌};
ghost use Rattle.taps.specs.Sums.{scaled, quarter_of, half_of};

// What is added less what is taken away, divided by 64 and held to a sample.
#[tactic(auto, unfolding(crate::specs::Sums::scaled))]
fn scale(added: u32, taken: u32) -> u16
    ensures { result ≡ scaled added taken }
{
    (added.saturating_sub(taken) / 64).min(1023) as u16
}

// A quarter of the way from s3 to s4.
#[tactic(auto, unfolding(crate::specs::Sums::quarter_of))]
pub fn quarter_of(s0: u16, s1: u16, s2: u16, s3: u16, s4: u16, s5: u16, s6: u16) -> u16
    ensures { result ≡ quarter_of s0 s1 s2 s3 s4 s5 s6 }
{
    let added = 4 * s1 as u32 + 58 * s3 as u32 + 17 * s4 as u32 + s6 as u32 + 32;
    let taken = s0 as u32 + 10 * s2 as u32 + 5 * s5 as u32;
    scale(added, taken)
}

// Half of the way from s3 to s4.
#[tactic(auto, unfolding(crate::specs::Sums::half_of))]
pub fn half_of(s0: u16, s1: u16, s2: u16, s3: u16, s4: u16, s5: u16, s6: u16, s7: u16) -> u16
    ensures { result ≡ half_of s0 s1 s2 s3 s4 s5 s6 s7 }
{
    let added = 4 * (s1 as u32 + s6 as u32) + 40 * (s3 as u32 + s4 as u32) + 32;
    let taken = s0 as u32 + s7 as u32 + 11 * (s2 as u32 + s5 as u32);
    scale(added, taken)
}
