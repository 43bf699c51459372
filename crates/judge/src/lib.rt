// 8 judged by the two sums of a trial, and the change of the total.
#![tactic(auto)]

ghost use Rattle.std.specs.Prelude.{◌≡◌, ◌*◌, ◌≤◌};
ghost use Rattle.model.specs.Combined.{worst};
ghost use Rattle.model.specs.Refusals.{answer_number};
ghost use Rattle.judge.specs.Judged.{Judged, verdict};

use model::Refusal;

// The change of the total, and the total after the call.
#[derive(Drop)]
pub struct Decision {
    pub change: i64,
    pub total: u64,
}

// The highest total: 1,046,529 for each position.
pub fn most_total(w: u32, h: u32) -> u64
    requires { (w ≤ 4096) × (h ≤ 4096) }
    ensures { (result ≡ worst * (w * h)) × (result ≤ worst * 16777216) }
{
    1046529 * (u64::from(w) * u64::from(h))
}

// 8 where the total with the change is out of range, else the change.
pub fn judge(total: u64, old: u64, new: u64, most: u64) -> Result<Decision, Refusal>
    requires { (old ≤ worst * 16777216) × ((new ≤ worst * 16777216) × (most ≤ worst * 16777216)) }
    ensures { Judged total old new most 0 (verdict total result) }
{
    if !signed::in_range(total, old, new, most) {
        return Err(Refusal::Total);
    }
    Ok(Decision {
        change: signed::difference(new, old),
        total: signed::moved_total(total, old, new),
    })
}

// 8, else what came `late`, else the change.
pub fn judge_then(
    total: u64,
    old: u64,
    new: u64,
    most: u64,
    late: Result<(), Refusal>,
) -> Result<Decision, Refusal>
    requires { (old ≤ worst * 16777216) × ((new ≤ worst * 16777216) × (most ≤ worst * 16777216)) }
    ensures { Judged total old new most (answer_number late) (verdict total result) }
{
    let decision = judge(total, old, new, most)?;
    late?;
    Ok(decision)
}
