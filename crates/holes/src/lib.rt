// HOLES counts the chosen view's hole marks.
#![tactic(auto)]

ghost use Rattle.std.specs.Prelude.{◌≡◌};
ghost use Rattle.model.specs.Refusals.{answer_number, holes_number};
ghost use Rattle.model.specs.Promises.{HolesPost};
ghost use Rattle.validate.specs.Numbers.{sides};

use model::{Refusal, Settings};

// 1, 2 or 6, the first that applies.
#[tactic(auto, unfolding(model::specs::Refusals::holes_number, model::specs::Refusals::size_ok))]
fn refusal(w: u32, h: u32, view: u32, left: &[u8], right: &[u8]) -> Result<(), Refusal>
    ensures { answer_number result ≡ holes_number (sides w h) view left.now right.now }
{
    if !ranges::side_ok(w) {
        return Err(Refusal::Size);
    }
    if !ranges::side_ok(h) {
        return Err(Refusal::Size);
    }
    let bytes = (w as usize + 7) / 8 * (h as usize);
    if left.len() != bytes || right.len() != bytes {
        return Err(Refusal::Plane);
    }
    if 1 < view {
        return Err(Refusal::View);
    }
    Ok(())
}

// The marks of 1 of the chosen view at positions below w, of all rows.
pub fn holes(settings: Settings, view: u32, left: &[u8], right: &[u8]) -> Result<u64, Refusal>
    ensures { HolesPost settings view left.now right.now result }
{
    refusal(settings.w, settings.h, view, left, right)?;
    let marks = if view == 1 { right } else { left };
    let count = words::holes(marks, settings.w as usize, settings.h as usize);
    Ok(count)
}
