// MOVE: the depths as they stand, drawn anew from another seat.
#![tactic(auto)]

ghost use Rattle.std.specs.Prelude.{◌≡◌};
ghost use Rattle.model.specs.Planes.{pictures, depths, view, held, with_seat};
ghost use Rattle.model.specs.Replies.{open_reply};
ghost use Rattle.model.specs.Promises.{MovePost};

use model::{Refusal, Settings};

// The settings with the tables, share, tolerance and tear of others; w, h and total stay.
fn with_seat(settings: Settings, to: Settings) -> Settings
    ensures { result ≡ with_seat settings to }
{
    Settings {
        w: settings.w,
        h: settings.h,
        total: settings.total,
        ..to
    }
}

// MOVE is OPEN with the new settings over the depths as they stand, and so is judged, draws and empties the journal as OPEN does.
#[tactic(auto, using(crate::proofs::Moving::answered))]
pub fn move_seat(
    settings: Settings,
    to: Settings,
    left: &[u16],
    right: &[u16],
    reference: &[u16],
    leftDepths: &[u8],
    rightDepths: &[u8],
    leftSamples: &mut [u16],
    leftFronts: &mut [u8],
    leftLimits: &mut [i16],
    leftMarks: &mut [u8],
    rightSamples: &mut [u16],
    rightFronts: &mut [u8],
    rightLimits: &mut [i16],
    rightMarks: &mut [u8],
    combined: &mut [u16],
    journal: &mut [u32],
) -> Result<Settings, Refusal>
    ensures { MovePost settings to (pictures left.now right.now reference.now) (depths leftDepths.now rightDepths.now)
        (held (view leftSamples.old leftFronts.old leftLimits.old leftMarks.old)
        (view rightSamples.old rightFronts.old rightLimits.old rightMarks.old) combined.old)
        (held (view leftSamples.new leftFronts.new leftLimits.new leftMarks.new)
        (view rightSamples.new rightFronts.new rightLimits.new rightMarks.new) combined.new)
        journal.old journal.new (open_reply settings result) }
{
    open::open(
        with_seat(settings, to),
        left,
        right,
        reference,
        leftDepths,
        rightDepths,
        leftSamples,
        leftFronts,
        leftLimits,
        leftMarks,
        rightSamples,
        rightFronts,
        rightLimits,
        rightMarks,
        combined,
        journal,
    )
}
