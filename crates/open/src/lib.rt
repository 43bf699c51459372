// OPEN: all held planes filled afresh, the journal emptied, and the settings with their total.
#![tactic(auto)]

ghost use Rattle.model.specs.Planes.{pictures, depths, view, held};
ghost use Rattle.model.specs.Replies.{open_reply};
ghost use Rattle.model.specs.Promises.{OpenPost};

use model::{Refusal, Settings};
use validate::{Lengths, ViewLengths};

// OPEN fills all held planes from the pictures and depths, empties the journal, and answers the settings with the total; a total passed in is ignored.
pub fn open(
    settings: Settings,
    left: &[u16],
    right: &[u16],
    reference: &[u16],
    leftDepths: &[u8],
    rightDepths: &[u8],
    leftSamples: &mut [u16],
    leftFronts: &mut [u8],
    leftLimits: &mut [i16],
    leftMarks: &mut [u8],
    rightSamples: &mut [u16],
    rightFronts: &mut [u8],
    rightLimits: &mut [i16],
    rightMarks: &mut [u8],
    combined: &mut [u16],
    journal: &mut [u32],
) -> Result<Settings, Refusal>
    ensures { OpenPost settings (pictures left.now right.now reference.now) (depths leftDepths.now rightDepths.now)
        (held (view leftSamples.old leftFronts.old leftLimits.old leftMarks.old)
        (view rightSamples.old rightFronts.old rightLimits.old rightMarks.old) combined.old)
        (held (view leftSamples.new leftFronts.new leftLimits.new leftMarks.new)
        (view rightSamples.new rightFronts.new rightLimits.new rightMarks.new) combined.new)
        journal.old journal.new (open_reply settings result) }
{
    lists::open_refusal(
        settings.w,
        settings.h,
        &settings.left,
        &settings.right,
        settings.share,
        settings.tear,
        Lengths {
            left: ViewLengths {
                texture: left.len(),
                depths: leftDepths.len(),
                samples: leftSamples.len(),
                fronts: leftFronts.len(),
                limits: leftLimits.len(),
                marks: leftMarks.len(),
            },
            right: ViewLengths {
                texture: right.len(),
                depths: rightDepths.len(),
                samples: rightSamples.len(),
                fronts: rightFronts.len(),
                limits: rightLimits.len(),
                marks: rightMarks.len(),
            },
            reference: reference.len(),
            combined: combined.len(),
        },
        journal.len(),
        left,
        right,
        reference,
    )?;
    let total = fresh::fill(
        &settings.left,
        &settings.right,
        settings.share,
        settings.tolerance,
        settings.tear,
        settings.w as usize,
        settings.h as usize,
        left,
        right,
        reference,
        leftDepths,
        rightDepths,
        leftSamples,
        leftFronts,
        leftLimits,
        leftMarks,
        rightSamples,
        rightFronts,
        rightLimits,
        rightMarks,
        combined,
    );
    journal[0] = 0;
    Ok(Settings { total, ..settings })
}
