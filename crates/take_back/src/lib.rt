// TAKE BACK writes the newest record's depths into its block as a SET of them would, and strikes the record.
#![tactic(auto)]

ghost use Rattle.model.specs.Planes as planes;
ghost use Rattle.model.specs.Promises.{TakeBackPost};
ghost use Rattle.model.specs.Replies.{edit_reply};

use model::{Edited, Refusal, Settings};
use validate::{Lengths, ViewLengths};

// The change of the total and the settings with the new total, or the first refusal that applies, which leaves everything as it was.
pub fn take_back(
    settings: Settings,
    left: &[u16],
    right: &[u16],
    reference: &[u16],
    leftDepths: &mut [u8],
    rightDepths: &mut [u8],
    leftSamples: &mut [u16],
    leftFronts: &mut [u8],
    leftLimits: &mut [i16],
    leftMarks: &mut [u8],
    rightSamples: &mut [u16],
    rightFronts: &mut [u8],
    rightLimits: &mut [i16],
    rightMarks: &mut [u8],
    combined: &mut [u16],
    journal: &mut [u32],
) -> Result<Edited, Refusal>
    ensures { TakeBackPost settings
        (planes.pictures left.now right.now reference.now)
        (planes.depths leftDepths.old rightDepths.old)
        (planes.depths leftDepths.new rightDepths.new)
        (planes.held (planes.view leftSamples.old leftFronts.old leftLimits.old leftMarks.old) (planes.view rightSamples.old rightFronts.old rightLimits.old rightMarks.old) combined.old)
        (planes.held (planes.view leftSamples.new leftFronts.new leftLimits.new leftMarks.new) (planes.view rightSamples.new rightFronts.new rightLimits.new rightMarks.new) combined.new)
        journal.old journal.new (edit_reply settings result) }
{
    let lengths = Lengths {
        left: ViewLengths {
            texture: left.len(),
            depths: leftDepths.len(),
            samples: leftSamples.len(),
            fronts: leftFronts.len(),
            limits: leftLimits.len(),
            marks: leftMarks.len(),
        },
        right: ViewLengths {
            texture: right.len(),
            depths: rightDepths.len(),
            samples: rightSamples.len(),
            fronts: rightFronts.len(),
            limits: rightLimits.len(),
            marks: rightMarks.len(),
        },
        reference: reference.len(),
        combined: combined.len(),
    };
    let tear = settings.tear;
    lists::take_back_refusal(
        settings.w,
        settings.h,
        &settings.left,
        &settings.right,
        settings.share,
        tear,
        lengths,
        journal,
    )?;
    let record = records::newest_record(journal);
    let block = record.block;
    let from = record.from;
    let to = record.to;
    let restored = restore::restore_view(
        settings.w,
        settings.h,
        &settings.left,
        &settings.right,
        settings.share,
        settings.tolerance,
        tear,
        settings.total,
        left,
        right,
        reference,
        leftDepths,
        rightDepths,
        leftSamples,
        leftFronts,
        leftLimits,
        leftMarks,
        rightSamples,
        rightFronts,
        rightLimits,
        rightMarks,
        combined,
        record.view,
        block,
        &journal[from..to],
    );
    let decision = records::strike(restored, record.before, journal)?;
    Ok(Edited {
        change: decision.change,
        settings: Settings {
            total: decision.total,
            ..settings
        },
    })
}
