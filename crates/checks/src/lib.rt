// CHECK compares every held entry with a fresh drawing.
#![tactic(auto)]

ghost use Rattle.model.specs.Planes.{pictures, depths, view, held};
ghost use Rattle.model.specs.Promises.{CheckPost};

use model::{Refusal, Report, Settings};
use validate::{Lengths, ViewLengths};

// Compares every held entry with a fresh drawing, then the total.
#[tactic(auto, using(crate::proofs::Ways::refused, crate::proofs::Ways::accepted))]
pub fn check(
    settings: Settings,
    left: &[u16],
    right: &[u16],
    reference: &[u16],
    leftDepths: &[u8],
    rightDepths: &[u8],
    leftSamples: &[u16],
    leftFronts: &[u8],
    leftLimits: &[i16],
    leftMarks: &[u8],
    rightSamples: &[u16],
    rightFronts: &[u8],
    rightLimits: &[i16],
    rightMarks: &[u8],
    combined: &[u16],
) -> Result<Report, Refusal>
    ensures { CheckPost settings
        (pictures left.now right.now reference.now)
        (depths leftDepths.now rightDepths.now)
        (held (view leftSamples.now leftFronts.now leftLimits.now leftMarks.now)
        (view rightSamples.now rightFronts.now rightLimits.now rightMarks.now)
        combined.now) result }
{
    let leftTable = &settings.left;
    let rightTable = &settings.right;
    let tear = settings.tear;
    let lengths = Lengths {
        left: ViewLengths {
            texture: left.len(),
            depths: leftDepths.len(),
            samples: leftSamples.len(),
            fronts: leftFronts.len(),
            limits: leftLimits.len(),
            marks: leftMarks.len(),
        },
        right: ViewLengths {
            texture: right.len(),
            depths: rightDepths.len(),
            samples: rightSamples.len(),
            fronts: rightFronts.len(),
            limits: rightLimits.len(),
            marks: rightMarks.len(),
        },
        reference: reference.len(),
        combined: combined.len(),
    };
    validate::common(
        settings.w,
        settings.h,
        leftTable,
        rightTable,
        settings.share,
        tear,
        lengths,
    )?;
    let squares = sums::squares();
    let found = scan::walk(
        settings.w as usize,
        settings.h as usize,
        leftTable,
        rightTable,
        settings.share,
        settings.tolerance,
        tear,
        &squares,
        left,
        right,
        reference,
        leftDepths,
        rightDepths,
        leftSamples,
        leftFronts,
        leftLimits,
        leftMarks,
        rightSamples,
        rightFronts,
        rightLimits,
        rightMarks,
        combined,
    );
    Ok(scan::verdict(found, settings.total))
}
