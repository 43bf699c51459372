// A caller of the exported functions that goes by the theorem of a run: it opens a session, sets a candidate and takes it back.
#![tactic(auto)]

ghost use Rattle.model.specs.Planes as planes;
ghost use Rattle.shape.specs.Shapes.{candidate_of, bytes_of};
ghost use Rattle.bound.specs.Answers.{told, Visited};

use model::{Block, Settings};
use shape::Shape;

// The numbers of the three calls. Where OPEN is refused, SET and TAKE BACK are not called, and theirs are 0.
#[derive(Drop)]
pub struct Visit {
    pub opened: u32,
    pub written: u32,
    pub taken: u32,
}

// OPEN, SET of a candidate for a block of a view, and TAKE BACK, all with one journal. SET's change goes to `change`, TAKE BACK's to `back`, and the total to `total`.
pub fn set_and_take_back(
    settings: Settings,
    left: &[u16],
    right: &[u16],
    reference: &[u16],
    leftDepths: &mut [u8],
    rightDepths: &mut [u8],
    leftSamples: &mut [u16],
    leftFronts: &mut [u8],
    leftLimits: &mut [i16],
    leftMarks: &mut [u8],
    rightSamples: &mut [u16],
    rightFronts: &mut [u8],
    rightLimits: &mut [i16],
    rightMarks: &mut [u8],
    combined: &mut [u16],
    journal: &mut [u32],
    view: u32,
    block: Block,
    shape: Shape,
    bytes: &[u8],
    change: &mut i64,
    back: &mut i64,
    total: &mut u64,
) -> Visit
    ensures { Visited settings (planes.pictures left.now right.now reference.now)
        (planes.depths leftDepths.old rightDepths.old) (planes.depths leftDepths.new rightDepths.new)
        (planes.held (planes.view leftSamples.old leftFronts.old leftLimits.old leftMarks.old)
        (planes.view rightSamples.old rightFronts.old rightLimits.old rightMarks.old) combined.old)
        (planes.held (planes.view leftSamples.new leftFronts.new leftLimits.new leftMarks.new)
        (planes.view rightSamples.new rightFronts.new rightLimits.new rightMarks.new) combined.new)
        journal.old journal.new view block (candidate_of shape) (bytes_of shape bytes.now)
        (told change.old back.old total.old) (told change.new back.new total.new) result }
{
    let opened = luphwezane::luph_raw_open(
        settings,
        left,
        right,
        reference,
        leftDepths,
        rightDepths,
        leftSamples,
        leftFronts,
        leftLimits,
        leftMarks,
        rightSamples,
        rightFronts,
        rightLimits,
        rightMarks,
        combined,
        journal,
        total,
    );
    if opened != 0 {
        return Visit {
            opened: opened,
            written: 0,
            taken: 0,
        };
    }
    let mut next = settings;
    next.total = *total;
    let written = luphwezane::luph_raw_set(
        next,
        left,
        right,
        reference,
        leftDepths,
        rightDepths,
        leftSamples,
        leftFronts,
        leftLimits,
        leftMarks,
        rightSamples,
        rightFronts,
        rightLimits,
        rightMarks,
        combined,
        journal,
        view,
        block,
        shape,
        bytes,
        change,
        total,
    );
    let mut edited = next;
    edited.total = *total;
    let taken = luphwezane::luph_raw_take_back(
        edited,
        left,
        right,
        reference,
        leftDepths,
        rightDepths,
        leftSamples,
        leftFronts,
        leftLimits,
        leftMarks,
        rightSamples,
        rightFronts,
        rightLimits,
        rightMarks,
        combined,
        journal,
        back,
        total,
    );
    Visit {
        opened: opened,
        written: written,
        taken: taken,
    }
}
