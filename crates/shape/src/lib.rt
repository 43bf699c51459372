// A candidate as C and Rust pass it: a shape by value, and bytes beside it; and the two numbers of the settings that say where rows tear.
#![tactic(auto)]

ghost use Rattle.std.specs.Prelude.{◌≡◌, ◌≤◌};
ghost use Rattle.shape.specs.Shapes.{candidate_of, lent_of};

use model::{Candidate, Point, Split, Tear};

// A candidate, apart from the bytes that are lent with it. Kind 0 is a full block, 1 one value, 2 a line and 3 a mask: a number, since C passes it.
#[repr(C)]
#[derive(Drop)]
pub struct Shape {
    pub kind: u32,
    pub value0: u8,
    pub value1: u8,
    pub startColumn: u32,
    pub startRow: u32,
    pub endColumn: u32,
    pub endRow: u32,
}

// The candidate that a shape stands for; a kind that is none of these is taken for a full block.
#[tactic(auto, unfolding(crate::specs::Shapes::candidate_of))]
impl From<Shape> for Candidate {
    ghost from_gives = { λ shape candidate. candidate ≡ candidate_of shape };

    fn from(shape: Shape) -> Candidate {
        match shape.kind {
            1 => Candidate::Flat(shape.value0),
            2 => Candidate::Regions {
                value0: shape.value0,
                value1: shape.value1,
                split: Split::Line {
                    start: Point {
                        column: shape.startColumn,
                        row: shape.startRow,
                    },
                    end: Point {
                        column: shape.endColumn,
                        row: shape.endRow,
                    },
                },
            },
            3 => Candidate::Regions {
                value0: shape.value0,
                value1: shape.value1,
                split: Split::Mask,
            },
            _ => Candidate::Full,
        }
    }
}

// How many of n bytes are lent on: none with a kind that is not known, which is so refused as a full block without depths, with 7 in its place.
pub fn lent(kind: u32, n: usize) -> usize
    ensures { (result ≡ lent_of kind n) × (result ≤ n) }
{
    if kind <= 3 { n } else { 0 }
}

// The widest gap and the torn distance, which GET is passed one by one.
pub fn tear_of(widestGap: u8, tornDistance: u8) -> Tear
    ensures { result ≡ record { gap = widestGap; distance = tornDistance } }
{
    Tear {
        gap: widestGap,
        distance: tornDistance,
    }
}
