// 7, 14 and 15: what a candidate of each kind asks of its block and of the bytes lent with it.
#![tactic(auto)]

ghost use Rattle.std.specs.Prelude.{◌≡◌, ◌&&◌, ◌||◌, ◌+◌, ◌<◌, eqb};
ghost use Rattle.model.specs.Candidates.{on_border, side_shared, line_ok};
ghost use Rattle.model.specs.Refusals.{answer_number, candidate_then};

use model::{Block, Candidate, Point, Refusal, Split};

// Number i of a side of n is the first or the last.
fn at_end(i: u32, n: u32) -> bool
    requires { i < n }
    ensures { result ≡ (eqb i 0 || eqb (i + 1) n) }
{
    i < 1 || n - i == 1
}

// Numbers i and j of a side of n are both the first or both the last.
fn both_at_end(i: u32, j: u32, n: u32) -> bool
    requires { i < n }
    ensures { result ≡ ((eqb i 0 && eqb j 0) || (eqb (i + 1) n && eqb (j + 1) n)) }
{
    i == j && at_end(i, n)
}

// A point of the block that lies in its first or last column or row.
#[tactic(auto, unfolding(model::specs::Candidates::on_border))]
fn on_border(block: Block, p: Point) -> bool
    ensures { result ≡ on_border block p }
{
    p.column < block.width
        && p.row < block.height
        && (at_end(p.column, block.width) || at_end(p.row, block.height))
}

// Two points with a side of the block in common: its first or last column or row.
#[tactic(auto, unfolding(model::specs::Candidates::side_shared))]
fn side_shared(block: Block, p: Point, q: Point) -> bool
    requires { (p.column < block.width) × (p.row < block.height) }
    ensures { result ≡ side_shared block p q }
{
    both_at_end(p.column, q.column, block.width) || both_at_end(p.row, q.row, block.height)
}

// A line has two border points of the block with no side in common.
#[tactic(auto, using(model::proofs::Candidates::border_inside), unfolding(model::specs::Candidates::line_ok))]
fn line_ok(block: Block, start: Point, end: Point) -> bool
    ensures { result ≡ line_ok block start end }
{
    on_border(block, start) && on_border(block, end) && !side_shared(block, start, end)
}

// 7, 14 or 15 by the candidate's kind, none for one value; n is the number of bytes lent with it.
#[tactic(auto, unfolding(model::specs::Refusals::candidate_then))]
pub fn candidate_refusal(block: Block, candidate: Candidate, n: usize) -> Result<(), Refusal>
    ensures { answer_number result ≡ candidate_then block candidate n 0 }
{
    let area = (block.width as usize) * (block.height as usize);
    match candidate {
        Candidate::Full if n != area => Err(Refusal::Candidate),
        Candidate::Regions {
            split: Split::Line { start, end },
            ..
        } if !line_ok(block, start, end) => Err(Refusal::Line),
        Candidate::Regions {
            split: Split::Mask,
            ..
        } if n != (area + 7) / 8 => Err(Refusal::Mask),
        _ => Ok(()),
    }
}
