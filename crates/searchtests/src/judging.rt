ghost use Rattle.std.specs.Prelude.{◌≡◌, ◌*◌, ◌<◌, ◌≤◌, length, replicate, MatchResult};
ghost use Rattle.search.specs.Answers.{Answer};
ghost use Rattle.searchtests.specs.Refused.{RefusedAs};

use acts::Act;
use search::graph::Graph;
use search::scratch::Scratch;
use search::searching::{Found, search};

// Why nothing is searched.
#[derive(Clone, Copy, PartialEq, Eq, Debug)]
pub enum Refused {
    NothingHeld,
    TooFewCells,
}

fn held(count: u8) -> Result<(), Refused>
    ensures { MatchResult result (λ _. 0 < count) (λ e. (e ≡ Refused.NothingHeld) × (count ≡ 0)) }
{
    if count == 0 {
        return Err(Refused::NothingHeld);
    }
    Ok(())
}

// A search that may be refused: the cells are zero after it, whichever way it ends.
pub fn judge<G: Graph>(
    graph: &mut G,
    count: u8,
    cells: &mut [u32],
    list: &mut [Act],
) -> Result<Option<Found>, Refused>
    requires room { (G.Graph.problem (G.Graph.fixed graph.old)).longest ≤ length list.old }
    ensures clean { cells.new ≡ replicate (length cells.old) 0 }
    ensures answer { MatchResult result (λ o. Answer (G.Graph.problem (G.Graph.fixed graph.old)) list.new o) (λ e. RefusedAs count (2 * (G.Graph.problem (G.Graph.fixed graph.old)).size) (length cells.old) e) }
    ensures fixed { G.Graph.fixed graph.new ≡ G.Graph.fixed graph.old }
{
    let mut scratch = Scratch::new(cells);
    held(count)?;
    if scratch.len() / 2 < graph.size() as usize {
        return Err(Refused::TooFewCells);
    }
    Ok(search(graph, &mut scratch, list))
}
