ghost use Rattle.std.specs.Prelude.{ℕ, ◌<◌, ◌≤◌, [], length, vec_len, vec_capacity, slice_index_or};
ghost use Rattle.numbering.specs.Numbering.{Apart};
ghost use Rattle.views.specs.Spelled.{spelled, Earlier};

use crate::view::View;

mod building;
mod moving;

// The views of one party by number, with memory for as many as eight charts can give. Each but the
// first lengthens an earlier one, and no two are the same list of acts.
#[derive(Drop)]
pub struct PartyViews {
    views: Vec<View>,
    ghost some: { 0 < vec_len views },
    ghost few: { vec_len views ≤ 257 },
    ghost room: { 257 ≤ vec_capacity views },
    ghost earlier: { Earlier views.items },
    ghost apart: { Apart (spelled views.items) },
    ghost short: { (k : ℕ) → length (slice_index_or (spelled views.items) k []) ≤ 32 },
}
