ghost use Rattle.std.specs.Prelude.{◌≡◌, ◌≤◌, [], length, IfOk, is_ok, vec_len, vec_capacity};
ghost use Rattle.lines.specs.Pushed.{Pushed, added};

use acts::Act;
use std::alloc::{AllocError, Global};

// There is no room for one act more.
#[derive(Clone, Copy, PartialEq, Eq, Debug)]
pub struct Full;

// Acts in order, with memory for MOST of them.
#[derive(Drop)]
pub struct ActList<const MOST: usize> {
    acts: Vec<Act>,
    ghost few: { vec_len acts ≤ MOST },
    ghost room: { MOST ≤ vec_capacity acts },
}

impl<const MOST: usize> ActList<MOST> {
    // No act yet.
    pub fn new(heap: Global) -> Result<Self, AllocError>
        ensures { IfOk result (λ l. l.acts.items ≡ []) }
    {
        let acts = Vec::with_capacity(heap, MOST)?;
        Ok(ActList { acts })
    }

    // The acts, first to last.
    pub fn acts(&self) -> &[Act]
        ensures value { result.now ≡ self.now.acts.items }
        ensures short { length result.now ≤ MOST }
    {
        self.acts.as_slice()
    }

    // No act any more.
    pub fn clear(&mut self)
        ensures { self.new.acts.items ≡ [] }
    {
        self.acts.clear();
    }

    // One act more, where there is room for it; a full list stays as it is.
    pub fn push(&mut self, act: Act)
        ensures { self.new.acts.items ≡ added MOST self.old.acts.items act }
    {
        let _ = self.try_push(act);
    }

    // One act more; refused, and nothing changes, where there are MOST already.
    pub fn try_push(&mut self, act: Act) -> Result<(), Full>
        ensures { Pushed MOST (is_ok result) act self.old.acts.items self.new.acts.items }
    {
        if self.acts.len() >= MOST {
            return Err(Full);
        }
        self.acts.push_reserved(act);
        Ok(())
    }
}
