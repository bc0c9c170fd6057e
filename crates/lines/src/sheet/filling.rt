ghost use Rattle.std.specs.Prelude.{◌≡◌, ◌&&◌, [], ◌∷◌, ◌++◌, length, is_ok, IfOk, if◌then◌else◌, nat_le, nat_lt};
ghost use Rattle.lines.specs.Charts.{newest, lengthened};
ghost use Rattle.lines.specs.Of.{lines_of};

use crate::act_list::Full;
use crate::party_line::PartyLine;
use crate::sheet::Sheet;
use acts::Act;
use std::alloc::{AllocError, Global};
use std::array;

// No chart has so many parties.
#[derive(Clone, Copy, PartialEq, Eq, Debug)]
pub struct OutOfRange;

impl Sheet {
    // Two parties and no act, with memory for the largest chart.
    pub fn new(heap: Global) -> Result<Sheet, AllocError>
        ensures { IfOk result (λ s. (s.parties ≡ 2) × (lines_of s ≡ [] ∷ [] ∷ [])) }
    {
        let lines = array::try_from_fn(|_| PartyLine::new(heap))?;
        Ok(Sheet {
            parties: 2,
            begun: 2,
            lines,
        })
    }

    // No parties and no lines.
    pub fn wipe(&mut self)
        ensures parties { self.new.parties ≡ 0 }
        ensures lines { lines_of self.new ≡ [] }
    {
        self.begun = 0;
        self.parties = 0;
    }

    // So many parties, two to six, and no line yet; otherwise refused, and nothing changes.
    pub fn open(&mut self, parties: u8) -> Result<(), OutOfRange>
        ensures test { is_ok result ≡ (nat_le 2 parties && nat_le parties 6) }
        ensures parties { self.new.parties ≡ (if is_ok result then parties else self.old.parties) }
        ensures lines { lines_of self.new ≡ (if is_ok result then [] else lines_of self.old) }
    {
        if !(2..=6).contains(&parties) {
            return Err(OutOfRange);
        }
        self.begun = 0;
        self.parties = parties;
        Ok(())
    }

    // One more line, without acts, while lines are missing; otherwise refused, and nothing changes.
    pub fn begin_line(&mut self) -> Result<(), Full>
        ensures test { is_ok result ≡ nat_lt (length (lines_of self.old)) self.old.parties }
        ensures parties { self.new.parties ≡ self.old.parties }
        ensures lines { lines_of self.new ≡ (if is_ok result then lines_of self.old ++ ([] ∷ []) else lines_of self.old) }
    {
        if self.begun >= self.parties {
            return Err(Full);
        }
        self.lines[usize::from(self.begun)].clear();
        self.begun += 1;
        Ok(())
    }

    // One act more on the last line that has begun; refused, and nothing changes, where there is
    // none or it has 32 acts already.
    pub fn lengthen(&mut self, act: Act) -> Result<(), Full>
        ensures test { is_ok result ≡ (nat_lt 0 (length (lines_of self.old)) && nat_lt (length (newest (lines_of self.old))) 32) }
        ensures parties { self.new.parties ≡ self.old.parties }
        ensures lines { lines_of self.new ≡ (if is_ok result then lengthened (lines_of self.old) act else lines_of self.old) }
    {
        if self.begun == 0 {
            return Err(Full);
        }
        self.lines[usize::from(self.begun - 1)].try_push(act)
    }
}
