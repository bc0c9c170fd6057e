ghost use Rattle.std.specs.Prelude.{◌≡◌, ◌<◌, true, length, replicate, is_some};
ghost use Rattle.lines.specs.Of.{lines_of};
ghost use Rattle.lines.specs.Progress.{Within, so_far, next_act, passed, left, Chosen};

use crate::sheet::Sheet;
use acts::Act;

// How far the parties have come along the lines of a sheet: how many acts of each line are done.
#[derive(Drop)]
pub struct Progress<'a> {
    sheet: &'a Sheet,
    done: [usize; 6], // beside the lines, which are lent
    ghost within: { Within (lines_of sheet.now) done },
    ghost six: { length done ≡ 6 },
}

impl<'a> Progress<'a> {
    // Nothing is done yet.
    pub fn new(sheet: &'a Sheet) -> Progress<'a>
        ensures sheet { result.sheet.now ≡ sheet.now }
        ensures done { result.done ≡ replicate 6 0 }
    {
        Progress {
            sheet,
            done: [0; 6],
        }
    }

    // The acts of a party so far.
    pub fn so_far(&self, party: u8) -> &[Act]
        ensures { result.now ≡ so_far (lines_of self.now.sheet.now) self.now.done party }
    {
        match self.done.get(usize::from(party)) {
            Some(done) => &self.sheet.line(party)[..*done],
            None => &[],
        }
    }

    // The next act of a party, where its line has one.
    pub fn next(&self, party: u8) -> Option<Act>
        ensures { result ≡ next_act (lines_of self.now.sheet.now) self.now.done party }
    {
        let done = self.done.get(usize::from(party))?;
        self.sheet.line(party).get(*done).copied()
    }

    // The first party whose next act passes the test, with that act. A loop, since a chain's closure
    // would need the test's clauses again.
    pub fn first<F: Fn(Act) -> bool>(&self, test: F) -> Option<(u8, Act)>
        requires { F.IsAlwaysCallable test }
        ensures { Chosen (F.post test) (lines_of self.now.sheet.now) self.now.done result }
    {
        for party in 0..6 {
            if let Some(act) = self.next(party)
                && test(act)
            {
                return Some((party, act));
            }
        }
        None
    }

    // One act more of a party is done, where its line has one.
    pub fn pass(&mut self, party: u8)
        ensures sheet { self.new.sheet.now ≡ self.old.sheet.now }
        ensures done { self.new.done ≡ passed (lines_of self.old.sheet.now) self.old.done party }
        ensures less { is_some (next_act (lines_of self.old.sheet.now) self.old.done party) ≡ true → left self.new.done < left self.old.done }
    {
        if self.next(party).is_some() {
            self.done[usize::from(party)] += 1;
        }
    }
}
