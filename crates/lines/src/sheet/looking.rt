ghost use Rattle.std.specs.Prelude.{◌≡◌, ◌≤◌, length};
ghost use Rattle.acts.specs.Acts.{line};
ghost use Rattle.acts.specs.Language.{size};
ghost use Rattle.lines.specs.Of.{lines_of};

use crate::sheet::Sheet;
use acts::Act;

impl Sheet {
    // How many parties there are.
    pub fn parties(&self) -> u8
        ensures { result ≡ self.now.parties }
    {
        self.parties
    }

    // How many lines have begun.
    pub fn begun(&self) -> u8
        ensures { result ≡ length (lines_of self.now) }
    {
        self.begun
    }

    // The acts of a party's line; none where it has no line. That they are few is a clause here and
    // where a chart lends them: a slice, which every reader of a line takes, can't keep it.
    pub fn line(&self, party: u8) -> &[Act]
        ensures acts { result.now ≡ line (lines_of self.now) party }
        ensures short { length result.now ≤ 32 }
    {
        if party < self.begun {
            self.lines[usize::from(party)].acts()
        } else {
            &[]
        }
    }

    // How many acts all lines hold.
    pub fn size(&self) -> usize
        ensures { result ≡ size (lines_of self.now) }
    {
        let begun = &self.lines[..usize::from(self.begun)];
        begun.iter().map(|line| line.acts().len()).sum()
    }
}
