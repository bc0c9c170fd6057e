ghost use Rattle.std.specs.Prelude.{◌≡◌, ◌+◌, ◌^◌, ◌<◌, ◌≤◌, length, drop};
ghost use Rattle.fault.specs.declared.FileCause.TheVariants.{Ends};
ghost use Rattle.files.specs.Answers.{file_fault};

use fault::{Fault, FileCause};

// A lent file, and the place in it where the next command is due.
#[derive(Drop)]
pub struct Cursor<'a> {
    file: &'a [u8],
    place: usize,
    ghost within: { place ≤ length file.now },
}

impl<'a> Cursor<'a> {
    // At the front of the file.
    pub fn new(file: &'a [u8]) -> Cursor<'a>
        ensures file { result.file.now ≡ file.now }
        ensures front { result.place ≡ 0 }
    {
        Cursor { file, place: 0 }
    }

    // The bytes from the place on.
    pub fn rest(&self) -> &'a [u8]
        ensures value { result.now ≡ drop self.now.place self.now.file.now }
        ensures len { length result.now + self.now.place ≡ length self.now.file.now }
    {
        &self.file[self.place..]
    }

    // Goes on behind so many bytes.
    pub fn pass(&mut self, bytes: usize)
        requires { self.old.place + bytes ≤ length self.old.file.now }
        ensures file { self.new.file.now ≡ self.old.file.now }
        ensures place { self.new.place ≡ self.old.place + bytes }
    {
        self.place += bytes;
    }

    // The fault of a byte so far behind the place.
    pub fn fault(&self, cause: FileCause, behind: usize) -> Fault
        requires { behind < 2 ^ 63 }
        ensures { result ≡ file_fault cause (self.now.place + behind) }
    {
        Fault::new(cause, self.place + behind)
    }

    // The fault of a file that ends too early.
    pub fn cut_short(&self) -> Fault
        ensures { result ≡ file_fault Ends (length self.now.file.now) }
    {
        Fault::new(FileCause::Ends, self.file.len())
    }
}
