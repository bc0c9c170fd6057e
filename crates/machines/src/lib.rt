// The machine file and the list file; each function's contract is a theorem about them.

#![tactic(auto)]

ghost use Rattle.machines.specs.Theorems.{FileIsViews, FileTells, FileFits};
ghost use Rattle.machines.specs.Worked.{WorkedFiles};

// The family that the machine file gives does the same as the family of the views.
pub fn file_is_views()
    ensures { FileIsViews }
{}

// Where nothing breaks, it holds precisely the held conversations and has no dead end.
pub fn file_tells()
    ensures { FileTells }
{}

// The machine file is made of bytes, and has at most 10,912 of them.
pub fn file_fits()
    ensures { FileFits }
{}

// Worked files, by computing.
pub fn worked_files()
    ensures { WorkedFiles }
{}
