// What is proved of the lines that are owed.
ghost use Rattle.owed.specs.Owed.{OwedLists};

// The list of owed lines rises, and has just the lines after the mark.
pub fn owed_lists()
    ensures { OwedLists }
{}
