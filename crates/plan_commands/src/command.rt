// What is asked of a plan.

// A command on a plan whose words are well formed. Its files are still to be opened.
#[derive(Clone, Copy, Debug, PartialEq, Eq)]
pub enum PlanCommand<'a, 'w> {
    // a plan over a window, with tables of these sizes
    Open {
        first: u32,
        last: u32,
        sizes: Sizes,
    },
    // the file of this name
    Load(&'a [u8]),
    // before the lines of this day
    Seek(u32),
    Draw(Draws),
    Mark,
    Close,
    // into a text buffer of so many bytes, or of just as many as the report has
    Report(Option<usize>),
    Waive,
    // of the script of this name
    Run(&'a [u8]),
    // the files of these names, over a window
    List {
        first: u32,
        last: u32,
        files: &'w [&'a [u8]],
    },
}

// The sizes of a plan's tables.
#[derive(Clone, Copy, Debug, PartialEq, Eq)]
pub struct Sizes {
    pub series: usize,
    pub faults: usize,
    pub queue: usize,
}

impl Sizes {
    // of a plan that is opened without sizes
    pub const USUAL: Sizes = Sizes {
        series: 999,
        faults: 999,
        queue: 999,
    };
}

// How many lines are drawn.
#[derive(Clone, Copy, Debug, PartialEq, Eq)]
pub enum Draws {
    Times(u32),
    All,
}
