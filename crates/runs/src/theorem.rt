// What is proved of every run.
ghost use Rattle.runs.specs.Law.{RightRunsKeepTheLaw};

// A run whose steps are right, each after those before it, keeps to the law.
pub fn right_runs_keep_the_law()
    ensures { RightRunsKeepTheLaw }
{}
