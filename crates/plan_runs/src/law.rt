// What workers find can be printed.
ghost use Rattle.plan_runs.specs.Printing.{FindingsHaveLines};

/// All findings of a worker have lines: each is in its store's range.
pub fn findings_have_lines()
    ensures { FindingsHaveLines }
{}
