// What holds of every valid plan.
ghost use Rattle.workload_gen.specs.Laws.{SharesAreFew, WorkersCanDraw};

/// Each worker of a run of a valid plan can draw turns over its store, and a run has few enough shares for a draw. It does nothing.
pub fn runs_can_draw()
    ensures workers { WorkersCanDraw }
    ensures shares { SharesAreFew }
{}
