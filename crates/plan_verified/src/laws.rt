// Laws of what verified stores leave.
ghost use Rattle.plan_verified.specs.Laws.{FitAsBefore, FitWhereAllRead, VerifyAsStill};

/// Laws of verified stores: they are verified as by a still command; where each block was readable, all that the passes tell fits the
/// entries that are left; and so it does where it fitted those before. It does nothing.
pub fn verified_laws()
    ensures still { VerifyAsStill }
    ensures readable { FitWhereAllRead }
    ensures before { FitAsBefore }
{}
