// What holds of what files ask for.
ghost use Rattle.plan_file.specs.Files.{AlwaysPlans, PlansOnce};

/// A file of any bytes asks for exactly one plan, or exactly one line refuses it.
pub fn plans_once()
    ensures one { PlansOnce }
    ensures some { AlwaysPlans }
{
    parm_lex::file_is_read_once();
    parm_defs::records_show_all();
    parm_defs::shown_tells();
}
