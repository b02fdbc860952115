// What holds of all definitions that are read.
ghost use Rattle.parm_defs.specs.Laws.{DefinitionsFit, OwnElseBegun, RecordsShowAll, ShownTells};

/// Of the definitions that are read of a file: the numbers of general parameters, hosts, stores, workloads over stores and runs are in
/// their ranges, no kind has too many, and no two hosts, no two stores and no two workloads over stores have one name. Of names of runs,
/// and of the fields of file systems and of workloads over them, it says nothing: they are what `Definitions::read` gives.
pub fn definitions_fit()
    ensures { DefinitionsFit }
{
    parm_forms::values_fit();
    parm_forms::values_have_their_items();
    parm_forms::defaults_fit();
}

/// Of one definition and the values that it begins with, one for each keyword of its kind (`before`): a keyword that one of its parts
/// gives has the value of that part, and any other keeps the one of `before`. That a definition begins with what the last default of
/// its kind left, and the first of a kind with the table's values, is said by what `Definitions::read` gives.
pub fn own_else_begun()
    ensures { OwnElseBegun }
{}

/// What is read of a file's lines is what records show: each keyword of its kind has so many numbers or texts as its record has.
pub fn records_show_all()
    ensures { RecordsShowAll }
{
    parm_forms::values_fit();
}

/// What records show tells them: what is read of a file's lines is shown by one list of records alone.
pub fn shown_tells()
    ensures { ShownTells }
{}
