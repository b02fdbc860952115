// What holds of every value.
ghost use Rattle.parm_forms.specs.Fits.{DefaultsFit, FittingValuesStay, ValuesFit, ValuesHaveTheirItems};

/// A value that is read fits its form: so many numbers or texts as may stand there, each in its range or by its rule.
pub fn values_fit()
    ensures { ValuesFit }
{}

/// A value that is read has as many numbers or texts as there are items.
pub fn values_have_their_items()
    ensures { ValuesHaveTheirItems }
{}

/// The defaults of a kind fit their keywords' forms, row by row, or are nothing; each has one number or text at the most.
pub fn defaults_fit()
    ensures { DefaultsFit }
{}

/// Values that fit row by row fit on, where a row is given what was read by its form.
pub fn fitting_values_stay()
    ensures { FittingValuesStay }
{}
