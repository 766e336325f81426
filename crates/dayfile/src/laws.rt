// That a day has one day file, and a day file one day.
ghost use Rattle.std.specs.Prelude.{◌≡◌, List};
ghost use Rattle.store.specs.declared.day.DayName.{DayName};
ghost use Rattle.dayfile.specs.Days.{Entry};
ghost use Rattle.dayfile.specs.Form.{day_file};
ghost use Rattle.dayfile.specs.Limits.{AreFiles};

// No string is the day file of two lists of files. Nothing runs here: the contract is the theorem.
#[tactic(auto, using(crate::proofs::OneForm::one_form))]
pub fn one_form()
    ensures { (d : DayName) (es fs : List Entry) → AreFiles es → AreFiles fs → day_file d es ≡ day_file d fs → es ≡ fs }
{}
