// What holds of every sheet. The function is here for its contract.
ghost use Rattle.sheet.specs.Laws.{SheetLaws};

pub fn sheet_laws()
    ensures laws { SheetLaws }
{}
