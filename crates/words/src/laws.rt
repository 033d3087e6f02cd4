// What holds of every line and every word. The function is here for its contract.
ghost use Rattle.words.specs.Laws.{ReadsBack};

pub fn reads_back()
    ensures laws { ReadsBack }
{}
