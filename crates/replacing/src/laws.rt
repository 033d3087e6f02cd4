// The laws of changes, for the layers above.
ghost use Rattle.replacing.specs.ChangeLaws.{ChangeLaws};

// A tree keeps its shape, rooms aside, and the rules of its policy, where a change puts on each edge what may lie there.
pub fn changes_keep_their_laws()
    ensures laws { ChangeLaws }
{}
