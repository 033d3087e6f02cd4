// The laws of filled slots, for the layers above.
ghost use Rattle.matching.specs.MatchingLaws.{MatchingLaws};

// Slots go on matching when the shelf grows, whatever the order.
pub fn matching_keeps_its_laws()
    ensures laws { MatchingLaws }
{}
