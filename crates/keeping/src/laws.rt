// For the layers above, whose laws speak of many calls, one after the other.
ghost use Rattle.keeping.specs.Keeping.{KeepingLaws};

pub fn calls_keep_networks_sound()
    ensures laws { KeepingLaws }
{}
