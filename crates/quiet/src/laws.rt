// For the layers above, whose laws speak of networks and not of tables.
ghost use Rattle.quiet.specs.Quiet.{Quiet};

pub fn nothing_is_told_of_what_obeys()
    ensures laws { Quiet }
{}
