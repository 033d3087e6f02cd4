// The laws of steps, for the layers above.
ghost use Rattle.reduction.specs.StepLaws.{OneEffect};

// Whatever a step brings about by the rule of its verb is told in one way: the reduction is a function of the network and the job.
pub fn steps_have_one_effect()
    ensures laws { OneEffect }
{}
