// The laws of steps.
ghost use Rattle.sustaining.specs.StepLaws.{StepLaws};

// What a step of a running job brings about is sound.
pub fn steps_keep_their_laws()
    ensures laws { StepLaws }
{}
