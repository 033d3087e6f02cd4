// The laws of typing, for the layers above.
ghost use Rattle.typing.specs.TypingLaws.{TypingLaws};

// What a typed command leaves typed, verb by verb, whatever the order.
pub fn typing_keeps_its_laws()
    ensures laws { TypingLaws }
{}
