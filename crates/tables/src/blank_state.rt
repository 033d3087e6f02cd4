// Blank tables. A state is neither copied nor dropped, so that a host that has taken a step has no state left to take
// another.
ghost use Rattle.std.specs.Prelude.{◌≡◌};

// The serial is the host's own number, by which it tells which tables go with the state.
pub struct Blank {
    pub(crate) serial: u64,
}

impl Blank {
    // A blank is had by asking.
    pub fn new(serial: u64) -> Blank
        ensures answer { result ≡ record { serial = serial } }
    {
        Blank { serial }
    }

    pub fn serial(&self) -> u64
        ensures answer { result ≡ self.now.serial }
    {
        self.serial
    }

    // The serial, and no blank more: for a host that ends.
    pub fn spend(self) -> u64
        ensures answer { result ≡ self.serial }
    {
        let Blank { serial } = self;
        serial
    }
}
