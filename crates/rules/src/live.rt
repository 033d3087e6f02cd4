// A live network: tables whose network was admitted. Its fields are private, and `admit` alone makes one.
ghost use Rattle.std.specs.Prelude.{◌≡◌};

// The serial of the draft that it was, and how many jobs there are. Like the other states it is neither copied nor dropped.
pub struct Live {
    pub(crate) serial: u64,
    pub(crate) jobs: usize,
}

impl Live {
    pub fn serial(&self) -> u64
        ensures answer { result ≡ self.now.serial }
    {
        self.serial
    }

    pub fn jobs(&self) -> usize
        ensures answer { result ≡ self.now.jobs }
    {
        self.jobs
    }

    // The serial, and no live network more: for a host that ends.
    pub fn spend(self) -> u64
        ensures answer { result ≡ self.serial }
    {
        let Live { serial, jobs: _ } = self;
        serial
    }
}
