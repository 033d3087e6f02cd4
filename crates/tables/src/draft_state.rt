// Tables with a sheet in them, not yet admitted.
ghost use Rattle.std.specs.Prelude.{◌≡◌};

// The serial of the blank that it was, and how many lines the sheet has.
pub struct Draft {
    pub(crate) serial: u64,
    pub(crate) lines: usize,
}

impl Draft {
    pub fn serial(&self) -> u64
        ensures answer { result ≡ self.now.serial }
    {
        self.serial
    }

    pub fn lines(&self) -> usize
        ensures answer { result ≡ self.now.lines }
    {
        self.lines
    }

    // The serial and the lines, and no draft more: for the layer that admits a draft as a network.
    pub fn spend(self) -> (u64, usize)
        ensures answer { result ≡ (self.serial, self.lines) }
    {
        let Draft { serial, lines } = self;
        (serial, lines)
    }
}
