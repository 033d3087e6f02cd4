// What one line of input can ask.

// Which order of roles is asked for: one that is drawn pair by pair, or the one that goes by rights.
#[derive(Clone, Copy, Debug, PartialEq, Eq)]
pub enum OrderKind {
    Drawn,
    Rights,
}

// How a sheet is given: by its bytes, or by the name of the file that holds them.
#[derive(Debug, PartialEq, Eq, Drop)]
pub enum Sheet {
    Bytes(Vec<u8>),
    File(Vec<u8>),
}

// The calls on a live network.
#[derive(Clone, Copy, Debug, PartialEq, Eq)]
pub enum Call {
    // The job of this row is to start at the location.
    Post { location: u32, job: u32 },
    // The running job at this position is to make its next step, or to be taken out.
    Step { position: u32 },
    Recall { position: u32 },
    // This edge of the location is to be shown, if the roles open it.
    Show { location: u32, row: u32, roles: u64 },
    Audit,
}

#[derive(Debug, PartialEq, Eq, Drop)]
pub enum Command {
    Order(OrderKind),
    // Each pair puts its first role below its second.
    Draw(Vec<(u32, u32)>),
    Below {
        a: u32,
        b: u32,
    },
    // A set of roles is a number whose bit r stands for role r.
    Under {
        a: u64,
        b: u64,
    },
    Opens {
        set: u64,
        roles: u64,
    },
    List(Sheet),
    Load(Sheet),
    Admit,
    Close,
    Dump,
    // The number in this field of this row is to be written over.
    Poke {
        table: u32,
        row: u32,
        field: u32,
        value: u64,
    },
    Call(Call),
}
