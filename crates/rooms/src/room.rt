// The rooms that are tried on what a step leaves.
ghost use Rattle.std.specs.Prelude.{◌≡◌};
ghost use Rattle.rooms.specs.Rooms.{number_of};

// In the order in which they are tried.
#[derive(Clone, Copy, Debug, PartialEq, Eq)]
pub enum Room {
    // 64 running jobs.
    RunningJobs,
    // 64 shelved trees.
    ShelvedTrees,
    // 1,024 lines on the shelf.
    ShelvedLines,
    // 128 lines in a tree.
    TreeLines,
    // Trees of depth 12.
    Depth,
}

impl Room {
    // The number by which a refusal tells the room.
    pub fn number(self) -> u32
        ensures answer { result ≡ number_of self }
    {
        match self {
            Room::RunningJobs => 1,
            Room::ShelvedTrees => 2,
            Room::ShelvedLines => 3,
            Room::TreeLines => 4,
            Room::Depth => 5,
        }
    }
}
