// What a command is held to.

use order::RoleSet;
use slots::Slots;

// The policy where the job is, its roles, and which patterns filled its slots.
#[derive(Clone, Copy, Debug, PartialEq, Eq)]
pub struct Standing {
    pub policy: u32,
    pub roles: RoleSet,
    pub slots: Slots,
}
