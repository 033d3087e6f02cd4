// Orders of roles and role sets: the layer that everything above rests on.
#![tactic(auto)]

mod relation;
mod role_sets;

pub use relation::Order;
pub use role_sets::{
    Role, RoleSet, Roles, has_role, holds_top, in_use, in_use_of, opens, role_sets_keep_their_laws,
    roles_of, set_below, some_below, with_role,
};
