// What the tables say of a policy.
ghost use Rattle.std.specs.Prelude.{◌≡◌, ◌<◌, length, Decides, get_or};
ghost use Rattle.layout.specs.Held.{in_use};
ghost use Rattle.layout.specs.Network.{network};
ghost use Rattle.layout.specs.Zeros.{job0};
ghost use Rattle.pasting.specs.Words.{least_of};
ghost use Rattle.pasting.specs.Tests.{has_job};

use layout::Tables;
use obeying::Policy;
use order::{Order, RoleSet};

// The least set of a policy; a policy that is not there has the empty set.
pub fn least_of(tables: &Tables, policy: u32) -> RoleSet
    ensures answer { result ≡ least_of (network tables.now).plan policy }
{
    match tables.policies.in_use().get(policy as usize) {
        Some(row) => row.least,
        None => 0,
    }
}

// The policy, as trees are held to it.
pub fn policy_of<'a, O: Order>(order: &'a O, tables: &'a Tables, number: u32) -> Policy<'a, O>
    ensures order { result.order.now ≡ order.now }
    ensures number { result.number ≡ number }
    ensures least { result.least ≡ least_of (network tables.now).plan number }
    ensures jobs { result.jobs.now ≡ in_use tables.now.jobs }
{
    Policy {
        order,
        number,
        least: least_of(tables, number),
        jobs: tables.jobs.in_use(),
    }
}

// Whether the job that a script names is there, and of the policy.
pub fn has_job(tables: &Tables, policy: u32, job: u32) -> bool
    ensures answer { result ≡ has_job (in_use tables.now.jobs) policy job }
    ensures says { Decides result ((job < length (in_use tables.now.jobs)) × (get_or (in_use tables.now.jobs) job job0).policy ≡ policy) }
{
    match tables.jobs.in_use().get(job as usize) {
        Some(row) => row.policy == policy,
        None => false,
    }
}
