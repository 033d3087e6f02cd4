// The rules of commands.
ghost use Rattle.std.specs.Prelude.{◌≡◌};
ghost use Rattle.commands.specs.Rules.{number_of};

// From the lowest to the highest.
#[derive(Clone, Copy, Debug, PartialEq, Eq)]
pub enum CommandRule {
    // The least set of the policy that a job enters is ≤ its roles.
    Entry,
    // A slot in use was filled with what the use needs.
    Slots,
    // The last set of the path is ≤ the job's roles.
    Path,
    // The sets in a tree that a pattern matches are ≤ the job's roles.
    Pattern,
    // What is pasted obeys the policy.
    Content,
    // The policy has a grant for just these roles.
    Grant,
    // The last set of the path is ≤ the set of the role that is enabled.
    Enabling,
}

impl CommandRule {
    // The number by which a refusal tells the rule; those of grants and trees are 1 to 4.
    pub fn number(self) -> u32
        ensures answer { result ≡ number_of self }
    {
        match self {
            CommandRule::Entry => 5,
            CommandRule::Slots => 6,
            CommandRule::Path => 7,
            CommandRule::Pattern => 8,
            CommandRule::Content => 9,
            CommandRule::Grant => 10,
            CommandRule::Enabling => 11,
        }
    }
}
