// What a breach tells.
ghost use Rattle.std.specs.Prelude.{◌≡◌};
ghost use Rattle.breaches.specs.Rules.{number_of};

use commands::CommandRule;
use layout::TableKind;

// The typing rules, of everything that they are about.
#[derive(Clone, Copy, Debug, PartialEq, Eq)]
pub enum Rule {
    // No disable takes a role away that the top role is at or below.
    Grant,
    Tree(obeying::Rule),
    Command(CommandRule),
    // Of running jobs only: every filled slot matches its part of the pattern that filled it.
    Filled,
}

impl Rule {
    // The number by which a refusal tells the rule.
    pub fn number(self) -> u32
        ensures answer { result ≡ number_of self }
    {
        match self {
            Rule::Grant => 1,
            Rule::Tree(rule) => rule.number(),
            Rule::Command(rule) => rule.number(),
            Rule::Filled => 12,
        }
    }
}

// A row of a table, from 0, and the rule that it breaks. Edges count over all locations; what a command breaks is told at the
// command's row, what a job's own roles break at the job's, and all that a running job breaks at its place in the running list.
#[derive(Clone, Copy, Debug, PartialEq, Eq)]
pub struct RuleBreach {
    pub table: TableKind,
    pub row: usize,
    pub rule: Rule,
}
