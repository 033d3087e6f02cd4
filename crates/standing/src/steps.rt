// Path steps: paths are numbered on from 0, and have at most eight steps.
ghost use Rattle.std.specs.Prelude.{◌≡◌};
ghost use Rattle.standing.specs.declared.steps.StepsBefore.{StepsBefore};
ghost use Rattle.standing.specs.Tests.{no_steps, step_passes, run_after, steps_after};

use super::sizes::Sizes;
use order::in_use_of;
use rows::PathStepRow;
use scan::Judged;

// How many paths there are so far, and how many steps the last of them has; of templates it is the last line that counts.
#[derive(Clone, Copy, Debug, PartialEq, Eq)]
pub struct StepsBefore {
    pub paths: usize,
    pub run: u32,
}

fn run_after(before: StepsBefore, step: PathStepRow) -> u32
    ensures answer { result ≡ run_after before step }
{
    if step.path as usize + 1 == before.paths {
        before.run.min(7) + 1
    } else {
        1
    }
}

impl Judged<Sizes> for PathStepRow {
    type Before = StepsBefore;

    ghost first = { no_steps };

    ghost passes = { λ s b i x. step_passes s b x };

    ghost after = { steps_after };

    fn before_all() -> StepsBefore {
        StepsBefore { paths: 0, run: 0 }
    }

    fn passes(&self, names: &Sizes, before: &StepsBefore, _row: usize) -> bool {
        let path = self.path as usize;
        let in_turn = if path + 1 == before.paths {
            before.run < 8
        } else {
            path == before.paths && before.paths < 64
        };
        in_turn && in_use_of(names.roles, self.set)
    }

    fn note(&self, before: &mut StepsBefore) {
        *before = StepsBefore {
            paths: self.path as usize + 1,
            run: run_after(*before, *self),
        };
    }
}
