// All tables.
ghost use Rattle.std.specs.Prelude.{◌≡◌, None};
ghost use Rattle.layout.specs.Network.{network, Holds};
ghost use Rattle.shape.specs.Place.{ground_fault, program_fault, moving_fault, place_of, first_place};
ghost use Rattle.shape.specs.Shape.{Shaped};

use super::place::{Place, Stage, in_draft, placed};
use super::shelves::shelf_fault;
use super::table::table_fault;
use super::trees::edges_fault;
use layout::TableKind::{Lines, Running, Shelf};
use layout::{Tables, sized};
use order::Order;
use sheet::LineKind;
use standing::{Fillings, Sizes, sizes_of};

// What tables are judged by: what their rows may name, and their stage.
#[derive(Clone, Copy, Debug, PartialEq, Eq)]
struct Judge {
    names: Sizes,
    stage: Stage,
}

impl Judge {
    // Policies to edges.
    fn ground_fault(&self, t: &Tables) -> Option<Place>
        ensures answer { result ≡ ground_fault self.now.names t.now }
    {
        let names = &self.names;
        placed(Lines(LineKind::Policy), table_fault(names, &t.policies))
            .or_else(|| placed(Lines(LineKind::Grant), table_fault(names, &t.grants)))
            .or_else(|| placed(Lines(LineKind::Location), table_fault(names, &t.locations)))
            .or_else(|| placed(Lines(LineKind::PathStep), table_fault(names, &t.steps)))
            .or_else(|| placed(Lines(LineKind::Edge), edges_fault(names, &t.trees)))
    }

    // Templates to jobs.
    fn program_fault(&self, t: &Tables) -> Option<Place>
        ensures answer { result ≡ program_fault self.now.names t.now }
    {
        let names = &self.names;
        placed(
            Lines(LineKind::TemplateLine),
            table_fault(names, &t.templates),
        )
        .or_else(|| placed(Lines(LineKind::Pattern), table_fault(names, &t.patterns)))
        .or_else(|| placed(Lines(LineKind::Command), table_fault(names, &t.commands)))
        .or_else(|| placed(Lines(LineKind::Job), table_fault(names, &t.jobs)))
    }

    // The running list and the shelf.
    fn moving_fault(&self, t: &Tables) -> Option<Place>
        ensures answer { result ≡ moving_fault self.now.names t.now self.now.stage }
    {
        let fillings = Fillings {
            sizes: self.names,
            patterns: &t.patterns.rows,
        };
        let running = table_fault(&fillings, &t.running);
        placed(Running, in_draft(self.stage, t.running.count, running)).or_else(|| {
            let shelf = shelf_fault(&self.names, &t.shelf);
            placed(Shelf, in_draft(self.stage, t.shelf.trees.count, shelf))
        })
    }

    fn place_of(&self, t: &Tables) -> Option<Place>
        ensures answer { result ≡ place_of self.now.names t.now self.now.stage }
    {
        self.ground_fault(t)
            .or_else(|| self.program_fault(t))
            .or_else(|| self.moving_fault(t))
    }
}

// The first place where the tables of a draft or of a live network have no shape under the order; none exactly when they
// have it, and then they hold a network: its rows, zeros behind them, and nothing else.
pub fn shape<O: Order>(t: &Tables, stage: Stage) -> Option<Place>
    ensures place { result ≡ first_place O.COUNT O.TOP t.now stage }
    ensures stands { result ≡ None → Shaped O.COUNT O.TOP t.now stage }
    ensures told { Shaped O.COUNT O.TOP t.now stage → result ≡ None }
    ensures holds { result ≡ None → Holds t.now (network t.now) }
{
    sized(t);
    let judge = Judge {
        names: sizes_of::<O>(t),
        stage,
    };
    judge.place_of(t)
}
