// The calls on a live network, under the order in force; in the other states each is told that it is not now.
ghost use Rattle.std.specs.Prelude.{◌≡◌};
ghost use Rattle.machine.specs.Hosting.{PostAnswers, PostLeaves, RecallAnswers, RecallLeaves, Stepped, Shown, Audited};
ghost use Rattle.session.specs.Orders.{meaning, count_of, top_of};
ghost use Rattle.session.specs.Calls.{denial_answer, number_answer, done_answer, edge_answer, told_rule, audit_answer, PostsHere, StepsHere, RecallsHere, ShowsHere, AuditsHere};

use super::between::Standing;
use super::holding::Holding;
use answer::Answer;
use breaches::Rule;
use layout::Tables;
use machine::{Denial, FaultRecord, Missing};
use order::RoleSet;
use rows::TreeLine;
use rules::Live;

fn denied(denial: Denial) -> Answer
    ensures answer { result ≡ denial_answer denial }
{
    let number = denial.number();
    match denial {
        Denial::Shape(place) => Answer::BreachRefused {
            number,
            table: u32::from(place.table),
            row: place.row,
            rule: 0,
        },
        Denial::Missing(Missing::Position) => Answer::NoPosition { number },
        Denial::Missing(Missing::Location) => Answer::NoLocation { number },
        Denial::Missing(Missing::Job) => Answer::NoJob { number },
        Denial::OtherPolicy => Answer::OtherPolicy { number },
        Denial::Unfit { position } => Answer::BreachRefused {
            number,
            table: 0,
            row: position,
            rule: 6,
        },
        Denial::NoRoom(room) => Answer::NoRoom {
            number,
            room: room.number(),
        },
    }
}

fn numbered(answer: Result<usize, Denial>) -> Answer
    ensures answer { result ≡ number_answer answer }
{
    match answer {
        Ok(count) => Answer::Count { count },
        Err(denial) => denied(denial),
    }
}

fn done(answer: Result<(), Denial>) -> Answer
    ensures answer { result ≡ done_answer answer }
{
    match answer {
        Ok(()) => Answer::Count { count: 0 },
        Err(denial) => denied(denial),
    }
}

fn edge(answer: Option<TreeLine>) -> Answer
    ensures answer { result ≡ edge_answer answer }
{
    match answer {
        Some(line) => Answer::Edge(line),
        None => Answer::Nothing,
    }
}

// A breach of shape is told as rule 0.
fn told_rule(rule: Option<Rule>) -> u32
    ensures answer { result ≡ told_rule rule }
{
    match rule {
        Some(rule) => rule.number(),
        None => 0,
    }
}

fn found(answer: Option<FaultRecord>) -> Answer
    ensures answer { result ≡ audit_answer answer }
{
    match answer {
        Some(fault) => Answer::Fault {
            table: u32::from(fault.table),
            row: fault.row,
            rule: told_rule(fault.rule),
        },
        None => Answer::Nothing,
    }
}

impl Standing {
    fn post(
        &self,
        live: &Live,
        tables: &mut Tables,
        location: u32,
        job: u32,
    ) -> Result<usize, Denial>
        ensures answer { PostAnswers (count_of self.now) (top_of self.now) (meaning self.now) tables.old location job result }
        ensures after { PostLeaves (count_of self.now) (top_of self.now) (meaning self.now) tables.old location job result tables.new }
    {
        match self {
            Standing::Drawn(order) => machine::post(live, tables, order, location, job),
            Standing::Rights(order) => machine::post(live, tables, order, location, job),
        }
    }

    fn step(&self, live: &Live, tables: &mut Tables, position: u32) -> Result<usize, Denial>
        ensures done { Stepped (count_of self.now) (top_of self.now) (meaning self.now) tables.old position result tables.new }
    {
        let position = position as usize;
        match self {
            Standing::Drawn(order) => machine::step(live, tables, order, position),
            Standing::Rights(order) => machine::step(live, tables, order, position),
        }
    }

    fn recall(&self, live: &Live, tables: &mut Tables, position: u32) -> Result<(), Denial>
        ensures answer { RecallAnswers (count_of self.now) (top_of self.now) (meaning self.now) tables.old position result }
        ensures after { RecallLeaves (count_of self.now) (top_of self.now) (meaning self.now) tables.old position result tables.new }
    {
        let position = position as usize;
        match self {
            Standing::Drawn(order) => machine::recall(live, tables, order, position),
            Standing::Rights(order) => machine::recall(live, tables, order, position),
        }
    }

    fn show(
        &self,
        live: &Live,
        tables: &Tables,
        location: u32,
        row: u32,
        roles: RoleSet,
    ) -> Option<TreeLine>
        ensures answer { Shown (count_of self.now) (top_of self.now) (meaning self.now) tables.now location row roles result }
    {
        let (location, row) = (location as usize, row as usize);
        match self {
            Standing::Drawn(order) => machine::show(live, tables, order, location, row, roles),
            Standing::Rights(order) => machine::show(live, tables, order, location, row, roles),
        }
    }

    fn audit(&self, live: &Live, tables: &Tables) -> Option<FaultRecord>
        ensures answer { Audited (count_of self.now) (top_of self.now) (meaning self.now) tables.now result }
    {
        match self {
            Standing::Drawn(order) => machine::audit(live, tables, order),
            Standing::Rights(order) => machine::audit(live, tables, order),
        }
    }
}

impl Holding {
    pub(crate) fn post(
        &self,
        order: &Standing,
        tables: &mut Tables,
        location: u32,
        job: u32,
    ) -> Answer
        ensures answer { PostsHere order.now self.now tables.old location job result tables.new }
    {
        match self {
            Holding::Live(live) => numbered(order.post(live, tables, location, job)),
            other => Answer::NotNow(other.state()),
        }
    }

    pub(crate) fn step(&self, order: &Standing, tables: &mut Tables, position: u32) -> Answer
        ensures answer { StepsHere order.now self.now tables.old position result tables.new }
    {
        match self {
            Holding::Live(live) => numbered(order.step(live, tables, position)),
            other => Answer::NotNow(other.state()),
        }
    }

    pub(crate) fn recall(&self, order: &Standing, tables: &mut Tables, position: u32) -> Answer
        ensures answer { RecallsHere order.now self.now tables.old position result tables.new }
    {
        match self {
            Holding::Live(live) => done(order.recall(live, tables, position)),
            other => Answer::NotNow(other.state()),
        }
    }

    pub(crate) fn show(
        &self,
        order: &Standing,
        tables: &Tables,
        location: u32,
        row: u32,
        roles: RoleSet,
    ) -> Answer
        ensures answer { ShowsHere order.now self.now tables.now location row roles result }
    {
        match self {
            Holding::Live(live) => edge(order.show(live, tables, location, row, roles)),
            other => Answer::NotNow(other.state()),
        }
    }

    pub(crate) fn audit(&self, order: &Standing, tables: &Tables) -> Answer
        ensures answer { AuditsHere order.now self.now tables.now result }
    {
        match self {
            Holding::Live(live) => found(order.audit(live, tables)),
            other => Answer::NotNow(other.state()),
        }
    }
}
