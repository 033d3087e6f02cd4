// Each command is one call of the library; nothing is decided here.
ghost use Rattle.std.specs.Prelude.{◌≡◌, []};
ghost use Rattle.order.specs.RoleSets.{set_below, opens_to};
ghost use Rattle.answer.specs.declared.answer.Answer.{Answer};
ghost use Rattle.answer.specs.declared.answer.Answer.TheVariants as answer;
ghost use Rattle.words.specs.Saying.{given, said, asked_of};
ghost use Rattle.session.specs.declared.holding.Holding.TheVariants as holding;
ghost use Rattle.session.specs.declared.between.Reply.TheVariants as reply;
ghost use Rattle.session.specs.Orders.{meaning};
ghost use Rattle.session.specs.Holding.{state_of, admitted, LoadsHere, AdmitsHere, ClosesHere, StartsOver};
ghost use Rattle.session.specs.Replies.{yes_no, FreshOf, DrawnFrom, Draws, CallsToLoad, word_of, poke_answer, Answers, Turns, Calls};

use super::between::{Reply, Session, Standing};
use super::holding::Holding;
use answer::{Answer, State};
use drawn::Drawn;
use layout::Tables;
use order::{Order, Role, RoleSet, opens, set_below};
use poke::{Poke, Wrong, poke};
use rights::Rights;
use rules::{Fault, Live};
use std::alloc::{AllocError, Global};
use tables::{Blank, Draft};
use words::{Call, Command, LineError, OrderKind, Sheet, Unclear, Why, read_line};

fn yes_no(holds: bool) -> Answer
    ensures answer { result ≡ yes_no holds }
{
    if holds { Answer::Yes } else { Answer::No }
}

impl Standing {
    fn fresh(kind: OrderKind) -> Standing
        ensures answer { FreshOf kind result }
    {
        match kind {
            OrderKind::Drawn => Standing::Drawn(Drawn::fresh()),
            OrderKind::Rights => Standing::Rights(Rights),
        }
    }

    fn draw(&mut self, pairs: &[(Role, Role)]) -> Answer
        ensures answer { Draws self.old pairs.now result self.new }
    {
        match self {
            Standing::Drawn(order) => match order.draw(pairs) {
                Ok(()) => Answer::Ok,
                Err(fault) => Answer::PairRefused {
                    number: fault.number(),
                    pair: fault.pair,
                },
            },
            Standing::Rights(_) => Answer::NotDrawn { number: 12 },
        }
    }

    fn below(&self, a: Role, b: Role) -> bool
        ensures answer { result ≡ meaning self.now a b }
    {
        match self {
            Standing::Drawn(order) => order.at_or_below(a, b),
            Standing::Rights(order) => order.at_or_below(a, b),
        }
    }

    fn under(&self, a: RoleSet, b: RoleSet) -> bool
        ensures answer { result ≡ set_below (meaning self.now) a b }
    {
        match self {
            Standing::Drawn(order) => set_below(order, a, b),
            Standing::Rights(order) => set_below(order, a, b),
        }
    }

    fn opens(&self, set: RoleSet, roles: RoleSet) -> bool
        ensures answer { result ≡ opens_to (meaning self.now) set roles }
    {
        match self {
            Standing::Drawn(order) => opens(order, set, roles),
            Standing::Rights(order) => opens(order, set, roles),
        }
    }

    pub(crate) fn admit(
        &self,
        draft: Draft,
        tables: &Tables,
    ) -> Result<(Live, usize), (Draft, Fault)>
        ensures answer { result ≡ admitted self.now draft tables.now }
    {
        match self {
            Standing::Drawn(order) => guarantee::admit(draft, tables, order),
            Standing::Rights(order) => guarantee::admit(draft, tables, order),
        }
    }
}

// The word of the line that a poke found wrong.
fn word_of(wrong: Wrong) -> Unclear
    ensures answer { result ≡ word_of wrong }
{
    let (word, why) = match wrong {
        Wrong::Table => (1, Why::NoSuchTable),
        Wrong::Row => (2, Why::NoSuchRow),
        Wrong::Field => (3, Why::NoSuchField),
        Wrong::Value => (4, Why::TooWide),
    };
    Unclear { word, why }
}

fn poked(written: Result<(), Wrong>) -> Answer
    ensures answer { result ≡ poke_answer written }
{
    match written {
        Ok(()) => Answer::Ok,
        Err(wrong) => Answer::Unclear(word_of(wrong)),
    }
}

impl Session {
    // A session begins with a fresh drawn order and no network; the tables that go with it are blank.
    pub fn new() -> Session
        ensures order { DrawnFrom [] result.order }
        ensures holding { result.holding ≡ holding.Blank (record { serial = 0 }) }
    {
        Session {
            order: Standing::fresh(OrderKind::Drawn),
            holding: Holding::Blank(Blank::new(0)),
        }
    }

    // Loads a sheet into the tables, unless a network is loaded already.
    pub fn load(self, tables: &mut Tables, sheet: &[u8]) -> (Session, Answer)
        ensures same { result.0.order ≡ self.order }
        ensures answer { LoadsHere self.holding tables.old sheet.now result.1 result.0.holding tables.new }
    {
        let Session { order, holding } = self;
        let (holding, answer) = holding.load(tables, sheet);
        (Session { order, holding }, answer)
    }

    fn close(self, tables: &mut Tables) -> (Session, Reply)
        ensures same { result.0.order ≡ self.order }
        ensures answer { (told : Answer) × (result.1 ≡ reply.Answered told) × ClosesHere self.holding tables.old told result.0.holding tables.new }
    {
        let Session { order, holding } = self;
        let (holding, answer) = holding.close(tables);
        (Session { order, holding }, Reply::Answered(answer))
    }

    fn admit(self, tables: &Tables) -> (Session, Reply)
        ensures same { result.0.order ≡ self.order }
        ensures answer { (told : Answer) × (result.1 ≡ reply.Answered told) × AdmitsHere self.order self.holding tables.now told result.0.holding }
    {
        let Session { order, holding } = self;
        let (holding, answer) = holding.admit(&order, tables);
        (Session { order, holding }, Reply::Answered(answer))
    }

    // A fresh order, and blank tables.
    fn start_over(self, tables: &mut Tables, kind: OrderKind) -> (Session, Reply)
        ensures answer { result.1 ≡ reply.Answered answer.Ok }
        ensures order { FreshOf kind result.0.order }
        ensures holding { StartsOver self.holding result.0.holding tables.new }
    {
        let Session { order: _, holding } = self;
        let fresh = Session {
            order: Standing::fresh(kind),
            holding: holding.start_over(tables),
        };
        (fresh, Reply::Answered(Answer::Ok))
    }

    // A sheet is fetched only where it could be loaded.
    fn call_to_load(&self, sheet: Sheet) -> Reply
        ensures answer { CallsToLoad self.now.holding (given sheet) result }
    {
        match self.holding.state() {
            State::Blank => Reply::Load(sheet),
            state => Reply::Answered(Answer::NotNow(state)),
        }
    }

    fn answer(mut self, tables: &mut Tables, command: Command) -> (Session, Reply)
        ensures answer { Answers self tables.old (asked_of command) result.1 result.0 tables.new }
    {
        let reply = match command {
            Command::Order(kind) => return self.start_over(tables, kind),
            Command::Admit => return self.admit(tables),
            Command::Close => return self.close(tables),
            Command::Draw(pairs) => Reply::Answered(self.order.draw(pairs.as_slice())),
            Command::Below { a, b } => Reply::Answered(yes_no(self.order.below(a, b))),
            Command::Under { a, b } => Reply::Answered(yes_no(self.order.under(a, b))),
            Command::Opens { set, roles } => Reply::Answered(yes_no(self.order.opens(set, roles))),
            Command::List(sheet) => Reply::List(sheet),
            Command::Load(sheet) => self.call_to_load(sheet),
            Command::Dump => Reply::Dump,
            Command::Poke {
                table,
                row,
                field,
                value,
            } => Reply::Answered(poked(poke(
                tables,
                Poke {
                    table,
                    row,
                    field,
                    value,
                },
            ))),
            Command::Call(call) => Reply::Answered(self.call(tables, call)),
        };
        (self, reply)
    }

    // A call on a live network; the session stays what it is.
    fn call(&self, tables: &mut Tables, call: Call) -> Answer
        ensures answer { Calls self.now tables.old call result tables.new }
    {
        let order = &self.order;
        match call {
            Call::Post { location, job } => self.holding.post(order, tables, location, job),
            Call::Step { position } => self.holding.step(order, tables, position),
            Call::Recall { position } => self.holding.recall(order, tables, position),
            Call::Show {
                location,
                row,
                roles,
            } => self.holding.show(order, tables, location, row, roles),
            Call::Audit => self.holding.audit(order, tables),
        }
    }

    // What one line of input calls for, unless it is passed over. The session goes on whatever it is.
    pub fn reply(
        self,
        tables: &mut Tables,
        heap: Global,
        line: &[u8],
    ) -> (Session, Result<Option<Reply>, AllocError>)
        ensures answer { Turns self tables.old (said line.now) result.1 result.0 tables.new }
    {
        match read_line(heap, line) {
            Ok(None) => (self, Ok(None)),
            Ok(Some(command)) => {
                let (session, reply) = self.answer(tables, command);
                (session, Ok(Some(reply)))
            }
            Err(LineError::Unclear(unclear)) => {
                (self, Ok(Some(Reply::Answered(Answer::Unclear(unclear)))))
            }
            Err(LineError::OutOfMemory(lack)) => (self, Err(lack)),
        }
    }

    // The session is over; what it had of a network then.
    pub fn end(self) -> State
        ensures answer { result ≡ state_of self.holding }
    {
        let Session { order: _, holding } = self;
        let state = holding.state();
        holding.spend();
        state
    }
}
