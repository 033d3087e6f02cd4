// One network, moved by calls alone.
use super::asking::{Call, answer};
use super::bench::Bench;
use super::text::numbers_of;
use rules::Live;
use std::io;

// The call, its arguments, and the answer.
const STORY: [(Call, &str, &str); 38] = [
    (Call::Audit, "", "nothing"),
    (Call::Step, "0", "8: no such position"),
    (Call::Show, "0 1 2", "2 2 3 1 1900 0"),
    // Two trees are read, of two lines and of none, and the first is put where two numbers stand.
    (Call::Post, "0 5", "ok 0"),
    (Call::Step, "0", "ok 2"),
    (Call::Step, "2", "8: no such position"),
    (Call::Step, "0", "ok 2"),
    (Call::Show, "0 5 2", "2 2 3 1 1900 0"),
    (Call::Show, "0 9 2", "2 5 3 1 12 0"),
    (Call::Show, "0 10 4", "1 2 5 1 9 0"),
    // No number stands there any more.
    (Call::Step, "0", "ok 2"),
    (Call::Step, "0", "8: no such position"),
    (Call::Show, "0 14 2", "1 4 3 3 1 2"),
    (Call::Show, "0 15 2", "nothing"),
    (Call::Audit, "", "nothing"),
    // A hand enables role 2 and disables its own: the 1900 is closed to it.
    (Call::Post, "0 9", "ok 0"),
    (Call::Step, "0", "ok 2"),
    (Call::Show, "0 1 2", "2 2 7 1 1900 0"),
    (Call::Step, "0", "ok 2"),
    (Call::Show, "0 1 2", "nothing"),
    (Call::Show, "0 1 4", "2 2 5 1 1900 0"),
    (Call::Recall, "0", "ok 0"),
    // Now only the empty tree is open, and one job reads it.
    (Call::Post, "0 5", "ok 0"),
    (Call::Step, "0", "ok 2"),
    (Call::Step, "1", "8: no such position"),
    (Call::Recall, "0", "ok 0"),
    (Call::Audit, "", "nothing"),
    // A pointer is read, followed to location 2, and no edge is there to be run.
    (Call::Post, "0 6", "ok 0"),
    (Call::Post, "1 3", "ok 1"),
    (Call::Step, "0", "ok 1"),
    (Call::Step, "1", "ok 0"),
    (Call::Step, "1", "ok 0"),
    // The press's job is left, and forks into nothing.
    (Call::Step, "1", "8: no such position"),
    (Call::Step, "0", "ok 0"),
    (Call::Recall, "0", "8: no such position"),
    (Call::Post, "1 0", "9: the job is of another policy"),
    (Call::Post, "3 0", "8: no such location"),
    (Call::Audit, "", "nothing"),
];

// With 64 running jobs that are to fork, behind the posts.
const FULL: [(Call, &str, &str); 10] = [
    (Call::Post, "0 0", "10: no room 1"),
    (Call::Step, "0", "10: no room 1"),
    (Call::Recall, "64", "8: no such position"),
    (Call::Recall, "63", "ok 0"),
    (Call::Step, "0", "ok 0"),
    (Call::Step, "0", "10: no room 1"),
    (Call::Post, "0 0", "10: no room 1"),
    (Call::Recall, "63", "ok 0"),
    (Call::Post, "0 0", "ok 63"),
    (Call::Audit, "", "nothing"),
];

impl Bench<'_> {
    fn ask(&mut self, live: &Live, (call, arguments, told): (Call, &str, &str)) -> io::Result<()> {
        let numbers = numbers_of(self.rt, arguments)?;
        let answer = answer(
            self.rt,
            live,
            self.tables,
            self.order,
            call,
            numbers.as_slice(),
        )?;
        let name = call.name();
        println!(self.rt; "{name}({arguments}) -> {answer}")?;
        self.expect(answer.as_str() == told, told)
    }

    fn ask_all(&mut self, live: &Live, calls: &[(Call, &str, &str)]) -> io::Result<()> {
        for call in calls {
            self.ask(live, *call)?;
        }
        Ok(())
    }

    // 64 jobs are posted, and each is told its position.
    fn post_all(&mut self, live: &Live) -> io::Result<()> {
        let mut all = true;
        for position in 0..64 {
            let answer = machine::post(live, self.tables, self.order, 0, 0);
            all = answer == Ok(position) && all;
        }
        println!(self.rt; "64 posts -> {all}")?;
        self.expect(all, "true")
    }

    fn tell_story(&mut self, live: &Live) -> io::Result<()> {
        self.ask_all(live, &STORY)?;
        self.post_all(live)?;
        self.ask_all(live, &FULL)
    }
}

pub(crate) fn run(bench: &mut Bench<'_>) -> io::Result<()> {
    let Some(live) = bench.admitted() else {
        return bench.expect(false, "an admitted house");
    };
    let told = bench.tell_story(&live);
    rules::close(live, bench.tables).spend();
    told
}
