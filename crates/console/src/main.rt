// The console: reads commands, one to a line, from the file named by its first argument, else from standard input, and
// prints one answer for each. It only moves text: every answer is the session's, the listing's or the dump's.
#![tactic(auto)]

use answer::Answer;
use anyhow::anyhow;
use dump::dump;
use layout::Tables;
use listing::Listing;
use session::{Reply, Session};
use std::fs::File;
use std::io::{BufRead, BufReader, Read};
use std::ops::ControlFlow;
use std::{env, fs, io, str};
use words::{Sheet, Unclear, Why};

fn say(rt: &HostRuntime, answer: Answer) -> anyhow::Result<()> {
    println!(rt; "{answer}")?;
    Ok(())
}

// The sheet's file cannot be read; it is named by the word 2 of its line.
fn say_unreadable(rt: &HostRuntime) -> anyhow::Result<()> {
    let unclear = Unclear {
        word: 2,
        why: Why::CannotBeRead,
    };
    say(rt, Answer::Unclear(unclear))
}

// The bytes of the file, if its name is text and it can be read.
fn contents(rt: &HostRuntime, name: &[u8]) -> Option<Vec<u8>> {
    let path = str::from_utf8(name).ok()?;
    fs::read(rt, path).ok()
}

fn bytes_of(rt: &HostRuntime, sheet: Sheet) -> Option<Vec<u8>> {
    match sheet {
        Sheet::Bytes(bytes) => Some(bytes),
        Sheet::File(name) => contents(rt, name.as_slice()),
    }
}

fn list(rt: &HostRuntime, sheet: &[u8]) -> anyhow::Result<()> {
    let mut listing = Listing::new(sheet);
    let answer = loop {
        match listing.next(rt.alloc())? {
            ControlFlow::Continue(text) => println!(rt; "{text}")?,
            ControlFlow::Break(answer) => break answer,
        }
    };
    say(rt, answer)
}

fn show(rt: &HostRuntime, tables: &Tables) -> anyhow::Result<()> {
    for line in dump(rt.alloc(), tables)? {
        println!(rt; "{line}")?;
    }
    Ok(())
}

// Does what the line calls for. The session goes on, and ends only where the console does.
fn act(
    rt: &HostRuntime,
    session: Session,
    tables: &mut Tables,
    reply: Reply,
) -> (Session, anyhow::Result<()>) {
    match reply {
        Reply::Answered(answer) => (session, say(rt, answer)),
        Reply::List(sheet) => match bytes_of(rt, sheet) {
            Some(bytes) => (session, list(rt, bytes.as_slice())),
            None => (session, say_unreadable(rt)),
        },
        Reply::Load(sheet) => match bytes_of(rt, sheet) {
            Some(bytes) => {
                let (session, answer) = session.load(tables, bytes.as_slice());
                (session, say(rt, answer))
            }
            None => (session, say_unreadable(rt)),
        },
        Reply::Dump => (session, show(rt, tables)),
    }
}

fn turn(
    rt: &HostRuntime,
    session: Session,
    tables: &mut Tables,
    line: io::Result<Vec<u8>>,
) -> (Session, anyhow::Result<()>) {
    let line = match line {
        Ok(line) => line,
        Err(error) => return (session, Err(error.into())),
    };
    let (session, reply) = session.reply(tables, rt.alloc(), line.as_slice());
    match reply {
        Ok(Some(reply)) => act(rt, session, tables, reply),
        Ok(None) => (session, Ok(())),
        Err(lack) => (session, Err(lack.into())),
    }
}

fn answer_lines<R: Read + Drop>(rt: &HostRuntime, input: BufReader<R>) -> anyhow::Result<()> {
    let mut tables = layout::blank();
    let mut session = Session::new();
    for line in input.split(rt.alloc(), b'\n') {
        let (after, done) = turn(rt, session, &mut tables, line);
        session = after;
        if done.is_err() {
            session.end();
            return done;
        }
    }
    session.end();
    Ok(())
}

fn run(rt: &HostRuntime) -> anyhow::Result<()> {
    let Some(path) = env::args(rt)?.nth(1) else {
        return answer_lines(rt, BufReader::new(rt.alloc(), rt.stdin())?);
    };
    match File::open(rt, path.as_str()) {
        Ok(file) => answer_lines(rt, BufReader::new(rt.alloc(), file)?),
        Err(error) => Err(anyhow!(format!(in rt.alloc(); "cannot read {path}: {error}")?)),
    }
}

fn main(rt: HostRuntime) -> anyhow::Result<()> {
    run(&rt)
}
