// The console's lines: both sides of each limit of what can be written.
use super::sheets::first;
use super::tells::tell;
use layout::Tables;
use session::{Reply, Session};
use std::io;
use words::Sheet;

const LINES: [&str; 97] = [
    "draw 31 0",
    "draw 32 0",
    "draw 0 31 0 32",
    "draw",
    "draw 1",
    "draw 1 2 3",
    "draw 1 2",
    "below 1 2",
    "below 2 1",
    "below 31 0",
    "below 32 0",
    "below 4294967295 0",
    "below 4294967296 0",
    "below 0001 02",
    "below -1 0",
    "below 1",
    "below 1 2 3",
    "under {63} {63}",
    "under {64} {63}",
    "under {} {}",
    "under {0,1} {2}",
    "under {1,0,1} {2}",
    "under {0,1,} {2}",
    "under {0, 1} {2}",
    "opens {0,3} {}",
    "order rights",
    "below 63 63",
    "draw 1 2",
    "order tanks",
    "step 0",
    "march 0",
    "post 0",
    "post 0 0",
    "step x",
    "recall 0 0",
    "show 0 0 {0}",
    "show 0 0 0",
    "audit 1",
    "list hex 01fF",
    "list hex 01f",
    "list hex 0g",
    "list hex",
    "list hex 01 02",
    "list file f.sheet",
    "list file",
    "list file a b",
    "list text 01",
    "list",
    "load hex 0101",
    "close",
    "dump",
    "load hex 0101",
    "load hex 0101",
    "load file house.sheet",
    "close",
    "close",
    "load hex 01",
    "load hex 018200",
    "load hex 0c",
    "load hex 03000102",
    "load file",
    "load hex",
    "load text 01",
    "close 1",
    "dump 1",
    "load hex 0101020000010a",
    "poke 1 0 0 18446744073709551615",
    "poke 1 0 0 18446744073709551616",
    "poke 2 0 0 4294967295",
    "poke 2 0 0 4294967296",
    "poke 1 15 0 1",
    "poke 1 16 0 1",
    "poke 1 4294967295 0 17",
    "poke 1 4294967295 1 17",
    "poke 1 0 1 1",
    "poke 10 0 0 1",
    "poke 0 0 14 1",
    "poke 0 0 15 1",
    "poke 255 1023 5 1",
    "poke 255 1024 5 1",
    "poke 255 4294967295 64 1",
    "poke 255 4294967295 65 1",
    "poke 5 4294967295 15 1",
    "poke 5 4294967295 16 1",
    "poke 5 127 0 1",
    "poke 5 128 0 1",
    "poke 1 0 0",
    "poke 1 0 0 1 1",
    "poke x 0 0 1",
    "poke 1 -1 0 1",
    "poke 4294967296 0 0 1",
    "order drawn",
    "close",
    "",
    "   ",
    "# draw 1 2",
    " \t#",
];

fn tell_reply(rt: &HostRuntime, line: &str, reply: Option<Reply>) -> io::Result<()> {
    match reply {
        None => tell(rt, line, "(passed over)"),
        Some(Reply::Answered(answer)) => tell(rt, line, answer.to_string(rt.alloc())?.as_str()),
        Some(Reply::List(Sheet::Bytes(sheet))) => first(rt, line, sheet.as_slice()),
        Some(Reply::List(Sheet::File(_))) => tell(rt, line, "(a file to be listed)"),
        Some(Reply::Load(Sheet::Bytes(_))) => tell(rt, line, "(a sheet to be loaded)"),
        Some(Reply::Load(Sheet::File(_))) => tell(rt, line, "(a file to be loaded)"),
        Some(Reply::Dump) => tell(rt, line, "(the tables)"),
    }
}

fn turn(
    rt: &HostRuntime,
    session: Session,
    tables: &mut Tables,
    line: &str,
) -> (Session, io::Result<()>) {
    let (session, reply) = session.reply(tables, rt.alloc(), line.as_bytes());
    match reply {
        // Only the bytes of a sheet are loaded here; a file is fetched by the console.
        Ok(Some(Reply::Load(Sheet::Bytes(sheet)))) => {
            let (session, answer) = session.load(tables, sheet.as_slice());
            (session, tell_reply(rt, line, Some(Reply::Answered(answer))))
        }
        Ok(reply) => (session, tell_reply(rt, line, reply)),
        Err(lack) => (session, Err(lack.into())),
    }
}

pub(crate) fn run(rt: &HostRuntime) -> io::Result<()> {
    let mut tables = layout::blank();
    let mut session = Session::new();
    for line in LINES {
        let (after, told) = turn(rt, session, &mut tables, line);
        session = after;
        if told.is_err() {
            session.end();
            return told;
        }
    }
    session.end();
    Ok(())
}
