// The orders of roles: the worked cases, then the codes and bits on both sides of each limit.
use super::tells::{row, tell, yes_no};
use answer::Answer;
use drawn::Drawn;
use order::{Order, Role, RoleSet, has_role, holds_top, in_use, opens, set_below, with_role};
use rights::Rights;
use std::io;

// The order drawn from the pair (1, 2) alone.
fn one_pair() -> Drawn {
    let mut order = Drawn::fresh();
    let _ = order.draw(&[(1, 2)]);
    order
}

fn worked(rt: &HostRuntime) -> io::Result<()> {
    let order = one_pair();
    let sets: [(&str, RoleSet, RoleSet); 3] = [
        ("{0,1} <= {2}", 0b11, 0b100),
        ("{0,2} <= {1}", 0b101, 0b10),
        ("{0,1} <= {1,3}", 0b11, 0b1010),
    ];
    for (question, a, b) in sets {
        tell(rt, question, yes_no(set_below(&order, a, b)))?;
    }
    let codes: [(&str, Role, Role); 3] = [
        ("rights: 2 below 3", 2, 3),
        ("rights: 3 below 2", 3, 2),
        ("rights: 8 below 16", 8, 16),
    ];
    for (question, a, b) in codes {
        tell(rt, question, yes_no(Rights.at_or_below(a, b)))?;
    }
    Ok(())
}

const PAIRS: [(&str, Role, Role); 9] = [
    ("draw (3,4) (31,0)", 31, 0),
    ("draw (3,4) (0,31)", 0, 31),
    ("draw (3,4) (31,30)", 31, 30),
    ("draw (3,4) (32,0)", 32, 0),
    ("draw (3,4) (0,32)", 0, 32),
    ("draw (3,4) (32,32)", 32, 32),
    ("draw (3,4) (63,64)", 63, 64),
    ("draw (3,4) (0,4294967295)", 0, 4294967295),
    ("draw (3,4) (4294967295,0)", 4294967295, 0),
];

// A known pair stands before the one that is tried, so a refusal tells place 1, and keeps the pair (1, 2) of before.
fn draws(rt: &HostRuntime) -> io::Result<()> {
    for (question, a, b) in PAIRS {
        let mut order = one_pair();
        match order.draw(&[(3, 4), (a, b)]) {
            Ok(()) => tell(rt, question, "ok")?,
            Err(fault) => {
                let answer = Answer::PairRefused {
                    number: fault.number(),
                    pair: fault.pair,
                };
                tell(rt, question, answer.to_string(rt.alloc())?.as_str())?;
            }
        }
        tell(rt, "  has the pair", yes_no(order.at_or_below(a, b)))?;
        tell(rt, "  has (1,2)", yes_no(order.at_or_below(1, 2)))?;
    }
    Ok(())
}

const CODES: [Role; 8] = [0, 1, 31, 32, 62, 63, 64, 4294967295];

fn codes<O: Order>(rt: &HostRuntime, name: &str, order: &O) -> io::Result<()> {
    let top = O::TOP;
    tell(
        rt,
        name,
        "below itself, below top, above top, in the set of all bits",
    )?;
    for code in CODES {
        let itself = yes_no(order.at_or_below(code, code));
        let up = yes_no(order.at_or_below(code, top));
        let down = yes_no(order.at_or_below(top, code));
        let there = yes_no(has_role(RoleSet::MAX, code));
        row(rt, name, code, [itself, up, down, there])?;
    }
    Ok(())
}

// A set of one role, for each code; a code above 63 makes the empty set.
fn sets<O: Order>(rt: &HostRuntime, name: &str, order: &O) -> io::Result<()> {
    let top = with_role(0, O::TOP);
    tell(rt, name, "{r} <= itself, open to top, in use, holds top")?;
    for role in CODES {
        let set = with_role(0, role);
        let itself = yes_no(set_below(order, set, set));
        let opened = yes_no(opens(order, set, top));
        let used = yes_no(in_use::<O>(set));
        let topped = yes_no(holds_top::<O>(set));
        row(rt, name, role, [itself, opened, used, topped])?;
    }
    Ok(())
}

fn empty(rt: &HostRuntime) -> io::Result<()> {
    let order = one_pair();
    tell(rt, "{} <= {}", yes_no(set_below(&order, 0, 0)))?;
    tell(rt, "{} <= {1}", yes_no(set_below(&order, 0, 2)))?;
    tell(rt, "{1} <= {}", yes_no(set_below(&order, 2, 0)))?;
    tell(rt, "{1} open to {}", yes_no(opens(&order, 2, 0)))
}

pub(crate) fn run(rt: &HostRuntime) -> io::Result<()> {
    worked(rt)?;
    draws(rt)?;
    codes(rt, "drawn", &one_pair())?;
    codes(rt, "rights", &Rights)?;
    sets(rt, "drawn", &one_pair())?;
    sets(rt, "rights", &Rights)?;
    empty(rt)
}
