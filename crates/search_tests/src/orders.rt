//! Texts that are read as orders, and the keys that orders give.

use evaluations::{Key, Order, Standing, key};
use flag_rules::Cond;
use program_model::{Instr, MAX_INSTANCES, MAX_LINES, MAX_RUN, Partial};
use std::alloc::{AllocError, Global};
use std::test::Fail;

// Texts, and the evaluations that they name, or the first entry that is no name or stands before.
const ORDERS: &[(&str, &str)] = &[
    ("", "Empty"),
    (",", "Name(0)"),
    ("e7", "Name(0)"),
    ("e0", "Name(0)"),
    ("e", "Name(0)"),
    ("e10", "Name(0)"),
    ("E1", "Name(0)"),
    (" e1", "Name(0)"),
    ("e1 ,e2", "Name(0)"),
    (",e1", "Name(0)"),
    ("e9,e1,e1", "Name(0)"),
    ("e5,e9", "Name(1)"),
    ("e1,", "Name(1)"),
    ("e1,,e2", "Name(1)"),
    ("e1, e2", "Name(1)"),
    ("e1,e9,e1", "Name(1)"),
    ("e1,e1", "Repeated(1)"),
    ("e1,e1,e9", "Repeated(1)"),
    ("e1,e2,e3,e1,e2", "Repeated(3)"),
    ("e1,e2,e3,e4,e5,e6,e7", "Name(6)"),
    ("e1,e2,e3,e4,e5,e6,e6", "Repeated(6)"),
    ("e1,e2,e3,e4,e5,e6,e1", "Repeated(6)"),
    ("e1", "[Jumps]"),
    ("e2", "[UndefinedLines]"),
    ("e3", "[RepeatedInstructions]"),
    ("e4", "[LinesBehind]"),
    ("e5", "[MissingAtoms]"),
    ("e6", "[Steps]"),
    ("e5,e1", "[MissingAtoms, Jumps]"),
    (
        "e6,e5,e4,e3,e2,e1",
        "[Steps, MissingAtoms, LinesBehind, RepeatedInstructions, UndefinedLines, Jumps]",
    ),
];

#[test]
fn texts_of_orders(rt: HostRuntime) -> Result<(), Fail> {
    for (text, read) in ORDERS {
        assert_eq!(rt; read_order(rt.alloc(), text)?.as_str(), *read, "{text}");
    }
    Ok(())
}

// The evaluations that a text names, or why it is no order.
fn read_order(alloc: Global, text: &str) -> Result<String, AllocError> {
    match Order::read(text) {
        Ok(order) => format!(in alloc; "{:?}", order.evaluations()),
        Err(refusal) => format!(in alloc; "{refusal:?}"),
    }
}

const AGAIN: Instr = Instr::Goto {
    target: 3,
    cond: Cond::Nocarry,
};

const ELSEWHERE: Instr = Instr::Goto {
    target: 3,
    cond: Cond::Carry,
};

// The lines of a partial program before its `end`, where its runs stand, and its keys by orders.
struct Keys {
    lines: &'static [Option<Instr>],
    standings: &'static [Standing],
    keys: &'static [(&'static str, &'static [u64])],
}

// One light of two and one of three are lit, and the third line is undefined. Then two instructions are repeated, jumps differ in
// their condition, and the run that stands at the greatest line is not the last; one run has ended. Then all lines but the last
// are undefined, of two and of sixteen lines.
const KEYS: &[Keys] = &[
    Keys {
        lines: &[Some(Instr::Op(0)), Some(Instr::Op(2)), None],
        standings: &[
            Standing {
                missing: 1,
                steps: 2,
                waits: Some(2),
            },
            Standing {
                missing: 2,
                steps: 2,
                waits: Some(2),
            },
        ],
        keys: &[
            ("e1", &[0]),
            ("e2", &[1]),
            ("e3", &[0]),
            ("e4", &[1]),
            ("e5", &[3]),
            ("e6", &[4]),
            ("e5,e1", &[3, 0]),
            ("e6,e2", &[4, 1]),
            ("e1,e2,e3,e4,e5,e6", &[0, 1, 0, 1, 3, 4]),
            ("e6,e5,e4,e3,e2,e1", &[4, 3, 1, 0, 1, 0]),
        ],
    },
    Keys {
        lines: &[
            Some(AGAIN),
            None,
            None,
            Some(Instr::Op(1)),
            Some(Instr::Op(1)),
            Some(AGAIN),
            Some(Instr::Op(1)),
            Some(ELSEWHERE),
        ],
        standings: &[
            Standing {
                missing: 7,
                steps: 5,
                waits: Some(1),
            },
            Standing {
                missing: 0,
                steps: 6,
                waits: Some(2),
            },
            Standing {
                missing: 4,
                steps: 10_000_000,
                waits: Some(1),
            },
            Standing {
                missing: 0,
                steps: 9,
                waits: None,
            },
        ],
        keys: &[("e1,e2,e3,e4,e5,e6", &[3, 2, 3, 6, 11, 10_000_020])],
    },
    Keys {
        lines: &[None],
        standings: &[Standing {
            missing: 0,
            steps: 0,
            waits: Some(0),
        }],
        keys: &[("e1,e2,e3,e4,e5,e6", &[0, 1, 0, 1, 0, 0])],
    },
    Keys {
        lines: &[None; 15],
        standings: &[Standing {
            missing: u32::MAX,
            steps: 0,
            waits: Some(0),
        }; 32],
        keys: &[("e1,e2,e3,e4,e5,e6", &[0, 15, 0, 15, 137_438_953_440, 0])],
    },
];

#[test]
fn keys_of_partial_programs(rt: HostRuntime) -> Result<(), Fail> {
    for row in KEYS {
        let partial = partial_of(row.lines);
        for (text, entries) in row.keys {
            let Ok(order) = Order::read(text) else {
                return Err(Fail::new("no order"));
            };
            let Some(key) = key_of(&order, &partial, row.standings) else {
                return Err(Fail::new("too many standings, or too many steps"));
            };
            assert_eq!(rt; key.as_slice(), *entries, "{text}");
        }
    }
    Ok(())
}

// The partial program of these lines before its `end`, of which there are at most 15.
fn partial_of(lines: &[Option<Instr>]) -> Partial {
    let most = MAX_LINES - 1;
    let above = u8::try_from(lines.len()).unwrap_or(most).min(most);
    let mut partial = Partial::empty(above + 1);
    for (line, instr) in (0..above).zip(lines) {
        if let Some(instr) = instr
            && line < partial.lines() - 1
        {
            partial.define(line, *instr);
        }
    }
    partial
}

// The key by an order, where the standings are few enough and of few enough steps.
fn key_of(order: &Order, partial: &Partial, standings: &[Standing]) -> Option<Key> {
    if standings.len() <= usize::from(MAX_INSTANCES)
        && standings.iter().all(|standing| standing.steps <= MAX_RUN)
    {
        Some(key(order, partial, standings))
    } else {
        None
    }
}
