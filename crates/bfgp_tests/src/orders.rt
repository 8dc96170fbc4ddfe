//! Searches by each order of one evaluation and of two.
//!
//! A row has the exit status, the order and the verdict, and then the trees of three lines and of four: the stamp of each split, and
//! with `+` how many partial programs that were not split follow it.

use crate::calls::{check_accepted, search, shelf_of};
use std::alloc::{AllocError, Global};
use std::process::Abort;
use std::test::Fail;

// The files that searches are made over, and their trees of one line and of two; and a row for each order.
struct Table {
    inputs: &'static str,
    front: &'static str,
    rows: &'static str,
}

const TABLES: &[Table] = &[
    Table {
        inputs: "lights two",
        front: "+1 / 0 +5",
        rows: TWO_LIGHTS,
    },
    Table {
        inputs: "dimmer one-lit",
        front: "+1 / 0 +6",
        rows: DIMMED_ROWS,
    },
];

const TWO_LIGHTS: &str = "\
0 e1 program 4: 1 2 +9 3 +9 4 +9 5 +9 6 +9 7 +10 8 +10 / 9 10 15 +13 16 +13 17 +23 11 +13 12 +13 13 +13 14 +21
0 e2 program 4: 1 2 +9 3 +9 4 +9 5 +9 6 +9 7 +10 8 +10 / 9 10 11 +13 12 +13 13 +35
0 e3 program 4: 1 2 +9 3 +9 4 +9 5 +9 6 +9 7 +10 8 +10 / 9 10 +1 21 +13 22 +23 11 +13 12 +13 13 +13 14 +13 15 +13 16 +13 17 +13 18 +13 19 +14 20 +14
0 e4 program 4: 1 2 +9 3 +9 4 +9 5 +9 6 +9 7 +10 8 +10 / 9 12 13 +13 14 +13 15 +28 10 +14 11 +17
0 e5 program 4: 1 2 +9 3 +9 4 +9 5 +9 6 +9 7 +10 8 +10 / 9 10 11 +13 12 +13 13 +35
0 e6 program 4: 1 2 +9 3 +9 4 +9 5 +9 6 +9 7 +10 8 +10 / 9 10 21 +13 22 +13 23 +23 11 +13 12 +13 13 +13 14 +13 15 +13 16 +13 17 +13 18 +13 19 +14 20 +14
0 e1,e2 program 4: 1 2 +9 3 +9 4 +9 5 +9 6 +9 7 +10 8 +10 / 9 10 11 +13 12 +13 13 +35
0 e1,e3 program 4: 1 2 +9 3 +9 4 +9 5 +9 6 +9 7 +10 8 +10 / 9 10 +1 15 +13 16 +23 11 +13 12 +13 13 +13 14 +21
0 e1,e4 program 4: 1 2 +9 3 +9 4 +9 5 +9 6 +9 7 +10 8 +10 / 9 10 11 +13 12 +13 13 +35
0 e1,e5 program 4: 1 2 +9 3 +9 4 +9 5 +9 6 +9 7 +10 8 +10 / 9 10 11 +13 12 +13 13 +35
0 e1,e6 program 4: 1 2 +9 3 +9 4 +9 5 +9 6 +9 7 +10 8 +10 / 9 10 15 +13 16 +13 17 +23 11 +13 12 +13 13 +13 14 +21
0 e2,e1 program 4: 1 2 +9 3 +9 4 +9 5 +9 6 +9 7 +10 8 +10 / 9 10 11 +13 12 +13 13 +35
0 e2,e3 program 4: 1 2 +9 3 +9 4 +9 5 +9 6 +9 7 +10 8 +10 / 9 10 +1 11 +13 12 +35
0 e2,e4 program 4: 1 2 +9 3 +9 4 +9 5 +9 6 +9 7 +10 8 +10 / 9 16 17 +13 18 +13 19 +28 10 +10 11 +14 12 +14 13 +10 14 +14 15 +17
0 e2,e5 program 4: 1 2 +9 3 +9 4 +9 5 +9 6 +9 7 +10 8 +10 / 9 10 11 +13 12 +13 13 +35
0 e2,e6 program 4: 1 2 +9 3 +9 4 +9 5 +9 6 +9 7 +10 8 +10 / 9 10 11 +13 12 +13 13 +35
0 e3,e1 program 4: 1 2 +9 3 +9 4 +9 5 +9 6 +9 7 +10 8 +10 / 9 10 +1 15 +13 16 +23 11 +13 12 +13 13 +13 14 +21
0 e3,e2 program 4: 1 2 +9 3 +9 4 +9 5 +9 6 +9 7 +10 8 +10 / 9 10 +1 11 +13 12 +35
0 e3,e4 program 4: 1 2 +9 3 +9 4 +9 5 +9 6 +9 7 +10 8 +10 / 9 12 +1 13 +13 14 +28 10 +14 11 +17
0 e3,e5 program 4: 1 2 +9 3 +9 4 +9 5 +9 6 +9 7 +10 8 +10 / 9 10 +1 11 +13 12 +35
0 e3,e6 program 4: 1 2 +9 3 +9 4 +9 5 +9 6 +9 7 +10 8 +10 / 9 10 +1 21 +13 22 +23 11 +13 12 +13 13 +13 14 +13 15 +13 16 +13 17 +13 18 +13 19 +14 20 +14
0 e4,e1 program 4: 1 2 +9 3 +9 4 +9 5 +9 6 +9 7 +10 8 +10 / 9 12 13 +13 14 +13 15 +28 10 +14 11 +17
0 e4,e2 program 4: 1 2 +9 3 +9 4 +9 5 +9 6 +9 7 +10 8 +10 / 9 16 17 +13 18 +13 19 +28 10 +10 12 +14 13 +14 11 +10 14 +14 15 +17
0 e4,e3 program 4: 1 2 +9 3 +9 4 +9 5 +9 6 +9 7 +10 8 +10 / 9 12 +1 13 +13 14 +28 10 +14 11 +17
0 e4,e5 program 4: 1 2 +9 3 +9 4 +9 5 +9 6 +9 7 +10 8 +10 / 9 12 13 +13 14 +13 15 +28 10 +14 11 +17
0 e4,e6 program 4: 1 2 +9 3 +9 4 +9 5 +9 6 +9 7 +10 8 +10 / 9 12 13 +13 14 +13 15 +28 10 +14 11 +17
0 e5,e1 program 4: 1 2 +9 3 +9 4 +9 5 +9 6 +9 7 +10 8 +10 / 9 10 11 +13 12 +13 13 +35
0 e5,e2 program 4: 1 2 +9 3 +9 4 +9 5 +9 6 +9 7 +10 8 +10 / 9 10 11 +13 12 +13 13 +35
0 e5,e3 program 4: 1 2 +9 3 +9 4 +9 5 +9 6 +9 7 +10 8 +10 / 9 10 +1 11 +13 12 +35
0 e5,e4 program 4: 1 2 +9 3 +9 4 +9 5 +9 6 +9 7 +10 8 +10 / 9 10 11 +13 12 +13 13 +35
0 e5,e6 program 4: 1 2 +9 3 +9 4 +9 5 +9 6 +9 7 +10 8 +10 / 9 10 11 +13 12 +13 13 +35
0 e6,e1 program 4: 1 2 +9 3 +9 4 +9 5 +9 6 +9 7 +10 8 +10 / 9 10 21 +13 22 +13 23 +23 11 +13 12 +13 13 +13 14 +13 15 +13 16 +13 17 +13 18 +13 19 +14 20 +14
0 e6,e2 program 4: 1 2 +9 3 +9 4 +9 5 +9 6 +9 7 +10 8 +10 / 9 10 21 +13 22 +13 23 +23 11 +13 12 +13 13 +13 14 +13 15 +13 16 +13 17 +13 18 +13 19 +14 20 +14
0 e6,e3 program 4: 1 2 +9 3 +9 4 +9 5 +9 6 +9 7 +10 8 +10 / 9 10 +1 21 +13 22 +23 11 +13 12 +13 13 +13 14 +13 15 +13 16 +13 17 +13 18 +13 19 +14 20 +14
0 e6,e4 program 4: 1 2 +9 3 +9 4 +9 5 +9 6 +9 7 +10 8 +10 / 9 12 21 +13 22 +13 23 +23 13 +13 14 +13 15 +13 16 +13 17 +13 10 +13 18 +13 11 +13 19 +14 20 +14
0 e6,e5 program 4: 1 2 +9 3 +9 4 +9 5 +9 6 +9 7 +10 8 +10 / 9 10 21 +13 22 +13 23 +23 11 +13 12 +13 13 +13 14 +13 15 +13 16 +13 17 +13 18 +13 19 +14 20 +14
";

// The first of three lights is lit, and all shall be; what is lit can be dimmed.
const DIMMED: &str = "\
dimmer: (define (domain lights) (:predicates (lit ?x)) (:action dim :parameters (?x) :precondition (lit ?x) :effect (not (lit ?x))) (:action light :parameters (?x) :precondition () :effect (lit ?x)))
one-lit: (define (problem p) (:domain lights) (:objects a b c) (:init (lit a)) (:goal (and (lit a) (lit b) (lit c))))
";

const DIMMED_ROWS: &str = "\
4 e1 spent expansions 4: 1 2 +10 3 +10 4 +10 5 +10 6 +10 7 +10 8 +11 9 +11 / 10 11 17 +14 18 +14 19 +14 20 +14 21 +14 22 +22 12 23 +27 13 +14 14 +14 15 +14 16 +22
4 e2 spent expansions 4: 1 2 +10 3 +10 4 +10 5 +10 6 +10 7 +10 8 +11 9 +11 / 10 11 12 +14 13 +14 14 +14 15 +14 16 +14 17 +14 18 +14 19 +14 20 +14 21 +14 22 +16 23 +27
4 e3 spent expansions 4: 1 2 +10 3 +10 4 +10 5 +10 6 +10 7 +10 8 +11 9 +11 / 10 11 +1 23 +26 12 +14 13 +14 14 +14 15 +14 16 +14 17 +14 18 +14 19 +14 20 +14 21 +15 22 +15
4 e4 spent expansions 4: 1 2 +10 3 +10 4 +10 5 +10 6 +10 7 +10 8 +11 9 +11 / 10 13 14 +14 15 +14 16 +14 17 +14 18 +14 19 +14 20 +14 21 +14 22 +14 23 +24 11 +15 12 +18
4 e5 spent expansions 4: 1 9 +10 2 +10 3 +10 4 +10 5 +10 6 +10 7 +11 8 +11 / 10 +1 11 +1 23 +26 12 +14 13 +1 14 +26 15 +14 16 +14 17 +14 18 +14 19 +14 20 +14 21 +15 22 +15
4 e6 spent expansions 4: 1 2 +10 3 +10 4 +10 5 +10 6 +10 7 +10 8 +11 9 +11 / 10 11 23 +27 12 +14 13 +14 14 +14 15 +14 16 +14 17 +14 18 +14 19 +14 20 +14 21 +15 22 +15
0 e1,e2 program 4: 1 2 +10 3 +10 4 +10 5 +10 6 +10 7 +10 8 +11 9 +11 / 10 11 12 +14 13 +14 14 +14 15 +14 16 +14 17 +22 18 19 +14 20 +14 21 +14 22 +36
4 e1,e3 spent expansions 4: 1 2 +10 3 +10 4 +10 5 +10 6 +10 7 +10 8 +11 9 +11 / 10 11 +1 17 +14 18 +14 19 +14 20 +14 21 +22 12 22 +15 23 +25 13 +14 14 +14 15 +14 16 +22
0 e1,e4 program 4: 1 2 +10 3 +10 4 +10 5 +10 6 +10 7 +10 8 +11 9 +11 / 10 11 12 +14 13 +14 14 +14 15 +14 16 +14 17 +22 18 19 +14 20 +14 21 +14 22 +36
0 e1,e5 program 4: 1 7 +10 2 +10 3 +10 4 +10 5 +10 6 +10 8 +11 9 +11 / 10 +1 11 +1 17 +14 18 +14 19 +24 12 +14 13 +1 14 +26 15 +14 16 +22
4 e1,e6 spent expansions 4: 1 2 +10 3 +10 4 +10 5 +10 6 +10 7 +10 8 +11 9 +11 / 10 11 17 +14 18 +14 19 +14 20 +14 21 +14 22 +22 12 23 +27 13 +14 14 +14 15 +14 16 +22
4 e2,e1 spent expansions 4: 1 2 +10 3 +10 4 +10 5 +10 6 +10 7 +10 8 +11 9 +11 / 10 11 12 +14 13 +14 14 +14 15 +14 16 +14 17 +14 18 +14 19 +14 20 +14 21 +14 22 +16 23 +27
4 e2,e3 spent expansions 4: 1 2 +10 3 +10 4 +10 5 +10 6 +10 7 +10 8 +11 9 +11 / 10 11 23 +14 12 +14 13 +14 14 +14 15 +14 16 +14 17 +14 18 +14 19 +14 20 +14 21 +16 22 +27
4 e2,e4 spent expansions 4: 1 2 +10 3 +10 4 +10 5 +10 6 +10 7 +10 8 +11 9 +11 / 10 17 18 +14 19 +14 20 +14 21 +14 22 +14 23 +28 11 +11 12 +15 13 +15 14 +11 15 +15 16 +18
0 e2,e5 program 4: 1 9 +10 2 +10 3 +10 4 +10 5 +10 6 +10 7 +11 8 +11 / 10 +1 11 +1 12 +14 13 +14 14 +36
4 e2,e6 spent expansions 4: 1 2 +10 3 +10 4 +10 5 +10 6 +10 7 +10 8 +11 9 +11 / 10 11 12 +14 13 +14 14 +14 15 +14 16 +14 17 +14 18 +14 22 +14 23 +14 19 +14 20 +16 21 +27
4 e3,e1 spent expansions 4: 1 2 +10 3 +10 4 +10 5 +10 6 +10 7 +10 8 +11 9 +11 / 10 11 +1 17 +14 18 +14 19 +14 20 +14 21 +22 12 22 +15 23 +25 13 +14 14 +14 15 +14 16 +22
4 e3,e2 spent expansions 4: 1 2 +10 3 +10 4 +10 5 +10 6 +10 7 +10 8 +11 9 +11 / 10 11 +1 12 +14 13 +14 14 +14 15 +14 16 +14 17 +14 18 +14 19 +14 20 +14 21 +16 22 +14 23 +26
4 e3,e4 spent expansions 4: 1 2 +10 3 +10 4 +10 5 +10 6 +10 7 +10 8 +11 9 +11 / 10 13 +1 14 +14 15 +14 16 +14 17 +14 18 +14 19 +14 20 +14 21 +14 22 +14 23 +23 11 +15 12 +18
4 e3,e5 spent expansions 4: 1 9 +10 2 +10 3 +10 4 +10 5 +10 6 +10 7 +11 8 +11 / 10 +1 11 +2 23 +25 12 +14 13 +1 14 +26 15 +14 16 +14 17 +14 18 +14 19 +14 20 +14 21 +15 22 +15
4 e3,e6 spent expansions 4: 1 2 +10 3 +10 4 +10 5 +10 6 +10 7 +10 8 +11 9 +11 / 10 11 +1 23 +26 12 +14 13 +14 14 +14 15 +14 16 +14 17 +14 18 +14 19 +14 20 +14 21 +15 22 +15
4 e4,e1 spent expansions 4: 1 2 +10 3 +10 4 +10 5 +10 6 +10 7 +10 8 +11 9 +11 / 10 13 14 +14 15 +14 16 +14 17 +14 18 +14 19 +14 20 +14 21 +14 22 +14 23 +24 11 +15 12 +18
4 e4,e2 spent expansions 4: 1 2 +10 3 +10 4 +10 5 +10 6 +10 7 +10 8 +11 9 +11 / 10 17 18 +14 19 +14 20 +14 21 +14 22 +14 23 +28 11 +11 13 +15 14 +15 12 +11 15 +15 16 +18
4 e4,e3 spent expansions 4: 1 2 +10 3 +10 4 +10 5 +10 6 +10 7 +10 8 +11 9 +11 / 10 13 +1 14 +14 15 +14 16 +14 17 +14 18 +14 19 +14 20 +14 21 +14 22 +14 23 +23 11 +15 12 +18
0 e4,e5 program 4: 1 9 +10 2 +10 3 +10 4 +10 5 +10 6 +10 7 +11 8 +11 / 10 +1 13 +1 14 +14 15 +14 16 +29 11 +15 12 +18
4 e4,e6 spent expansions 4: 1 2 +10 3 +10 4 +10 5 +10 6 +10 7 +10 8 +11 9 +11 / 10 13 14 +14 15 +14 16 +14 17 +14 18 +14 19 +14 20 +16 21 +14 22 +16 23 +20 11 +15 12 +18
0 e5,e1 program 4: 1 9 +10 2 +10 3 +10 4 +10 5 +10 6 +10 7 +11 8 +11 / 10 +1 11 +1 17 +14 18 +14 19 +24 12 +14 13 +1 14 +26 15 +14 16 +22
0 e5,e2 program 4: 1 9 +10 2 +10 3 +10 4 +10 5 +10 6 +10 7 +11 8 +11 / 10 +1 11 +1 12 +14 13 +14 14 +36
4 e5,e3 spent expansions 4: 1 9 +10 2 +10 3 +10 4 +10 5 +10 6 +10 7 +11 8 +11 / 10 +1 11 +2 23 +25 12 +14 13 +1 14 +26 15 +14 16 +14 17 +14 18 +14 19 +14 20 +14 21 +15 22 +15
0 e5,e4 program 4: 1 9 +10 2 +10 3 +10 4 +10 5 +10 6 +10 7 +11 8 +11 / 10 +1 13 +1 14 +14 15 +14 16 +29 11 +15 12 +18
4 e5,e6 spent expansions 4: 1 9 +10 2 +10 3 +10 4 +10 5 +10 6 +10 7 +11 8 +11 / 10 +1 11 +1 23 +26 12 +14 13 +1 14 +26 15 +14 16 +14 17 +14 18 +14 19 +14 20 +14 21 +15 22 +15
4 e6,e1 spent expansions 4: 1 2 +10 3 +10 4 +10 5 +10 6 +10 7 +10 8 +11 9 +11 / 10 11 23 +27 12 +14 13 +14 14 +14 15 +14 16 +14 17 +14 18 +14 19 +14 20 +14 21 +15 22 +15
4 e6,e2 spent expansions 4: 1 2 +10 3 +10 4 +10 5 +10 6 +10 7 +10 8 +11 9 +11 / 10 11 23 +27 12 +14 13 +14 14 +14 15 +14 16 +14 17 +14 18 +14 19 +14 20 +14 21 +15 22 +15
4 e6,e3 spent expansions 4: 1 2 +10 3 +10 4 +10 5 +10 6 +10 7 +10 8 +11 9 +11 / 10 11 +1 23 +26 12 +14 13 +14 14 +14 15 +14 16 +14 17 +14 18 +14 19 +14 20 +14 21 +15 22 +15
4 e6,e4 spent expansions 4: 1 2 +10 3 +10 4 +10 5 +10 6 +10 7 +10 8 +11 9 +11 / 10 13 23 +27 14 +14 15 +14 16 +14 17 +14 18 +14 19 +14 11 +14 20 +14 12 +14 21 +15 22 +15
4 e6,e5 spent expansions 4: 1 9 +10 2 +10 3 +10 4 +10 5 +10 6 +10 7 +11 8 +11 / 10 22 +14 11 +14 12 +14 13 +1 23 +26 14 +14 15 +14 16 +14 17 +14 18 +14 19 +14 20 +15 21 +15
";

#[test]
fn orders_of_one_evaluation_and_of_two(rt: HostRuntime) -> Result<(), Fail> {
    for table in TABLES {
        for row in table.rows.lines() {
            check_order(&rt, rt.alloc(), table, row)?;
        }
    }
    Ok(())
}

// Compares how a search by an order ends within 24 splits, and its trees; and checks that its document is accepted.
fn check_order<R: Abort>(rt: &R, alloc: Global, table: &Table, row: &str) -> Result<(), Fail> {
    let (head, trees) = row.split_once(": ").unwrap_or((row, ""));
    let order = head.split(' ').nth(1).unwrap_or("");
    let words = words_of(alloc, order, table.inputs)?;
    let mut shelf = shelf_of(alloc, DIMMED)?;
    let answer = search(alloc, &mut shelf, words.as_str())?;
    let outline = outline_of(alloc, answer.document.as_str())?;
    let (status, verdict) = (answer.status.as_str(), answer.verdict());
    let got = format!(in alloc; "{status} {order} {verdict}:{outline}")?;
    let wanted = format!(in alloc; "{head}: {} / {trees}", table.front)?;
    assert_eq!(rt; got.as_str(), wanted.as_str());
    check_accepted(
        rt,
        alloc,
        &mut shelf,
        words.as_str(),
        answer.document.as_str(),
    )
}

// The words of a search by an order within 24 splits.
fn words_of(alloc: Global, order: &str, inputs: &str) -> Result<String, AllocError> {
    format!(in alloc; "synth --pointers 1 --lines 5 --budget 24 --order {order} {inputs}")
}

// The stamps of the splits of a document, and how many partial programs stand between them; ` /` parts trees.
fn outline_of(alloc: Global, document: &str) -> Result<String, AllocError> {
    let (_, trees) = document.split_once("\ntree 1\n").unwrap_or((document, ""));
    let mut outline = String::new(alloc);
    let mut leaves: u16 = 0;
    for line in trees.lines() {
        match line.strip_prefix("s ") {
            Some(split) => {
                push_count(&mut outline, leaves)?;
                leaves = 0;
                let (_, stamp) = split.split_once(' ').unwrap_or((split, ""));
                write!(outline, " {stamp}")?;
            }
            None if line.starts_with("tree ") => {
                push_count(&mut outline, leaves)?;
                leaves = 0;
                outline.push_str(" /")?;
            }
            None if line == "program" || line == "end of answer" => break,
            None => leaves = leaves.saturating_add(1),
        }
    }
    push_count(&mut outline, leaves)?;
    Ok(outline)
}

// Writes how many partial programs were not split, if there are any.
fn push_count(outline: &mut String, leaves: u16) -> Result<(), AllocError> {
    if leaves > 0 {
        write!(outline, " +{leaves}")?;
    }
    Ok(())
}
