use crate::check_table;
use crate::node::Node;
use crate::note::Note;
use crate::refusal::{Question, Refusal};
use crate::shelf::{Name, Shelf};
use std::process::Abort;

fn node(kind: u8, value: u32, a: u16, b: u16, next: u16) -> Node {
    let ty = if kind == 2 { 2 } else { 0 };
    Node {
        kind,
        ty,
        value,
        a,
        b,
        c: 0,
        next,
        line: kind as u16,
    }
}

// int main() { putIntLn(7); }
fn prints_seven() -> [Node; 6] {
    [
        node(1, 0, 2, 0, 0),
        node(2, 10, 0, 3, 0),
        node(10, 0, 0, 4, 0),
        node(18, 0, 5, 0, 0),
        node(25, 3, 6, 0, 0),
        node(20, 7, 0, 0, 0),
    ]
}

// What the check answers; the places of notes beyond the table must stay as they were.
fn ask(table: &[Node], notes: &mut [Note; 8]) -> Result<(), Refusal> {
    let mut shelf = Shelf { count: 7 };
    let mut names = [Name {
        name: 9,
        declaration: 9,
    }; 512];
    check_table(table, notes, &mut shelf, &mut names)
}

fn fresh() -> [Note; 8] {
    [Note {
        ty: 9,
        turned: true,
        declaration: 9,
    }; 8]
}

fn expect(rt: &impl Abort, table: &[Node], question: u8, at: u16) {
    let mut notes = fresh();
    let answer = ask(table, &mut notes).map_err(|no| (no.question.number(), no.node));
    assert_eq!(rt; answer, Err((question, at)));
    let first = if question == 1 { 9 } else { 0 };
    assert_eq!(rt; notes[0].ty, first);
}

#[test]
fn notes_of_an_accepted_table(rt: HostRuntime) {
    let mut notes = fresh();
    assert_eq!(rt; ask(&prints_seven(), &mut notes), Ok(()));
    assert_eq!(rt; notes[0].ty, 0);
    assert_eq!(rt; notes[4].ty, 7);
    assert_eq!(rt; notes[5].ty, 2);
    assert_eq!(rt; notes[5].turned, false);
    assert_eq!(rt; notes[6].ty, 9);
}

#[test]
fn a_line_comes_with_the_node(rt: HostRuntime) {
    let mut table = prints_seven();
    table[5].value = 2_147_483_648;
    let mut notes = fresh();
    let refusal = Refusal {
        question: Question::NodeForm,
        node: 6,
        line: 20,
    };
    assert_eq!(rt; ask(&table, &mut notes), Err(refusal));
    assert_eq!(rt; refusal.question.number(), 2);
}

#[test]
fn each_refusal(rt: HostRuntime) {
    expect(&rt, &[], 1, 0);
    expect(&rt, &[node(1, 0, 0, 0, 0)], 18, 1);
    let mut table = prints_seven();
    table[3].a = 4;
    expect(&rt, &table, 2, 4);
    table = prints_seven();
    table[4].a = 0;
    expect(&rt, &table, 3, 6);
    table[5].kind = 1;
    table[5].value = 0;
    expect(&rt, &table, 3, 6);
    table = prints_seven();
    table[4].value = 40;
    expect(&rt, &table, 9, 5);
    table[4].value = 9;
    expect(&rt, &table, 11, 5);
    table[4].value = 10;
    expect(&rt, &table, 19, 5);
    table = prints_seven();
    table[1].ty = 0;
    expect(&rt, &table, 18, 2);
    table = prints_seven();
    table[5] = node(25, 9, 0, 0, 0);
    expect(&rt, &table, 12, 6);
}

#[test]
fn a_second_main_is_not_new(rt: HostRuntime) {
    let table = [
        node(1, 0, 2, 0, 0),
        node(2, 10, 0, 3, 4),
        node(10, 0, 0, 0, 0),
        node(2, 10, 0, 5, 0),
        node(10, 0, 0, 0, 0),
    ];
    expect(&rt, &table, 5, 4);
}
