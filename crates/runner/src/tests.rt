use crate::refusal::GrantRefusal;
use crate::session::Session;
use crate::{advance, open};
use checker::node::Node;
use checker::note::Note;
use checker::shelf::{Name, Shelf};
use memories::{CellRecords, Value};
use std::process::Abort;

fn node(kind: u8, value: u32, a: u16, b: u16) -> Node {
    Node {
        kind,
        value,
        a,
        b,
        ..Node::default()
    }
}

// int main() { putIntLn(7); }
fn prints_seven() -> [Node; 6] {
    let mut main = node(2, 10, 0, 3);
    main.ty = 2;
    [
        node(1, 0, 2, 0),
        main,
        node(10, 0, 0, 4),
        node(18, 0, 5, 0),
        node(25, 3, 6, 0),
        node(20, 7, 0, 0),
    ]
}

fn no_notes() -> [Note; 6] {
    [Note::default(); 6]
}

fn opened(
    rt: &impl Abort,
    table: &[Node],
    notes: &mut [Note],
    memory: &mut CellRecords,
) -> Session {
    let mut session = Session::new();
    let mut shelf = Shelf { count: 0 };
    let mut names = [Name::default(); 512];
    assert!(rt;
        open(
            &mut session,
            table,
            notes,
            &mut shelf,
            &mut names,
            memory,
            &[],
            2,
        )
        .is_ok()
    );
    session
}

#[test]
fn prints_in_four_steps(rt: HostRuntime) {
    let table = prints_seven();
    let mut notes = no_notes();
    let mut cells = [Value::default(); 4];
    let mut memory = CellRecords::new(&mut cells);
    let mut session = opened(&rt, &table, &mut notes, &mut memory);
    for place in 3..6 {
        assert!(rt; advance(&mut session, &table, &notes, &mut memory, 1).is_ok());
        assert_eq!(rt; session.place(), place);
        assert_eq!(rt; session.verdict().number(), 0);
        assert_eq!(rt; session.output().len(), 0);
    }
    assert!(rt; advance(&mut session, &table, &notes, &mut memory, 9).is_ok());
    assert_eq!(rt; session.steps(), 4);
    assert_eq!(rt; session.verdict().number(), 1);
    assert_eq!(rt; session.verdict().value(), 0);
    assert_eq!(rt; session.output(), b"7\n".as_slice());
}

#[test]
fn another_table_has_no_rule(rt: HostRuntime) {
    let table = prints_seven();
    let mut notes = no_notes();
    let mut cells = [Value::default(); 4];
    let mut memory = CellRecords::new(&mut cells);
    let mut session = opened(&rt, &table, &mut notes, &mut memory);
    let other = [node(99, 0, 0, 0); 6];
    assert!(rt; advance(&mut session, &other, &notes, &mut memory, 5).is_ok());
    assert_eq!(rt; session.steps(), 1);
    assert_eq!(rt; session.verdict().number(), 2);
    assert_eq!(rt; session.verdict().value(), 11);
    assert_eq!(rt; session.place(), 3);
}

fn number(answer: Result<u32, GrantRefusal>) -> Option<u8> {
    answer.err().map(|refusal| refusal.number())
}

#[test]
fn grants_are_refused(rt: HostRuntime) {
    let table = prints_seven();
    let mut notes = no_notes();
    let mut cells = [Value::default(); 4];
    let mut memory = CellRecords::new(&mut cells);
    let mut new = Session::new();
    assert_eq!(rt;
        number(advance(&mut new, &table, &notes, &mut memory, 0)),
        Some(40)
    );
    let mut session = opened(&rt, &table, &mut notes, &mut memory);
    assert_eq!(rt;
        number(advance(&mut session, &table, &notes, &mut memory, 1_000_001)),
        Some(41)
    );
    assert_eq!(rt;
        number(advance(&mut session, &table, &notes, &mut memory, 1_000_000)),
        None
    );
}
