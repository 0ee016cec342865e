//! Texts that are read and texts that are refused.

use crate::dimacs::read;
use crate::refusal::Refusal;
use solve_solver::PLit;
use std::test::Fail;

#[test]
fn clauses_go_over_lines_in_any_way(rt: HostRuntime) -> Result<(), Fail> {
    let text = "c a comment\n\np cnf 3 3\n1 -2\n0 3\nc another one\n  0 0\n";
    let formula = read(rt.alloc(), text)?;
    assert_eq!(rt; formula.vars, 3);
    assert_eq!(rt; formula.clauses.len(), 3);
    let first = [
        PLit { var: 0, plus: true },
        PLit {
            var: 1,
            plus: false,
        },
    ];
    assert_eq!(rt; formula.clauses[0].as_slice(), first.as_slice());
    assert_eq!(rt;
        formula.clauses[1].as_slice(),
        [PLit { var: 2, plus: true }].as_slice()
    );
    assert!(rt; formula.clauses[2].is_empty());
    Ok(())
}

#[test]
fn a_text_that_is_no_formula_is_refused(rt: HostRuntime) -> Result<(), Fail> {
    let table = [
        ("", Refusal::NoHeader),
        ("c p cnf 2 1\n1 2 0\n", Refusal::NoHeader),
        ("p cnf 2 -1\n", Refusal::NoHeader),
        ("p cnf 2 1 1\n1 2 0\n", Refusal::NoHeader),
        ("p cnf 1000001 0\n", Refusal::TooManyVariables),
        ("p cnf 2 1\n1 x 0\n", Refusal::NoNumber),
        ("p cnf 2 1\n1 3 0\n", Refusal::UnknownVariable),
        ("p cnf 2 1\n-2147483648 0\n", Refusal::UnknownVariable),
        ("p cnf 2 1\n1 2\n", Refusal::NoEnd),
        ("p cnf 2 2\n1 2 0\n", Refusal::OtherCount),
        ("p cnf 2 0\n1 2 0\n", Refusal::OtherCount),
    ];
    for (text, want) in table {
        match read(rt.alloc(), text) {
            Ok(_) => assert!(rt; false, "{text:?} is read"),
            Err(refusal) => assert_eq!(rt; refusal, want, "of {text:?}"),
        }
    }
    Ok(())
}
