//! Worked runs.
use crate::worked::Case;
use seq_phragmen::mine_seq;
use std::test::Fail;

/// Members that share no voter, a lowest among several, stakes that are split and rounded, and a
/// part that is rounded to nothing.
static CASES: [Case; 4] = [
    Case {
        targets: 3,
        voters: &[(60, &[0]), (40, &[1])],
        members: &[0, 1],
        edges: &[(0, 0, 60), (1, 1, 40)],
    },
    Case {
        targets: 3,
        voters: &[(60, &[0, 2]), (40, &[1, 2])],
        members: &[2, 0],
        edges: &[(0, 0, 38), (0, 2, 22), (1, 2, 40)],
    },
    Case {
        targets: 4,
        voters: &[(10, &[3, 1]), (61, &[3, 0]), (20, &[2, 1]), (12, &[0, 3])],
        members: &[3, 0],
        edges: &[(0, 3, 10), (1, 0, 33), (1, 3, 28), (3, 0, 7), (3, 3, 5)],
    },
    Case {
        targets: 3,
        voters: &[(1, &[0, 1]), (50, &[0]), (49, &[1])],
        members: &[0, 1],
        edges: &[(0, 1, 1), (1, 0, 50), (2, 1, 49)],
    },
];

#[test]
fn runs_are_those_of_the_worked_elections(rt: HostRuntime) -> Result<(), Fail> {
    for case in &CASES {
        let weights = mine_seq(rt.alloc(), &case.snapshot(rt.alloc())?)?;
        assert!(rt; case.is_met(&weights));
    }
    Ok(())
}
