//! Which variables stand with which part.

use crate::sources::{Source, specification, wanted};
use entity_ties::Ties;
use order_limits::number;
use std::test::Fail;
use variable_parts::VariableParts;

// Entities x and y of S, and p and q of T. Rows of p are copied from x. Both rows of x have one value of b.
const TIED: Source = Source {
    text: "relation S from \"s.csv\" row id entity eid (a: int, b: int);
relation T from \"t.csv\" row id entity eid (d: int);
copy c into T (d) from S (a): t1 from s1, t2 from s2;
",
    tables: &[
        ("s.csv", "id,eid,a,b\ns1,x,1,5\ns2,x,2,5\ns3,y,3,6\n"),
        ("t.csv", "id,eid,d\nt1,p,1\nt2,p,2\nt3,q,3\nt4,q,4\n"),
    ],
};

// Of how many relations the current values are wanted, and the variables of x and p, of y, and of q.
type Row = (u32, &'static [&'static [u32]]);

// The pairs of rows have the numbers 0 (x in a), 1 (x in b), 2 (p) and 3 (q). Where the current values of S are wanted, 4 to
// 9 say which row stands last, in a and then in b, and those from 10 on which value is current.
const ROWS: &[Row] = &[
    (0, &[&[0, 1, 2], &[], &[3]]),
    (
        1,
        &[&[0, 1, 2, 4, 5, 7, 8, 10, 11, 13], &[6, 9, 12, 14], &[3]],
    ),
];

#[test]
fn variables_stand_with_their_part(rt: HostRuntime) -> Result<(), Fail> {
    let alloc = rt.alloc();
    let spec = specification(alloc, TIED)?;
    for (currents, lists) in ROWS {
        let wanted = wanted(alloc, *currents)?;
        let numbering = number(alloc, &spec, &wanted)?;
        let ties = Ties::new(alloc, &spec)?;
        let parts = VariableParts::new(alloc, &spec, &numbering, &wanted, ties)?;
        assert_eq!(rt; parts.count(), lists.len());
        let mut part = 0;
        for list in *lists {
            assert_eq!(rt; vars_of(&parts, part), *list);
            part = part.wrapping_add(1);
        }
    }
    Ok(())
}

// The variables of a part, none if it is not there.
fn vars_of(parts: &VariableParts, part: u32) -> &[u32] {
    if (part as usize) < parts.count() {
        parts.vars(part)
    } else {
        &[]
    }
}
