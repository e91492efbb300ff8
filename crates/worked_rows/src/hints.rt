//! Clauses that are to follow from the axioms of a circle of given pairs.

use crate::documents::expect_played;
use std::test::Fail;

const ROWS: &str = r#"
== a clause is accepted where it follows
-- s
relation R from "r.csv" row id entity eid (a: int);
order R.a: r1 < r2;
order R.a: r2 < r3;
order R.a: r3 < r1;
-- r.csv
id,eid,a
r1,x,1
r2,x,2
r3,x,3
-- q: consistent;
-- p
currency report 2;
verdict inconsistent;
log;
statement before 1 1 1 2;
statement before 1 1 1 3;
statement before 1 1 2 3;
axiom given 1 1 1 2: 1;
axiom given 1 1 2 3: 3;
axiom given 1 1 3 1: -2;
axiom transitive 1 1 1 2 3: -1 2 -3;
derive by 1 2 3 4;
end;
>> verify s q p => 0 accepted inconsistent
-- p 11: learn by 3 2 1 4;
>> verify s q p => 0 accepted inconsistent
-- p 11
derive 2 by 1 2 4;
learn by 5 3;
>> verify s q p => 0 accepted inconsistent
:: What follows may be less than what is shown, may be written twice, and may hold in any case.
-- p 11: derive 1 2 by 1;
>> verify s q p => 4 refused V3 p 2
-- p 11: derive 1 1 by 1;
>> verify s q p => 4 refused V3 p 2
-- p 11: derive 1 -1 by 1;
>> verify s q p => 4 refused V3 p 2
-- p 11: derive 1 -1 by 2 1;
>> verify s q p => 4 refused V3 p 2
-- p 11: derive 1 -1 2 -3 by 4;
>> verify s q p => 4 refused V3 p 2
:: A hint that is false already is passed, and a literal that it has twice is one literal.
-- p 11: derive 1 by 1 2 1;
>> verify s q p => 4 refused V3 p 2
-- p 11
axiom transitive 1 1 1 2 3: 2 -1 2 -3;
derive by 1 2 5 3;
>> verify s q p => 0 accepted inconsistent
:: A hint is an earlier step.
-- p 11: derive by 5;
>> verify s q p => 4 refused V2 p 11
-- p 11: derive by 1 2 3 5;
>> verify s q p => 4 refused V2 p 11
-- p 11
derive by 1 2 3 6;
axiom given 1 1 1 2: 1;
>> verify s q p => 4 refused V2 p 11
-- p 11: derive by 9 4;
>> verify s q p => 4 refused V2 p 11
:: The first step that fails decides.
-- p 11
axiom given 1 1 1 2: 3;
derive by 9;
>> verify s q p => 4 refused V2 p 11
-- p 11
derive by 9;
axiom given 1 1 1 2: 3;
>> verify s q p => 4 refused V2 p 11
-- p 11
derive 2 by 1 2 4;
derive by 5 4;
>> verify s q p => 4 refused V2 p 12
:: The hints, in their order, are to end in a conflict.
-- p 11: derive by 1 3 4;
>> verify s q p => 4 refused V2 p 11
-- p 11: derive by 1 2 4;
>> verify s q p => 4 refused V2 p 11
-- p 11: derive by 4 1 2 3;
>> verify s q p => 4 refused V2 p 11
-- p 11: derive by 1 4 2 3;
>> verify s q p => 4 refused V2 p 11
-- p 11: derive by 1;
>> verify s q p => 4 refused V2 p 11
-- p 11: derive by;
>> verify s q p => 4 refused V2 p 11
-- p 11: derive 1 by;
>> verify s q p => 4 refused V2 p 11
-- p 11: derive 1 -1 by;
>> verify s q p => 4 refused V2 p 11
-- p 11: derive 1 by 2;
>> verify s q p => 4 refused V2 p 11
-- p 11: derive -1 by 1;
>> verify s q p => 4 refused V2 p 11
-- p 11: derive 1 -1 by 2;
>> verify s q p => 4 refused V2 p 11
-- p 11: derive 1 -1 by 4;
>> verify s q p => 4 refused V2 p 11
:: The text is no log: a number counts from 1, a label has its numbers, and statements stand before steps.
-- p 11: derive by 0;
>> verify s q p => 5 error E02 p 11
-- p 11: axiom given 1 1 1:;
>> verify s q p => 5 error E02 p 11
-- p 11
derive by;
statement before 1 1 1 2;
>> verify s q p => 5 error E02 p 12
:: A literal is of a statement.
-- p 11: axiom given 1 1 1 2: 4;
>> verify s q p => 5 error E03 p 11
"#;

#[test]
fn a_clause_is_accepted_where_it_follows(rt: HostRuntime) -> Result<(), Fail> {
    expect_played(&rt, ROWS)
}
