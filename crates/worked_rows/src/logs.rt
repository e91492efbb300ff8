//! Logs: counted steps, and statements in their order.

use crate::documents::expect_played;
use std::test::Fail;

const ROWS: &str = r#"
== a rule of one row refutes
-- s
relation R from "r.csv" row id entity eid (a: int);
rule n on R (s, t): s before t in a;
-- r.csv
id,eid,a
r1,x,1
r2,x,2
r3,x,3
-- q: consistent;
-- p
currency report 1;
verdict inconsistent;
log;
axiom rule 1 1 1:;
end;
>> verify s q p => 0 accepted inconsistent
-- p 4: axiom rule 1 1 2:;
>> verify s q p => 4 refused V2 p 4

== counted steps are counted
-- s
relation R from "r.csv" row id entity eid (a: int);
order R.a: r1 < r2;
-- r.csv
id,eid,a
r1,x,1
r2,x,2
r3,x,3
-- q: consistent;
-- p
currency report 1;
verdict undecided 0;
log;
statement before 1 1 1 2;
axiom given 1 1 1 2: 1;
end;
>> verify s q p => 0 accepted undecided
-- p 5: demand given 1 1 1 2: 1;
>> verify s q p => 4 refused V3 p 2
-- p 2: verdict undecided 1;
-- p 5: demand given 1 1 1 2: 1;
>> verify s q p => 0 accepted undecided
-- p 2: verdict undecided 1;
-- p 5
axiom given 1 1 1 2: 1;
learn 1 by 1;
>> verify s q p => 0 accepted undecided
-- p 2: verdict undecided 1;
-- p 5
axiom given 1 1 1 2: 1;
derive 1 by 1;
>> verify s q p => 4 refused V3 p 2
-- p 2: verdict undecided 2;
-- p 5
demand given 1 1 1 2: 1;
learn 1 by 1;
derive 1 by 1;
>> verify s q p => 0 accepted undecided
-- p 2: verdict undecided 3;
-- p 5
demand given 1 1 1 2: 1;
learn 1 by 1;
derive 1 by 1;
>> verify s q p => 4 refused V3 p 2

== statements are of the specification and in order
-- s: relation R from "r.csv" row id entity eid (a: int);
-- r.csv
id,eid,a
r1,x,1
r2,x,1
r3,x,2
r4,y,1
-- q: consistent;
-- p
currency report 1;
verdict undecided 0;
log;
statement before 1 1 1 4;
end;
>> verify s q p => 5 error E11 p 4
-- p 4
statement before 1 1 1 2;
statement before 1 1 2 3;
>> verify s q p => 0 accepted undecided
-- p 4
statement before 1 1 2 3;
statement before 1 1 1 9;
>> verify s q p => 5 error E04 p 5
-- p 4
statement top 1 1 1;
statement before 1 1 1 2;
>> verify s q p => 5 error E04 p 5
-- p 4: statement top 1 1 5;
>> verify s q p => 5 error E10 p 4
-- p 4
statement top 1 1 3;
statement last 1 1 1;
>> verify s q p => 0 accepted undecided
-- p 4: statement last 1 1 2;
>> verify s q p => 5 error E05 p 4
-- p 4: statement last 1 1 5;
>> verify s q p => 5 error E10 p 4
-- p 4
statement last 1 1 4;
statement last 1 1 3;
>> verify s q p => 5 error E04 p 5
-- p 4
statement last 1 1 3;
statement last 1 1 4;
>> verify s q p => 0 accepted undecided
-- p 4
statement answer (1);
statement answer (1, 2);
>> verify s q p => 0 accepted undecided
-- p 4
statement answer (2);
statement answer (1, 2);
>> verify s q p => 5 error E04 p 5
-- p 4
statement answer ("a");
statement answer (3);
>> verify s q p => 5 error E04 p 5
-- p 4
statement answer (3);
statement answer (3);
>> verify s q p => 5 error E04 p 5
"#;

#[test]
fn logs_are_judged(rt: HostRuntime) -> Result<(), Fail> {
    expect_played(&rt, ROWS)
}
