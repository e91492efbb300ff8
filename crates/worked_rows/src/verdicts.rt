//! Verdicts of each question, and completions after the first.

use crate::documents::expect_played;
use std::test::Fail;

const ROWS: &str = r#"
== a later completion tells what differs
-- s
relation R from "r.csv" row id entity eid (a: int, b: int);
order R.b: r1 < r2;
-- r.csv
id,eid,a,b
r1,x,1,1
r2,x,2,2
-- q: consistent;
-- p
currency report 2;
verdict consistent;
completion;
ranking R.a of x: r1 < r2;
ranking R.b of x: r1 < r2;
completion;
ranking R.a of x: r2 < r1;
end;
>> verify s q p => 0 accepted consistent
-- p 7
ranking R.a of x: r2 < r1;
ranking R.b of x: r1 < r2;
>> verify s q p => 0 accepted consistent
-- p 7-8: end;
>> verify s q p => 0 accepted consistent
-- p 7: ranking R.b of x: r2 < r1;
>> verify s q p => 4 refused V1 p 6
-- p 7
ranking R.a of x: r2 < r1;
ranking R.a of x: r2 < r1;
>> verify s q p => 5 error E04 p 8
-- p 7: completion;
>> verify s q p => 0 accepted consistent
-- p 1: currency report 1;
-- p 7
ranking R.a of x: r2 < r1;
ranking R.b of x: r1 < r2;
>> verify s q p => 0 accepted consistent
-- p 1: currency report 1;
>> verify s q p => 4 refused V1 p 6

== checks come in their order
-- s
relation R from "r.csv" row id entity eid (a: int);
order R.a: r1 < r2;
-- r.csv
id,eid,a
r1,x,1
r2,x,2
r3,x,3
-- q: consistent;
-- p
currency report 1;
verdict consistent;
completion;
ranking R.a of x: r1 < r2 < r3;
log;
statement before 1 1 1 2;
axiom given 1 1 1 2: 1;
end;
>> verify s q p => 0 accepted consistent
-- p 7: axiom given 1 1 1 2: -1;
>> verify s q p => 4 refused V2 p 7
-- p 4: ranking R.a of x: r2 < r1 < r3;
>> verify s q p => 4 refused V1 p 3
-- p 4: ranking R.a of x: r2 < r1 < r3;
-- p 7: axiom given 1 1 1 2: -1;
>> verify s q p => 4 refused V1 p 3
-- p 3-5: log;
-- p 7: axiom given 1 1 1 2: -1;
>> verify s q p => 4 refused V2 p 5
-- p 3-5: log;
>> verify s q p => 4 refused V3 p 2
-- p 2: verdict certain;
-- p 4: ranking R.a of x: r2 < r1 < r3;
-- p 7: axiom given 1 1 1 2: -1;
>> verify s q p => 4 refused V3 p 2
-- p
currency report 1;
verdict inconsistent;
completion;
ranking R.a of x: r2 < r1 < r3;
log;
statement before 1 1 1 2;
axiom given 1 1 1 2: -1;
end;
>> verify s q p => 4 refused V1 p 3
-- p 4: ranking R.a of x: r1 < r2 < r3;
-- p 7: axiom given 1 1 1 2: 1;
>> verify s q p => 4 refused V3 p 2

== verdicts of other questions are refused
-- s: relation R from "r.csv" row id entity eid (a: int);
-- r.csv
id,eid,a
r1,x,1
r2,x,2
r3,x,3
-- q: consistent;
-- p
currency report 1;
verdict certain;
end;
>> verify s q p => 4 refused V3 p 2
-- p
currency report 1;
verdict not certain R.a: r1 < r2;
end;
>> verify s q p => 4 refused V3 p 2
-- p
currency report 1;
verdict not certain R.a: r1 < r1;
end;
>> verify s q p => 4 refused V3 p 2
-- p
currency report 1;
verdict not certain Q.a: r1 < r2;
end;
>> verify s q p => 5 error E03 p 2
-- p
currency report 1;
verdict not certain R.b: r1 < r9;
end;
>> verify s q p => 5 error E03 p 2
-- p
currency report 1;
verdict not certain R.a: r1 < r9;
end;
>> verify s q p => 5 error E10 p 2
-- p 2: verdict same;
>> verify s q p => 4 refused V3 p 2
-- p 2
verdict same;
current R x (1);
>> verify s q p => 4 refused V3 p 2
-- p
currency report 1;
verdict same;
current R x ();
current R z (1);
end;
>> verify s q p => 5 error E03 p 4
-- p 3-4: current Q x (1);
>> verify s q p => 5 error E03 p 3
-- p 3-4: answer (1);
>> verify s q p => 5 error E02 p 3
-- p
currency report 1;
verdict not same R.a of x;
end;
>> verify s q p => 4 refused V3 p 2
-- p 2: verdict not same R.b of x;
>> verify s q p => 5 error E03 p 2
-- p 2: verdict not same R.a of z;
>> verify s q p => 5 error E03 p 2
-- p 2: verdict answers;
>> verify s q p => 4 refused V3 p 2
-- p
currency report 1;
verdict answers;
answer ("x", 1);
answer ();
end;
>> verify s q p => 4 refused V3 p 2
-- p 3-4: current R x (1);
>> verify s q p => 5 error E02 p 3
-- p
currency report 1;
verdict consistent;
current R x (1);
end;
>> verify s q p => 5 error E02 p 3
-- p 3: answer (1);
>> verify s q p => 5 error E02 p 3
-- p 2-3: verdict inconsistent;
>> verify s q p => 4 refused V3 p 2
-- p
currency report 1;
verdict not consistent;
end;
>> verify s q p => 5 error E02 p 2
-- p 2: verdict undecided;
>> verify s q p => 5 error E02 p 2
-- p 2: verdict undecided 0;
>> verify s q p => 0 accepted undecided
-- p
currency report 1;
verdict undecided 18446744073709551615;
end;
>> verify s q p => 4 refused V3 p 2
-- p
currency report 1;
verdict undecided 18446744073709551616;
end;
>> verify s q p => 5 error E02 p 2
"#;

#[test]
fn verdicts_are_judged(rt: HostRuntime) -> Result<(), Fail> {
    expect_played(&rt, ROWS)
}
