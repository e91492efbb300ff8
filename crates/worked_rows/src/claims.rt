//! Reports on pairs and current tuples.

use crate::documents::expect_played;
use std::test::Fail;

const ROWS: &str = r#"
== current values are shown
-- s
relation R from "r.csv" row id entity eid (a: int);
order R.a: r1 < r2;
-- r.csv
id,eid,a
r1,x,1
r2,x,2
r3,y,3
-- q: same R;
-- p
currency report 1;
verdict same;
current R x (2);
current R y (3);
completion;
ranking R.a of x: r1 < r2;
ranking R.a of y: r3;
log;
statement before 1 1 1 2;
statement top 1 1 2;
statement top 1 1 3;
statement last 1 1 2;
statement last 1 1 3;
axiom given 1 1 1 2: 1;
axiom top 1 1 2: 2 -1;
axiom last 1 1 2: -2 4;
axiom top 1 1 3: 3;
axiom last 1 1 3: -3 5;
derive 4 by 1 2 3;
derive 5 by 4 5;
end;
>> verify s q p => 0 accepted same
:: out of order, one missing, one of another entity, one twice
-- p 3-4
current R y (3);
current R x (2);
>> verify s q p => 4 refused V3 p 2
-- p 4-5: completion;
>> verify s q p => 4 refused V3 p 2
-- p 3-4: current R y (3);
>> verify s q p => 4 refused V3 p 2
-- p 4: current R x (2);
>> verify s q p => 4 refused V3 p 2
-- p 4: current R y (3, 3);
>> verify s q p => 4 refused V3 p 2
-- p 5-8: log;
>> verify s q p => 4 refused V3 p 2
:: another value, and one that no row has
-- p 3: current R x (1);
>> verify s q p => 4 refused V3 p 3
-- p 4: current R y (2);
>> verify s q p => 4 refused V3 p 4
-- p 11-20
statement last 1 1 2;
axiom given 1 1 1 2: 1;
axiom top 1 1 2: 2 -1;
axiom last 1 1 2: -2 3;
derive 3 by 1 2 3;
>> verify s q p => 4 refused V3 p 4
-- p 9-20
statement top 1 1 3;
statement last 1 1 3;
axiom top 1 1 3: 1;
axiom last 1 1 3: -1 2;
derive 2 by 1 2;
>> verify s q p => 4 refused V3 p 3
-- p 8-21: end;
>> verify s q p => 4 refused V3 p 3

== later completions differ from the first
-- s
relation R from "r.csv" row id entity eid (a: int, b: int);
order R.b: r1 < r2;
-- r.csv
id,eid,a,b
r1,x,1,1
r2,x,2,2
-- q: same R;
-- p
currency report 2;
verdict not same R.a of x;
completion;
ranking R.a of x: r2 < r1;
ranking R.b of x: r1 < r2;
completion;
ranking R.a of x: r1 < r2;
end;
>> verify s q p => 0 accepted not same
-- p 7
ranking R.a of x: r1 < r2;
ranking R.b of x: r1 < r2;
>> verify s q p => 0 accepted not same
-- p 1: currency report 1;
-- p 7
ranking R.a of x: r1 < r2;
ranking R.b of x: r1 < r2;
>> verify s q p => 0 accepted not same
-- p 1: currency report 1;
>> verify s q p => 4 refused V1 p 6

== pairs that fail are asked
-- s
relation R from "r.csv" row id entity eid (a: int);
order R.a: r1 < r2;
-- r.csv
id,eid,a
r1,x,1
r2,x,2
r3,x,3
-- q: certain R.a: r2 < r3;
-- p
currency report 2;
verdict not certain R.a: r2 < r3;
completion;
ranking R.a of x: r1 < r3 < r2;
end;
>> verify s q p => 0 accepted not certain
-- q: certain R.a: r1 < r2, r2 < r3;
>> verify s q p => 0 accepted not certain
:: the pair holds in what is listed
-- p 2: verdict not certain R.a: r1 < r2;
>> verify s q p => 4 refused V3 p 2
:: the pair was not asked
-- q: certain R.a: r1 < r2;
>> verify s q p => 4 refused V3 p 2
-- q: certain R.a: r3 < r2;
>> verify s q p => 4 refused V3 p 2

== two completions differ
-- s: relation R from "r.csv" row id entity eid (a: int);
-- r.csv
id,eid,a
r1,x,1
r2,x,2
r3,x,3
-- q: same R;
-- p
currency report 1;
verdict not same R.a of x;
completion;
ranking R.a of x: r3 < r2 < r1;
completion;
ranking R.a of x: r1 < r2 < r3;
end;
>> verify s q p => 0 accepted not same
-- p 3
completion;
ranking R.a of x: r1 < r2 < r3;
completion;
-- p 5-7: end;
>> verify s q p => 0 accepted not same
-- p 4: ranking R.a of x: r1 < r2 < r3;
-- p 6: ranking R.a of x: r2 < r1 < r3;
>> verify s q p => 4 refused V3 p 2
-- p 4: ranking R.a of x: r1 < r2 < r3;
>> verify s q p => 4 refused V3 p 2
-- p 4-6: ranking R.a of x: r1 < r2 < r3;
>> verify s q p => 4 refused V3 p 2
-- q: certain R.a: r1 < r2;
-- p 3
completion;
ranking R.a of x: r1 < r2 < r3;
completion;
-- p 5-7: end;
>> verify s q p => 4 refused V3 p 2

== units of pairs are looked for
-- s
relation R from "r.csv" row id entity eid (a: int);
order R.a: r1 < r2;
-- r.csv
id,eid,a
r1,x,1
r2,x,2
r3,y,3
-- q: certain R.a: r1 < r2;
-- p
currency report 1;
verdict certain;
completion;
ranking R.a of x: r1 < r2;
ranking R.a of y: r3;
log;
statement before 1 1 1 2;
axiom given 1 1 1 2: 1;
end;
>> verify s q p => 0 accepted certain
-- q: certain R.a: r1 < r2, r1 < r2;
>> verify s q p => 0 accepted certain
-- o.csv
attribute,earlier,later
a,r1,r2
-- q: certain orders R from "o.csv";
>> verify s q p => 0 accepted certain
-- q: certain R.a: r2 < r1;
>> verify s q p => 4 refused V3 p 2
-- q: certain R.a: r1 < r2, r2 < r1;
>> verify s q p => 4 refused V3 p 2
-- q: certain R.a: r1 < r2;
-- p 3-6: log;
>> verify s q p => 4 refused V3 p 2
-- p 6-9: end;
>> verify s q p => 4 refused V3 p 2
-- p 8
statement top 1 1 2;
axiom top 1 1 2: -1 2;
>> verify s q p => 4 refused V3 p 2
-- q: same R;
>> verify s q p => 4 refused V3 p 2
-- q: consistent;
>> verify s q p => 4 refused V3 p 2
"#;

#[test]
fn reports_on_claims_are_judged(rt: HostRuntime) -> Result<(), Fail> {
    expect_played(&rt, ROWS)
}
