//! Reports of one completion, and the order of checks.

use crate::documents::expect_played;
use std::test::Fail;

const ROWS: &str = r#"
== a report that is not shown is refused
-- s: relation R from "r.csv" row id entity eid (a: int);
-- r.csv
id,eid,a
r1,x,1
r2,x,2
r3,x,3
-- q: consistent;
-- p
currency report 1;
verdict consistent;
completion;
ranking R.a of x: r1 < r2;
end;
>> verify s q p => 4 refused V1 p 3
-- p 4: ranking R.a of x: r1 < r2 < r1;
>> verify s q p => 4 refused V1 p 3
-- p 4: ranking R.a of x: r1 < r2 < r3 < r1;
>> verify s q p => 4 refused V1 p 3
-- p 4-5: end;
>> verify s q p => 4 refused V1 p 3
-- p 3-5: end;
>> verify s q p => 4 refused V3 p 2
-- s
relation R from "r.csv" row id entity eid (a: int);
order R.a: r1 < r2;
-- p 4: ranking R.a of x: r2 < r1 < r3;
>> verify s q p => 4 refused V1 p 3

== a shown report is accepted
-- s: relation R from "r.csv" row id entity eid (a: int);
-- r.csv
id,eid,a
r1,x,1
r2,x,2
r3,x,3
-- q: consistent;
-- p
currency report 1;
verdict consistent;
completion;
ranking R.a of x: r2 < r1 < r3;
end;
>> verify s q p => 0 accepted consistent
-- s
relation R from "r.csv" entity eid (a: int, b: int);\
-- r.csv
eid,b,a
x,1,2
x,3,4
-- p
currency report 1; verdict consistent; completion;
        ranking R.a of x: 2 < 1; ranking R.b of x: 1 < 2; end;\
>> verify s q p => 0 accepted consistent

== documents are refused
-- s
relation R from "r.csv" row id entity eid (a: int);
order R.a r1 < r2;
-- r.csv
id,eid,a
r1,x,1
r2,x,2
r3,x,3
-- q: consistent;
-- p
currency report 1;
verdict consistent;
completion;
ranking R.a of x: r2 < r1 < r3;
end;
>> verify s q p => 5 error E02 s 2
-- s 2: order Q.a: r1 < r2;
>> verify s q p => 5 error E03 s 2
-- s 2: order R.b: r1 < r2;
>> verify s q p => 5 error E03 s 2
-- s 2: relation R from "r.csv" row id entity eid (a: int);
>> verify s q p => 5 error E04 s 2
-- s 2
relation S from "r.csv" row id entity eid (a: int,
 a: int);
>> verify s q p => 5 error E04 s 3
-- s 2: order R.a: r1 < r9;
>> verify s q p => 5 error E10 s 2
-- s 2: order R.a: r1 < r1;
>> verify s q p => 5 error E11 s 2
-- s 2
order R.a: r1 < r2,
 r3 < r3;
>> verify s q p => 5 error E11 s 3
-- s 2: copy c into R (a) from R (a): r1 from r1, r1 from r1;
>> verify s q p => 5 error E12 s 2
-- s: relation R from "r.csv" row id entity eid (a: int);
-- r.csv 3: r2,x
-- p 4: ranking R.a of z: r1;
>> verify s q p => 5 error E06 r.csv 3
-- r.csv
id,eid,b
r1,x,1
-- p 4: ranking R.a of z: r1;
>> verify s q p => 5 error E07 r.csv 1
-- r.csv
id,eid,a
r1,x,9223372036854775808
-- p 4: ranking R.a of z: r1;
>> verify s q p => 5 error E08 r.csv 2
-- r.csv
id,eid,a
r1,x,1
r1,x,2
-- p 4: ranking R.a of z: r1;
>> verify s q p => 5 error E09 r.csv 3
-- r.csv
id,eid,a

r1,x,1,1
-- p 4: ranking R.a of z: r1;
>> verify s q p => 5 error E06 r.csv 2
-- r.csv
id,eid,a,eid
r1,x,1,y
-- p 4: ranking R.a of z: r1;
>> verify s q p => 5 error E07 r.csv 1
-- r.csv
id,eid,b
r1,x
-- p 4: ranking R.a of z: r1;
>> verify s q p => 5 error E06 r.csv 2
-- r.csv
id,eid,a
r1,x,
r2,y,+1
-- p 4: ranking R.a of z: r1;
>> verify s q p => 5 error E08 r.csv 2
-- r.csv
id,eid,a
r1,x,1
r2,y,+1
-- p 4: ranking R.a of z: r1;
>> verify s q p => 5 error E08 r.csv 3
-- r.csv
id,eid,a
r1,x,-
-- p 4: ranking R.a of z: r1;
>> verify s q p => 5 error E08 r.csv 2
-- r.csv
id,eid,a
r1,x,--1
-- p 4: ranking R.a of z: r1;
>> verify s q p => 5 error E08 r.csv 2
-- r.csv
id,eid,a
r1,x, 1
-- p 4: ranking R.a of z: r1;
>> verify s q p => 5 error E08 r.csv 2
-- r.csv
id,eid,a
r1,x,1a
-- p 4: ranking R.a of z: r1;
>> verify s q p => 5 error E08 r.csv 2
-- r.csv
id,eid,a
r1,x,-9223372036854775809
-- p 4: ranking R.a of z: r1;
>> verify s q p => 5 error E08 r.csv 2
-- r.csv
id,eid,a
r1,x,1
r2,y,2
r3,x,3
-- p 4: ranking R.a of z: r1;
>> verify s q p => 5 error E03 p 4
-- r.csv 3: r2,x,2
-- p 4
ranking R.a of x: r1;
ranking R.a of x: r2;
>> verify s q p => 5 error E04 p 5
-- r.csv 3: r2,x,2
-- p 4: ranking R.a of x: r9;
>> verify s q p => 5 error E10 p 4

== reports are cut early
-- s: relation R from "r.csv" row id entity eid (a: int);
-- r.csv
id,eid,a
r1,x,1
r2,x,2
r3,x,3
-- q: consistent;
-- p
>> verify s q p => 5 error E02 p 1
-- p: currency report 1;
>> verify s q p => 5 error E02 p 2
-- p
currency report 1;
verdict consistent;
>> verify s q p => 5 error E02 p 3
-- p
currency report 1;
verdict consistent;
completion;
>> verify s q p => 5 error E02 p 4
-- p 3
completion;
ranking R.a of x: r2 < r1 < r3;
>> verify s q p => 5 error E02 p 5

== two entities and two attributes
-- s
relation R from "r.csv" row id entity eid (a: int, eid: text); order R.eid: r2 < r1;\
-- r.csv
eid,a,id
x,1,r1
x,2,r2
y,3,r3
y,4,r4
-- q: consistent;
-- p
currency report 1; verdict consistent;
completion;
        ranking R.a of x: r1 < r2; ranking R.a of y: r4 < r3; ranking R.eid of x: r2 < r1; ranking R.eid of y: r3 < r4; end;\
>> verify s q p => 0 accepted consistent
-- p
currency report 1; verdict consistent;
completion;
        ranking R.a of x: r1 < r2; ranking R.a of y: r4 < r3; ranking R.eid of x: r2 < r1; ranking R.eid of y: r3 < r3; end;\
>> verify s q p => 4 refused V1 p 2
-- p
currency report 1; verdict consistent;
completion;
        ranking R.a of x: r1 < r2; ranking R.a of y: r4 < r3; ranking R.eid of x: r2 < r1; ranking R.eid of y: r3 < r1; end;\
>> verify s q p => 4 refused V1 p 2
"#;

#[test]
fn completions_are_judged(rt: HostRuntime) -> Result<(), Fail> {
    expect_played(&rt, ROWS)
}
