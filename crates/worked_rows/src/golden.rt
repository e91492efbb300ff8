//! Golden records: the values that are current in every consistent completion, as a table.

use crate::documents::expect_played;
use std::test::Fail;

const ROWS: &str = r#"
== the later name was copied from the row of the later salary
-- s
relation Staff from "staff.csv" row record entity person (name: text, salary: int);
rule raises on Staff (s, t): if s.salary < t.salary then s before t in salary;
rule names on Staff (s, t): if s before t in salary then s before t in name;
relation Badge from "badges.csv" row badge entity holder (name: text);
copy printed into Badge (name) from Staff (name): b1 from s3, b2 from s1;
-- staff.csv
record,person,name,salary
s1,mary,Smith,50
s2,mary,Smith,60
s3,mary,Dupont,80
-- badges.csv
badge,holder,name
b1,4711,Dupont
b2,4711,Smith
>> golden s Staff
0 person,name,salary,open
mary,Dupont,80,
>> golden s Badge
0 holder,name,open
4711,Dupont,
>> golden s Badge --budget 1
0 holder,name,open
4711,Dupont,
>> golden s --guide 1 Staff => 2 words refused
:: Without the rules the badges say nothing, and of the name and the salary two values are possible.
-- s 2-3
>> golden s Staff
0 person,name,salary,open
mary,,,name salary
-- s 2-3
>> golden s Badge
0 holder,name,open
4711,,name

== no consistent completion
-- s
relation R from "r.csv" row id entity eid (a: int);
relation S from "r.csv" row id entity eid (a: int);
order R.a: r1 < r2, r2 < r3, r3 < r1;
-- r.csv
id,eid,a
r1,x,1
r2,x,2
r3,x,3
>> golden s R
10 currency brief 2;
verdict inconsistent;
end;
:: Nor of another relation.
>> golden s S
10 currency brief 2;
verdict inconsistent;
end;

== one order of three rows
-- s
relation R from "r.csv" row id entity eid (a: int, b: int, c: int);
order R.a: r1 < r2;
-- r.csv
id,eid,a,b,c
r1,x,1,7,1
r2,x,2,7,1
r3,x,3,7,2
q1,y,1,1,1
>> golden s R
0 eid,a,b,c,open
x,,7,,a c
y,1,1,1,
:: With one more the last row of a is known, and what is known of c stays.
-- s 2: order R.a: r1 < r2, r2 < r3;
>> golden s R
0 eid,a,b,c,open
x,3,7,,c
y,1,1,1,

== an entity by entity, of which one is open
-- s
relation R from "r.csv" row id entity eid (a: int);
relation S from "s.csv" row id entity eid (a: int);
order R.a: r1 < r2;
copy kept into S (a) from R (a): s1 from r1, s2 from r2;
-- r.csv
id,eid,a
r1,x,1
r2,x,2
p1,z,3
p2,z,4
-- s.csv
id,eid,a
s1,y,1
s2,y,2
t1,w,5
>> golden s R
0 eid,a,open
x,2,
z,,a
>> golden s S
0 eid,a,open
y,2,
w,5,

== certain by cases alone
-- s
relation R from "r.csv" row id entity eid (a: int, b: int);
rule one on R (s, t): if s.a = 1 and t.a = 2 and s before t in a then s before t in b;
rule two on R (s, t): if s.a = 1 and t.a = 2 and t before s in a then s before t in b;
-- r.csv
id,eid,a,b
r1,x,1,1
r2,x,2,2
>> golden s R
0 eid,a,b,open
x,,2,a

== where the budget is spent
-- s
relation R from "r.csv" row id entity eid (p: int, q: int, r: int, b: int);
rule n1 on R (s, t): if s.p = 1 and t.p = 2 and s before t in p and s before t in q and s before t in r then s before t in b;
rule n2 on R (s, t): if s.p = 1 and t.p = 2 and s before t in p and s before t in q and t before s in r then s before t in b;
rule n3 on R (s, t): if s.p = 1 and t.p = 2 and s before t in p and t before s in q and s before t in r then s before t in b;
rule n4 on R (s, t): if s.p = 1 and t.p = 2 and s before t in p and t before s in q and t before s in r then s before t in b;
rule n5 on R (s, t): if s.p = 1 and t.p = 2 and t before s in p and s before t in q and s before t in r then s before t in b;
rule n6 on R (s, t): if s.p = 1 and t.p = 2 and t before s in p and s before t in q and t before s in r then s before t in b;
rule n7 on R (s, t): if s.p = 1 and t.p = 2 and t before s in p and t before s in q and s before t in r then s before t in b;
rule n8 on R (s, t): if s.p = 1 and t.p = 2 and t before s in p and t before s in q and t before s in r then s before t in b;
#
-- r.csv
id,eid,p,q,r,b
r1,x,1,1,1,1
r2,x,2,2,2,2
>> golden s R
0 eid,p,q,r,b,open
x,,,,2,p q r
>> golden s R --budget 1
3 currency possible 1;
...
:: Where there is no consistent completion, that is not found.
-- s 10: rule no on R (s, t): if s.p = 1 and t.p = 2 and s before t in b then false;
>> golden s R --budget 1
3 currency possible 1;
question consistent;
currency report 2;
verdict undecided 1;
...
-- s 10: rule no on R (s, t): if s.p = 1 and t.p = 2 and s before t in b then false;
>> golden s R
10 currency brief 2;
verdict inconsistent;
end;

== what has to be quoted
-- s
relation "R,S" from "r.csv" row id entity "the ""entity""" ("a,b": text, " c ": text, "": int, open: text);
-- r.csv
"id","the ""entity""","a,b"," c ","",open
r1,"x,y","one
two"," blank ",-9223372036854775808,""
r2," y ","say ""so""",é,9223372036854775807,open
r3,"",,,0,;
r4,"",,x,1,"a'b"
>> golden s R,S
0 "the ""entity""","a,b", c ,,open,open
"x,y","one
two", blank ,-9223372036854775808,,
 y ,"say ""so""",é,9223372036854775807,open,
,,,,,""" c "" """" open"

== one column, and nothing to tell
-- s
relation R from "r.csv" row id entity eid (a: int);
-- r.csv: id,eid,a
>> golden s R
0 eid,a,open
-- r.csv
id,eid,a
r1,,1
r2,,1
>> golden s R
0 eid,a,open
,1,

== what is refused
-- s: relation R from "r.csv" row id entity eid (a: int);
-- r.csv
id,eid,a
r1,x,1
>> golden s r => 5 error E03 words 1
>> golden s S => 5 error E03 words 1
>> golden s  => 5 error E03 words 1
>> golden nothing S => 7 read fault nothing
>> golden s => 2 words refused
>> golden s R --brief => 2 words refused
>> golden s R --budget 0 => 2 words refused
>> golden s R q => 2 words refused
-- s: relation R from "r.csv" row id entity eid (a: int, a: int);
>> golden s S => 5 error E04 s 1
-- s: relation R from "r.csv" row id entity eid (a: int);
-- r.csv
id,eid,a
r1,x,1
r1,x,2
>> golden s S => 5 error E09 r.csv 3
-- r.csv
id,eid,a
r1,x,1
>> ^5 golden s R => 8 eid,a\
"#;

#[test]
fn golden_records_are_told(rt: HostRuntime) -> Result<(), Fail> {
    expect_played(&rt, ROWS)
}
