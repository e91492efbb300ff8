//! Conflicts: the smallest parts that have no consistent completion, and what is to blame.

use crate::documents::expect_played;
use std::test::Fail;

const ROWS: &str = r#"
== none
-- s: relation R from "r.csv" row id entity eid (a: int);
-- r.csv
id,eid,a
r1,x,1
r2,x,2
r3,x,3
>> conflicts s
0 currency conflicts 1;
conflicts 0;
end;
-- r.csv: id,eid,a
>> conflicts s
0 currency conflicts 1;
conflicts 0;
end;

== a circle and what stands beside it
-- s
relation R from "r.csv" row id entity eid (a: int);
order R.a: r1 < r2, r2 < r3, r3 < r1, q1 < q2;
-- r.csv
id,eid,a
q1,y,1
r1,x,1
r2,x,2
r3,x,3
q2,y,2
>> conflicts s
0 currency conflicts 1;
conflicts 1;
conflict x of R;
item given R.a: r1 < r2;
item given R.a: r2 < r3;
item given R.a: r3 < r1;
end;
>> conflicts s --budget 1
0 currency conflicts 1;
conflicts 1;
conflict x of R;
item given R.a: r1 < r2;
item given R.a: r2 < r3;
item given R.a: r3 < r1;
end;
>> conflicts s --guide 1 => 2 words refused

== conflicts in the order of their first entities
-- s
relation R from "r.csv" row id entity eid (a: int);
relation S from "s.csv" row id entity eid (b: int);
order R.a: r1 < r2, q2 < q1, p1 < p2, p2 < p1;
order S.b: s2 < s1, t1 < t2, t2 < t1;
rule up on R (s, t): if s.a < t.a then s before t in a;
copy kept into S (b) from R (a): s1 from r1, s2 from r2, n1 from p1;
-- r.csv
id,eid,a
q1,y,1
r1,x,1
p1,z,5
q2,y,2
r2,x,2
p2,z,5
-- s.csv
id,eid,b
t1,w,1
s1,u,1
n1,v,5
s2,u,2
t2,w,2
>> conflicts s
0 currency conflicts 1;
conflicts 4;
conflict y of R;
item given R.a: q2 < q1;
item rule up;
conflict x of R;
conflict u of S;
item given S.b: s2 < s1;
item rule up;
item copy kept: s1 from r1;
item copy kept: s2 from r2;
conflict z of R;
conflict v of S;
item given R.a: p1 < p2;
item given R.a: p2 < p1;
conflict w of S;
item given S.b: t1 < t2;
item given S.b: t2 < t1;
end;

== a rule stands in several conflicts, and one entity has one row
-- s
relation R from "r.csv" row id entity eid (a: int);
rule never on R (s): if s.a = 2 then false;
rule fine on R (s, t): if s.a < t.a then s before t in a;
-- r.csv
id,eid,a
r1,"a b",2
r2,x,1
r3,"q""q",2
r4,"q""q",3
>> conflicts s
0 currency conflicts 1;
conflicts 2;
conflict "a b" of R;
item rule never;
conflict "q""q" of R;
item rule never;
end;

== mapped rows tie entities that they say nothing of
-- s
relation R from "r.csv" row id entity eid (a: int);
relation S from "s.csv" row id entity eid (b: int);
order S.b: s1 < s2, s2 < s1;
copy kept into S (b) from R (a): s1 from r1;
copy more into S (b) from R (a): s2 from q1;
-- r.csv
id,eid,a
r1,x,1
q1,y,1
-- s.csv
id,eid,b
s1,u,1
s2,u,1
>> conflicts s
0 currency conflicts 1;
conflicts 1;
conflict x of R;
conflict y of R;
conflict u of S;
item given S.b: s1 < s2;
item given S.b: s2 < s1;
end;

== a budget that is spent on the second part
-- s
relation U from "u.csv" row id entity eid (a: int, b: int, c: int);
relation V from "v.csv" row id entity eid (d: int);
order U.a: p1 < p2, p2 < p1;
rule n1 on U (s, t): if s.a = 0 and s before t in a and s before t in b and s before t in c then false;
rule n2 on U (s, t): if s.a = 0 and s before t in a and s before t in b and t before s in c then false;
rule n3 on U (s, t): if s.a = 0 and s before t in a and t before s in b and s before t in c then false;
rule n4 on U (s, t): if s.a = 0 and t before s in a and s before t in b and s before t in c then false;
copy kept into V (d) from U (a): v1 from r1;
-- u.csv
id,eid,a,b,c
p1,y,1,0,0
r1,x,0,0,0
p2,y,1,0,0
r2,x,0,0,0
-- v.csv
id,eid,d
v1,z,0
>> conflicts s --budget 1
3 currency conflicts 1;
conflict x of U;
conflict z of V;
item rule n1;
item rule n2;
item rule n3;
item rule n4;
item copy kept: v1 from r1;
currency report 2;
verdict undecided 1;
log;
statement before 1 1 1 2;
statement before 1 2 1 2;
statement before 1 3 1 2;
axiom rule 1 1 2: -1 -2 -3;
axiom rule 1 2 1: 1 2 3;
axiom rule 2 1 2: -1 -2 3;
axiom rule 2 2 1: 1 2 -3;
axiom rule 3 1 2: -1 2 -3;
axiom rule 3 2 1: 1 -2 3;
axiom rule 4 1 2: 1 -2 -3;
axiom rule 4 2 1: -1 2 3;
learn 2 1 by 4 2;
end;
>> conflicts s
0 currency conflicts 1;
conflicts 2;
conflict y of U;
item given U.a: p1 < p2;
item given U.a: p2 < p1;
conflict x of U;
conflict z of V;
item rule n1;
item rule n2;
item rule n3;
item rule n4;
end;
:: Without what only some of the items make easy.
-- s 3: order U.a: p1 < p2, p2 < p1, r1 < r2;
>> conflicts s --budget 1
3 currency conflicts 1;
conflict x of U;
conflict z of V;
item rule n1;
item rule n2;
item rule n3;
item rule n4;
currency report 2;
verdict undecided 1;
log;
statement before 1 1 1 2;
statement before 1 2 1 2;
statement before 1 3 1 2;
axiom rule 1 1 2: -1 -2 -3;
axiom rule 1 2 1: 1 2 3;
axiom rule 2 1 2: -1 -2 3;
axiom rule 2 2 1: 1 2 -3;
axiom rule 3 1 2: -1 2 -3;
axiom rule 3 2 1: 1 -2 3;
axiom rule 4 1 2: 1 -2 -3;
axiom rule 4 2 1: -1 2 3;
learn 2 1 by 4 2;
end;

== what is refused before
-- s: relation R from "r.csv" row id entity eid (a: int, a: int);
>> conflicts s => 5 error E04 s 1
-- s: relation R from "r.csv" row id entity eid (a: int);
>> conflicts s => 7 read fault r.csv
>> conflicts nothing => 7 read fault nothing
-- r.csv
id,eid,a
r1,x,1
r1,x,2
>> conflicts s => 5 error E09 r.csv 3
-- r.csv
id,eid,a
r1,x,1
>> ^5 conflicts s => 8 curre\
"#;

#[test]
fn conflicts_are_told(rt: HostRuntime) -> Result<(), Fail> {
    expect_played(&rt, ROWS)
}
