//! Orders that are forced.

use crate::documents::expect_played;
use std::test::Fail;

const ROWS: &str = r#"
== forced pairs are listed
-- s: relation R from "r.csv" row id entity eid (a: int);
-- r.csv
id,eid,a
r1,x,1
r2,x,2
r3,x,3
>> forced s
0 forced 0;
end;
-- s
relation S from "s.csv" row id entity eid (a: int);
relation T from "t.csv" row id entity eid (b: int);
copy c1 into T (b) from S (a): t1 from p1, t2 from p2;
copy c2 into T (b) from S (a): t2 from q1, t3 from q2;
copy c3 into T (b) from S (a): t3 from w1, t1 from w2;
-- s.csv
id,eid,a
p1,p,0
p2,p,0
q1,q,0
q2,q,0
w1,w,0
w2,w,0
-- t.csv
id,eid,b
t1,x,0
t2,x,0
t3,x,0
>> forced s
0 forced 0;
end;
-- s 3-5
copy c into T (b) from S (a): t1 from s1, t2 from s2;
order T.b: t1 < t2;
-- s.csv
id,eid,a
s1,y,1
s2,y,2
-- t.csv
id,eid,b
t1,x,1
t2,x,2
>> forced s
0 forced 2;
pair S.a: s1 < s2;
pair T.b: t1 < t2;
end;
-- s
relation R from "r.csv" row id entity eid (a: int);
order R.a: r1 < r2, r2 < r3, r3 < r1;
>> forced s
0 forced 9 loops;
pair R.a: r1 < r1;
pair R.a: r1 < r2;
pair R.a: r1 < r3;
pair R.a: r2 < r1;
pair R.a: r2 < r2;
pair R.a: r2 < r3;
pair R.a: r3 < r1;
pair R.a: r3 < r2;
pair R.a: r3 < r3;
end;
-- s 2: rule n on R (s, t): s before t in a;
>> forced s
0 forced 9 loops;
pair R.a: r1 < r1;
pair R.a: r1 < r2;
pair R.a: r1 < r3;
pair R.a: r2 < r1;
pair R.a: r2 < r2;
pair R.a: r2 < r3;
pair R.a: r3 < r1;
pair R.a: r3 < r2;
pair R.a: r3 < r3;
end;

== pairs stand by attribute, entity and rows, and names are quoted where they have to be
-- s
relation R from "r.csv" row id entity eid (a: int, b: int);
order R.b: r3 < r1, r1 < r2, "r 5" < r4;
-- r.csv
id,eid,a,b
r1,x,1,1
r2,x,2,1
r3,x,3,2
r4,y,1,1
r 5,y,2,2
>> forced s
0 forced 4;
pair R.b: r1 < r2;
pair R.b: r3 < r1;
pair R.b: r3 < r2;
pair R.b: "r 5" < r4;
end;

== a rule concludes what is given in another attribute
-- s
relation R from "r.csv" row id entity eid (a: int, b: int);
order R.b: r2 < r1;
rule n on R (s, t): if s before t in b then s before t in a;
-- r.csv
id,eid,a,b
r1,x,1,1
r2,x,2,1
>> forced s
0 forced 2;
pair R.a: r2 < r1;
pair R.b: r2 < r1;
end;

== a given pair against a rule on values
-- s
relation R from "r.csv" row id entity eid (a: int);
order R.a: r2 < r1;
rule n on R (s, t): if s.a < t.a then s before t in a;
-- r.csv
id,eid,a
r1,x,1
r2,x,2
r3,x,3
>> forced s
0 forced 6 loops;
pair R.a: r1 < r1;
pair R.a: r1 < r2;
pair R.a: r1 < r3;
pair R.a: r2 < r1;
pair R.a: r2 < r2;
pair R.a: r2 < r3;
end;
"#;

#[test]
fn forced_orders_are_listed(rt: HostRuntime) -> Result<(), Fail> {
    expect_played(&rt, ROWS)
}
