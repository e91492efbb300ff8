//! Questions that are decided or refused.

use crate::documents::expect_played;
use std::test::Fail;

const ROWS: &str = r#"
== brief texts are due
-- s
relation R from "r.csv" row id entity eid (a: int);
order R.a: r1 < r2, r2 < r3, r3 < r1;
-- r.csv
id,eid,a
r1,x,1
r2,x,2
r3,x,3
-- q: consistent;
>> ask s q --brief
0 currency brief 2;
verdict inconsistent;
end;
-- s 2: rule n on R (s, t): s before t in a;
>> ask s q --brief
0 currency brief 2;
verdict inconsistent;
end;
-- s: relation R from "r.csv" row id entity eid (a: int);
>> ask s q --brief
0 currency brief 2;
verdict consistent;
completion;
ranking R.a of x: r3 < r2 < r1;
end;
-- s
relation R from "r.csv" row id entity eid (a: int);
rule n on R (s, t): if s before s in a then false;
>> ask s q --brief
0 currency brief 2;
verdict consistent;
completion;
ranking R.a of x: r3 < r2 < r1;
end;

== questions are decided
-- s: relation R from "r.csv" row id entity eid (a: int);
-- r.csv
id,eid,a
r1,x,1
r2,x,2
r3,x,3
-- q: consistent;
>> ask s q
0 currency report 2;
verdict consistent;
completion;
ranking R.a of x: r3 < r2 < r1;
end;
>> verify s q p => 0 accepted consistent
>> ask s q --brief
0 currency brief 2;
verdict consistent;
completion;
ranking R.a of x: r3 < r2 < r1;
end;
-- s
relation R from "r.csv" row id entity eid (a: int);
order R.a: r1 < r2, r2 < r3, r3 < r1;
>> ask s q
0 currency report 2;
verdict inconsistent;
log;
statement before 1 1 1 2;
statement before 1 1 1 3;
statement before 1 1 2 3;
axiom given 1 1 1 2: 1;
axiom given 1 1 2 3: 3;
axiom given 1 1 3 1: -2;
axiom transitive 1 1 1 2 3: -1 -3 2;
derive by 1 2 3 4;
end;
>> verify s q p => 0 accepted inconsistent
>> ask s q --brief
0 currency brief 2;
verdict inconsistent;
end;
-- s 2: rule n on R (s, t): s before t in a;
>> ask s q
0 currency report 2;
verdict inconsistent;
log;
axiom rule 1 1 1:;
end;
-- s 2: rule n on R (s, t): s before t in a;
>> verify s q p => 0 accepted inconsistent
-- s 2: rule n on R (s, t): s before t in a;
>> ask s q --brief
0 currency brief 2;
verdict inconsistent;
end;
-- s 2: rule n on R (s, t): if s before s in a then false;
>> ask s q
0 currency report 2;
verdict consistent;
completion;
ranking R.a of x: r3 < r2 < r1;
end;
-- s 2: rule n on R (s, t): if s before s in a then false;
>> verify s q p => 0 accepted consistent
-- s 2: rule n on R (s, t): if s before s in a then false;
>> ask s q --brief
0 currency brief 2;
verdict consistent;
completion;
ranking R.a of x: r3 < r2 < r1;
end;
-- s
relation E from "e.csv" row id entity eid (a: int);
rule n on E (s, t): s before t in a;
-- e.csv: id,eid,a
>> ask s q
0 currency report 2;
verdict consistent;
completion;
end;
>> verify s q p => 0 accepted consistent
>> ask s q --brief
0 currency brief 2;
verdict consistent;
completion;
end;
-- s
relation Emp from "emp.csv" row id entity eid (status: text, last: text, salary: int, address: text);
rule pay on Emp (s, t): if s.salary > t.salary then t before s in salary;
rule wed on Emp (s, t): if s.status = "married" and t.status = "single" then t before s in status;
rule name on Emp (s, t): if t before s in status then t before s in last;
rule move on Emp (s, t): if t before s in salary then t before s in address;
relation Dept from "dept.csv" row id entity eid (mgr: text, budget: int);
copy c into Dept (mgr) from Emp (last): d1 from s1, d2 from s3;
-- emp.csv
id,eid,status,last,salary,address
s1,mary,single,Smith,50,2 Small St
s2,mary,married,Dupont,50,10 Elm Ave
s3,mary,married,Dupont,80,6 Main St
-- dept.csv
id,eid,mgr,budget
d1,rd,Smith,6500
d2,rd,Dupont,6000
>> ask s q
0 currency report 2;
verdict consistent;
completion;
ranking Emp.status of mary: s1 < s3 < s2;
ranking Emp.last of mary: s1 < s3 < s2;
ranking Emp.salary of mary: s2 < s1 < s3;
ranking Emp.address of mary: s2 < s1 < s3;
ranking Dept.mgr of rd: d1 < d2;
ranking Dept.budget of rd: d2 < d1;
end;
>> verify s q p => 0 accepted consistent
>> ask s q --brief
0 currency brief 2;
verdict consistent;
completion;
ranking Emp.status of mary: s1 < s3 < s2;
ranking Emp.last of mary: s1 < s3 < s2;
ranking Emp.salary of mary: s2 < s1 < s3;
ranking Emp.address of mary: s2 < s1 < s3;
ranking Dept.mgr of rd: d1 < d2;
ranking Dept.budget of rd: d2 < d1;
end;
-- s
relation S from "s.csv" row id entity eid (a: int);
relation T from "t.csv" row id entity eid (b: int);
copy c1 into T (b) from S (a): t1 from p1, t2 from p2;
copy c2 into T (b) from S (a): t2 from q1, t3 from q2;
copy c3 into T (b) from S (a): t3 from w1, t1 from w2;
-- s.csv
id,eid,a
p1,p,0
p2,p,0
q1,q,0
q2,q,0
w1,w,0
w2,w,0
-- t.csv
id,eid,b
t1,x,0
t2,x,0
t3,x,0
>> ask s q
0 currency report 2;
verdict consistent;
completion;
ranking S.a of p: p2 < p1;
ranking S.a of q: q2 < q1;
ranking S.a of w: w1 < w2;
ranking T.b of x: t3 < t2 < t1;
end;
>> verify s q p => 0 accepted consistent
>> ask s q --brief
0 currency brief 2;
verdict consistent;
completion;
ranking S.a of p: p2 < p1;
ranking S.a of q: q2 < q1;
ranking S.a of w: w1 < w2;
ranking T.b of x: t3 < t2 < t1;
end;
-- s
relation U from "u.csv" row id entity eid (a: int, b: int, c: int);
rule n1 on U (s, t): if s before t in a and s before t in b and s before t in c then false;
rule n2 on U (s, t): if s before t in a and s before t in b and t before s in c then false;
rule n3 on U (s, t): if s before t in a and t before s in b and s before t in c then false;
rule n4 on U (s, t): if t before s in a and s before t in b and s before t in c then false;
-- u.csv
id,eid,a,b,c
r1,x,0,0,0
r2,x,0,0,0
>> ask s q
0 currency report 2;
verdict inconsistent;
log;
statement before 1 1 1 2;
statement before 1 2 1 2;
statement before 1 3 1 2;
axiom rule 1 1 2: -1 -2 -3;
axiom rule 1 2 1: 1 2 3;
axiom rule 2 1 2: -1 -2 3;
axiom rule 2 2 1: 1 2 -3;
axiom rule 3 1 2: -1 2 -3;
axiom rule 3 2 1: 1 -2 3;
axiom rule 4 1 2: 1 -2 -3;
axiom rule 4 2 1: -1 2 3;
learn 2 1 by 4 2;
learn 1 by 9 7 6;
learn 2 by 10 8 5;
derive by 10 11 3 1;
end;
>> verify s q p => 0 accepted inconsistent
>> ask s q --brief
0 currency brief 2;
verdict inconsistent;
end;
-- s
relation S from "s.csv" row id entity eid (a: int);
relation T from "t.csv" row id entity eid (b: int);
copy c into T (b) from S (a): t1 from s1, t2 from s2;
order T.b: t1 < t2;
-- s.csv
id,eid,a
s1,y,1
s2,y,2
-- t.csv
id,eid,b
t1,x,1
t2,x,2
>> ask s q
0 currency report 2;
verdict consistent;
completion;
ranking S.a of y: s1 < s2;
ranking T.b of x: t1 < t2;
end;
>> verify s q p => 0 accepted consistent
>> ask s q --brief
0 currency brief 2;
verdict consistent;
completion;
ranking S.a of y: s1 < s2;
ranking T.b of x: t1 < t2;
end;

== refusals are told
>> ask s q --budget 0 => 2 words refused
>> ask s q --budget 10000001 => 2 words refused
>> ask s q --budget 18446744073709551617 => 2 words refused
>> ask s q --budget x => 2 words refused
>> ask s q --budget +5 => 2 words refused
>> ask s q --budget 007 => 2 words refused
>> --help => 2 words refused
>> ask s => 2 words refused
>> ask s q --brief --brief => 2 words refused
>> ask s q --brief --verdict => 2 words refused
>> ask s q --csv --verdict => 2 words refused
>> ask s q --csv --exit => 2 words refused
>> ask s q --exit --exit => 2 words refused
>> possible s q --verdict => 2 words refused
>> explain s q 1 --exit => 2 words refused
>> ask s q --guide 5 => 2 words refused
>> ask s q --guide 1 => 2 words refused
>> why s q 1 => 2 words refused
>> explain s q => 2 words refused
>> explain s q 0 => 2 words refused
>> explain s q 4294967296 => 2 words refused
>> explain s q x => 2 words refused
>> explain s q 1 --budget 0 => 2 words refused
>> explain s q 1 --brief => 2 words refused
>> explain s q 1 --guide 1 => 2 words refused
>> conflicts => 2 words refused
>> conflicts s q => 2 words refused
>> conflicts s --budget 10000001 => 2 words refused
>> conflicts s --guide 1 => 2 words refused
>> forced s q => 2 words refused
-- s: relation R from "r.csv" row id entity eid (a: int);
-- r.csv
id,eid,a
r1,x,1
r2,x,2
r3,x,3
-- q: certain;
>> ask s q => 5 error E02 q 1
-- q: certain R.a;
>> ask s q => 5 error E02 q 1
-- q: certain R.b: r1 < r2;
>> ask s q => 5 error E03 q 1
-- q
certain R.a:
r1 < r9;
>> ask s q => 5 error E10 q 2
-- q
certain R.a: r1 < r2,
r1 < r1;
>> ask s q => 5 error E11 q 2
-- q: same Q;
>> ask s q => 5 error E03 q 1
-- q
same R,
R;
>> ask s q => 5 error E04 q 2
-- r.csv
id,eid,a
r1,x,9223372036854775808
-- q: consistent;
>> ask s q => 5 error E08 r.csv 2

== tables of pairs are refused
-- s: relation R from "r.csv" row id entity eid (a: int);
-- r.csv
id,eid,a
r1,x,1
r2,x,2
r3,x,3
-- none.csv: attribute,earlier,later
-- q: certain orders R from "none.csv";
>> ask s q => 5 error E02 q 1
-- q: certain orders R from "none.csv" and orders R from "none.csv";
>> ask s q => 5 error E02 q 1
-- q: certain R.a: r1 < r1;
>> ask s q => 5 error E11 q 1
-- head.csv
attribute,earlier
a,r1
-- q: certain orders R from "head.csv";
>> ask s q => 5 error E07 head.csv 1
-- row.csv
attribute,earlier,later
a,r1,r2
a,r1,r9
-- q: certain orders R from "row.csv";
>> ask s q => 5 error E10 row.csv 3
-- q: certain orders R from "gone.csv";
>> ask s q => 7 read fault gone.csv
-- attr.csv
attribute,earlier,later
b,r1,r9
-- q: certain R.a: r1 < r9 and orders R from "attr.csv";
>> ask s q => 5 error E03 attr.csv 2
-- q: certain orders R from "attr.csv" and Q.a: r1 < r2;
>> ask s q => 5 error E03 q 1
-- q
certain orders R from "gone.csv" and
R.b: r1 < r2;
>> ask s q => 5 error E03 q 2
-- one.csv
attribute,earlier,later
a,r1,r2
-- q: certain orders R from "row.csv" and orders Q from "one.csv";
>> ask s q => 5 error E10 row.csv 3
-- q: certain R.a: r1 < r9 and orders R from "one.csv" and orders R from "attr.csv";
>> ask s q => 5 error E10 q 1
-- q: certain orders R from "one.csv" and orders R from "gone.csv";
>> ask s q => 7 read fault gone.csv
-- q: certain orders R from "one.csv" and orders R from "none.csv" and R.a: r2 < r3;
>> ask s q --brief
0 currency brief 2;
verdict not certain R.a: r1 < r2;
completion;
ranking R.a of x: r3 < r2 < r1;
end;

== budgets are spent
-- s
relation U from "u.csv" row id entity eid (a: int, b: int, c: int);
rule n1 on U (s, t): if s before t in a and s before t in b and s before t in c then false;
rule n2 on U (s, t): if s before t in a and s before t in b and t before s in c then false;
rule n3 on U (s, t): if s before t in a and t before s in b and s before t in c then false;
rule n4 on U (s, t): if t before s in a and s before t in b and s before t in c then false;
-- u.csv
id,eid,a,b,c
r1,x,0,0,0
r2,x,0,0,0
-- q: consistent;
>> ask s q --budget 1
3 currency report 2;
verdict undecided 1;
...
>> verify s q p => 0 accepted undecided
>> ask s q --budget 1 --verdict => 3 verdict undecided 1;
>> ask s q --budget 1 --verdict --exit => 3 verdict undecided 1;
>> ask s q --budget=27
0 currency report 2;
verdict inconsistent;
...
>> verify s q p => 0 accepted inconsistent
:: a circle of given pairs takes no clause
-- s
relation R from "r.csv" row id entity eid (a: int);
order R.a: r1 < r2, r2 < r3, r3 < r1;
-- r.csv
id,eid,a
r1,x,1
r2,x,2
r3,x,3
>> ask s q --budget 1
0 currency report 2;
verdict inconsistent;
...
>> verify s q p => 0 accepted inconsistent
"#;

#[test]
fn questions_are_asked(rt: HostRuntime) -> Result<(), Fail> {
    expect_played(&rt, ROWS)
}
