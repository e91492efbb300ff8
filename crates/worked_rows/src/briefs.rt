//! Brief texts of questions, verdicts alone, and the status of an answer of no. With no guide the first free pair is turned
//! round, again and again.

use crate::documents::expect_played;
use std::test::Fail;

const ROWS: &str = r#"
== texts of questions are due
-- s: relation R from "n.csv" row id entity eid (a: int);
-- n.csv: id,eid,a
-- q: same R;
>> ask s q --brief
0 currency brief 2;
verdict same;
completion;
end;
-- n.csv
id,eid,a
r1,x,1
r2,y,2
>> ask s q --brief
0 currency brief 2;
verdict same;
current R x (1);
current R y (2);
completion;
ranking R.a of x: r1;
ranking R.a of y: r2;
end;
-- n.csv
id,eid,a
r1,x,1
r2,x,1
>> ask s q --brief
0 currency brief 2;
verdict same;
current R x (1);
completion;
ranking R.a of x: r2 < r1;
end;
-- q: certain R.a: r1 < r2;
>> ask s q --brief
0 currency brief 2;
verdict not certain R.a: r1 < r2;
completion;
ranking R.a of x: r2 < r1;
end;
-- s
relation S from "s.csv" row id entity eid (a: int);
relation T from "t.csv" row id entity eid (b: int);
copy c into T (b) from S (a): t1 from s1, t2 from s2;
order T.b: t1 < t2;
-- s.csv
id,eid,a
s1,y,1
s2,y,2
-- t.csv
id,eid,b
t1,x,1
t2,x,2
-- q: certain S.a: s1 < s2;
>> ask s q --brief
0 currency brief 2;
verdict certain;
completion;
ranking S.a of y: s1 < s2;
ranking T.b of x: t1 < t2;
end;
-- s 3-4: copy c into T (b) from S (a): t1 from s1, t2 from s2;
-- s.csv
id,eid,a
s1,y,1
s2,z,2
-- q: certain T.b: t1 < t2;
>> ask s q --brief
0 currency brief 2;
verdict not certain T.b: t1 < t2;
completion;
ranking S.a of y: s1;
ranking S.a of z: s2;
ranking T.b of x: t2 < t1;
end;
-- s
relation R from "r.csv" row id entity eid (a: int);
order R.a: r1 < r2, r2 < r3, r3 < r1;
-- r.csv
id,eid,a
r1,x,1
r2,x,2
r3,x,3
-- q: certain R.a: r1 < r2;
>> ask s q --brief
0 currency brief 2;
verdict inconsistent;
end;
-- q: same R;
>> ask s q --brief
0 currency brief 2;
verdict inconsistent;
end;
-- s 2: order R.a: r1 < r2;
-- q: certain R.a: r1 < r2 and R.a: r2 < r3;
>> ask s q --brief
0 currency brief 2;
verdict not certain R.a: r2 < r3;
completion;
ranking R.a of x: r3 < r1 < r2;
end;
-- s
relation Emp from "emp.csv" row id entity eid (status: text, last: text, salary: int, address: text);
rule pay on Emp (s, t): if s.salary > t.salary then t before s in salary;
rule wed on Emp (s, t): if s.status = "married" and t.status = "single" then t before s in status;
rule name on Emp (s, t): if t before s in status then t before s in last;
rule move on Emp (s, t): if t before s in salary then t before s in address;
-- emp.csv
id,eid,status,last,salary,address
s1,mary,single,Smith,50,2 Small St
s2,mary,married,Dupont,50,10 Elm Ave
s3,mary,married,Dupont,80,6 Main St
-- q: certain Emp.salary: s1 < s2;
>> ask s q --brief
0 currency brief 2;
verdict not certain Emp.salary: s1 < s2;
completion;
ranking Emp.status of mary: s1 < s3 < s2;
ranking Emp.last of mary: s1 < s3 < s2;
ranking Emp.salary of mary: s2 < s1 < s3;
ranking Emp.address of mary: s2 < s1 < s3;
end;
:: The other row is the last one in the second completion.
-- s: relation R from "r.csv" row id entity eid (a: int);
-- q: same R;
>> ask s q --brief
0 currency brief 2;
verdict not same R.a of x;
completion;
ranking R.a of x: r3 < r2 < r1;
completion;
ranking R.a of x: r2 < r1 < r3;
end;
-- s
relation R from "n.csv" row id entity eid (a: int, b: int);
order R.b: r1 < r2;
-- n.csv
id,eid,a,b
r1,x,1,1
r2,x,2,2
>> ask s q --brief
0 currency brief 2;
verdict not same R.a of x;
completion;
ranking R.a of x: r2 < r1;
ranking R.b of x: r1 < r2;
completion;
ranking R.a of x: r1 < r2;
end;
:: What a query has over the first completion, and not over a later one, is no answer.
-- s: relation R from "n.csv" row id entity eid (a: int);
-- n.csv: id,eid,a
-- q: answers () where R(_, _);
>> ask s q --brief
0 currency brief 2;
verdict answers;
completion;
end;
-- n.csv
id,eid,a
r1,x,1
r2,y,2
-- q: answers (v, e) where R(e, v) or R("x", v) and R(e, _);
>> ask s q --brief
0 currency brief 2;
verdict answers;
answer (1, "x");
answer (1, "y");
answer (2, "y");
completion;
ranking R.a of x: r1;
ranking R.a of y: r2;
end;
-- n.csv
id,eid,a
r1,x,1
r2,x,1
-- q: answers (v) where R(_, v);
>> ask s q --brief
0 currency brief 2;
verdict answers;
answer (1);
completion;
ranking R.a of x: r2 < r1;
end;
-- s
relation R from "r.csv" row id entity eid (a: int);
order R.a: r1 < r2, r2 < r3, r3 < r1;
-- q: answers (x) where R(e, x);
>> ask s q --brief
0 currency brief 2;
verdict inconsistent;
end;
-- s 2: order R.a: r1 < r2;
-- q: answers (x) where R(e, x) and x = 1;
>> ask s q --brief
0 currency brief 2;
verdict answers;
completion;
ranking R.a of x: r3 < r1 < r2;
end;
-- s 2: order R.a: r1 < r3, r2 < r3;
-- q: answers (x) where R(e, x) and x >= 2;
>> ask s q --brief
0 currency brief 2;
verdict answers;
answer (3);
completion;
ranking R.a of x: r2 < r1 < r3;
end;
-- s: relation R from "r.csv" row id entity eid (a: int);
-- q: answers () where R(e, x) and x >= 1;
>> ask s q --brief
0 currency brief 2;
verdict answers;
answer ();
completion;
ranking R.a of x: r3 < r2 < r1;
end;
-- q: answers (x) where R(e, x);
>> ask s q --brief
0 currency brief 2;
verdict answers;
completion;
ranking R.a of x: r3 < r2 < r1;
completion;
ranking R.a of x: r2 < r1 < r3;
end;
-- s
relation R from "n.csv" row id entity eid (a: int, b: int);
order R.b: r1 < r2;
-- n.csv
id,eid,a,b
r1,x,1,1
r2,x,2,2
-- q: answers (v, w) where R(_, v, _) and R(_, _, w);
>> ask s q --brief
0 currency brief 2;
verdict answers;
completion;
ranking R.a of x: r2 < r1;
ranking R.b of x: r1 < r2;
completion;
ranking R.a of x: r1 < r2;
end;
-- q: answers (w) where R(_, 1, w) or R(_, 2, w);
>> ask s q --brief
0 currency brief 2;
verdict answers;
answer (2);
completion;
ranking R.a of x: r2 < r1;
ranking R.b of x: r1 < r2;
end;
-- s
relation S from "s.csv" row id entity eid (a: int);
relation T from "t.csv" row id entity eid (b: int);
copy c into T (b) from S (a): t1 from s1, t2 from s2;
order T.b: t1 < t2;
-- s.csv
id,eid,a
s1,y,1
s2,y,2
-- q: answers (x, y) where S(_, x) and T(_, y);
>> ask s q --brief
0 currency brief 2;
verdict answers;
answer (2, 2);
completion;
ranking S.a of y: s1 < s2;
ranking T.b of x: t1 < t2;
end;
-- s
relation Emp from "emp.csv" row id entity eid (status: text, last: text, salary: int, address: text);
rule pay on Emp (s, t): if s.salary > t.salary then t before s in salary;
rule wed on Emp (s, t): if s.status = "married" and t.status = "single" then t before s in status;
rule name on Emp (s, t): if t before s in status then t before s in last;
rule move on Emp (s, t): if t before s in salary then t before s in address;
relation Dept from "dept.csv" row id entity eid (mgr: text, budget: int);
copy c into Dept (mgr) from Emp (last): d1 from s1, d2 from s3;
-- dept.csv
id,eid,mgr,budget
d1,rd,Smith,6500
d2,rd,Dupont,6000
-- q: answers (d, x, y) where Dept(d, x, _) and Emp(e, _, x, y, _);
>> ask s q --brief
0 currency brief 2;
verdict answers;
answer ("rd", "Dupont", 80);
completion;
ranking Emp.status of mary: s1 < s3 < s2;
ranking Emp.last of mary: s1 < s3 < s2;
ranking Emp.salary of mary: s2 < s1 < s3;
ranking Emp.address of mary: s2 < s1 < s3;
ranking Dept.mgr of rd: d1 < d2;
ranking Dept.budget of rd: d2 < d1;
end;

== the verdict alone, and a status that tells an answer of no
-- s: relation R from "r.csv" row id entity eid (a: int);
-- r.csv
id,eid,a
r1,x,1
r2,x,2
-- q: consistent;
>> ask s q --verdict => 0 verdict consistent;
>> ask s q --exit --verdict => 0 verdict consistent;
-- q: certain R.a: r1 < r2;
>> ask s q --verdict => 0 verdict not certain R.a: r1 < r2;
>> ask s q --verdict --exit => 1 verdict not certain R.a: r1 < r2;
>> ask --exit s q --brief
1 currency brief 2;
verdict not certain R.a: r1 < r2;
completion;
ranking R.a of x: r2 < r1;
end;
>> ask s q --exit
1 currency report 2;
verdict not certain R.a: r1 < r2;
completion;
ranking R.a of x: r2 < r1;
end;
-- q: same R;
>> ask s q --verdict => 0 verdict not same R.a of x;
>> ask s --verdict q --budget 1 --exit => 1 verdict not same R.a of x;
-- q: answers (v) where R(_, v);
:: No answer is certain, which is no answer of no.
>> ask s q --verdict --exit => 0 verdict answers;
-- s
relation R from "r.csv" row id entity eid (a: int);
order R.a: r1 < r2;
>> ask s q --verdict
0 verdict answers;
answer (2);
>> ask s q --verdict --exit
0 verdict answers;
answer (2);
-- q: same R;
>> ask s q --verdict --exit
0 verdict same;
current R x (2);
-- q: certain R.a: r1 < r2;
>> ask s q --verdict --exit => 0 verdict certain;
-- s
relation R from "r.csv" row id entity eid (a: int);
order R.a: r1 < r2, r2 < r1;
>> ask s q --verdict => 0 verdict inconsistent;
>> ask s q --verdict --exit => 1 verdict inconsistent;
-- q: answers (v) where R(_, v);
>> ask s q --verdict --exit => 1 verdict inconsistent;
-- q: consistent;
>> ask s q --brief --exit
1 currency brief 2;
verdict inconsistent;
end;
"#;

#[test]
fn brief_texts_are_due(rt: HostRuntime) -> Result<(), Fail> {
    expect_played(&rt, ROWS)
}
