//! Reports on pairs and current tuples, which are accepted.

use crate::documents::expect_played;
use std::test::Fail;

const ROWS: &str = r#"
== current values are decided
-- s
relation Staff from "staff.csv" row record entity person (name: text, salary: int);
rule raises on Staff (s, t): if s.salary < t.salary then s before t in salary;
rule names on Staff (s, t): if s before t in salary then s before t in name;
relation Badge from "badges.csv" row badge entity holder (name: text);
copy printed into Badge (name) from Staff (name): b1 from s3, b2 from s1;
-- staff.csv
record,person,name,salary
s1,mary,Smith,50
s2,mary,Smith,60
s3,mary,Dupont,80
-- badges.csv
badge,holder,name
b1,4711,Dupont
b2,4711,Smith
-- q: same Staff, Badge;
>> ask s q
0 currency report 2;
verdict same;
current Staff mary ("Dupont", 80);
current Badge 4711 ("Dupont");
...
>> verify s q p => 0 accepted same
-- s
relation Emp from "emp.csv" row id entity eid (status: text, last: text, salary: int, address: text);
rule pay on Emp (s, t): if s.salary > t.salary then t before s in salary;
rule wed on Emp (s, t): if s.status = "married" and t.status = "single" then t before s in status;
rule name on Emp (s, t): if t before s in status then t before s in last;
rule move on Emp (s, t): if t before s in salary then t before s in address;
-- emp.csv
id,eid,status,last,salary,address
s1,mary,single,Smith,50,2 Small St
s2,mary,married,Dupont,50,10 Elm Ave
s3,mary,married,Dupont,80,6 Main St
-- q: same Emp;
>> ask s q
0 currency report 2;
verdict same;
current Emp mary ("married", "Dupont", 80, "6 Main St");
...
>> verify s q p => 0 accepted same
-- s 5
rule move on Emp (s, t): if t before s in salary then t before s in address;
relation Dept from "dept.csv" row id entity eid (mgr: text, budget: int);
copy c into Dept (mgr) from Emp (last): d1 from s1, d2 from s3;
-- dept.csv
id,eid,mgr,budget
d1,rd,Smith,6500
d2,rd,Dupont,6000
>> ask s q
0 currency report 2;
verdict same;
current Emp mary ("married", "Dupont", 80, "6 Main St");
...
-- s 5
rule move on Emp (s, t): if t before s in salary then t before s in address;
relation Dept from "dept.csv" row id entity eid (mgr: text, budget: int);
copy c into Dept (mgr) from Emp (last): d1 from s1, d2 from s3;
>> verify s q p => 0 accepted same
-- s 5
rule move on Emp (s, t): if t before s in salary then t before s in address;
relation Dept from "dept.csv" row id entity eid (mgr: text, budget: int);
copy c into Dept (mgr) from Emp (last): d1 from s1, d2 from s3;
-- q: same Dept;
>> ask s q
0 currency report 2;
verdict not same Dept.budget of rd;
...
-- s 5
rule move on Emp (s, t): if t before s in salary then t before s in address;
relation Dept from "dept.csv" row id entity eid (mgr: text, budget: int);
copy c into Dept (mgr) from Emp (last): d1 from s1, d2 from s3;
>> verify s q p => 0 accepted not same
-- s 5
rule move on Emp (s, t): if t before s in salary then t before s in address;
relation Dept from "dept.csv" row id entity eid (mgr: text, budget: int);
copy c into Dept (mgr) from Emp (last): d1 from s1, d2 from s3;
-- q: same Emp, Dept;
>> ask s q
0 currency report 2;
verdict not same Dept.budget of rd;
...
-- s 5
rule move on Emp (s, t): if t before s in salary then t before s in address;
relation Dept from "dept.csv" row id entity eid (mgr: text, budget: int);
copy c into Dept (mgr) from Emp (last): d1 from s1, d2 from s3;
>> verify s q p => 0 accepted not same
-- s: relation R from "r.csv" row id entity eid (a: int);
-- r.csv
id,eid,a
r1,x,1
r2,x,2
r3,x,3
-- q: same R;
>> ask s q
0 currency report 2;
verdict not same R.a of x;
...
>> verify s q p => 0 accepted not same
-- s
relation R from "r.csv" row id entity eid (a: int);
order R.a: r1 < r2, r2 < r3, r3 < r1;
>> ask s q
0 currency report 2;
verdict inconsistent;
...
>> verify s q p => 0 accepted inconsistent
-- s
relation S from "s.csv" row id entity eid (a: int);
relation T from "t.csv" row id entity eid (b: int);
copy c into T (b) from S (a): t1 from s1, t2 from s2;
order T.b: t1 < t2;
-- s.csv
id,eid,a
s1,y,1
s2,y,2
-- t.csv
id,eid,b
t1,x,1
t2,x,2
-- q: same T, S;
>> ask s q
0 currency report 2;
verdict same;
current S y (2);
current T x (2);
...
>> verify s q p => 0 accepted same

== a pair that a rule gives is its axiom, asked once or twice
-- s
relation R from "r.csv" row id entity eid (a: int);
rule up on R (s, t): if s.a < t.a then s before t in a;
-- r.csv
id,eid,a
r1,e,1
r2,e,2
-- q: certain R.a: r1 < r2, r1 < r2;
>> ask s q
0 currency report 2;
verdict certain;
completion;
ranking R.a of e: r1 < r2;
log;
statement before 1 1 1 2;
axiom rule 1 1 2: 1;
end;
>> verify s q p => 0 accepted certain

== a pair that is asked twice is derived once
-- s
relation R from "r.csv" row id entity eid (a: int);
order R.a: r1 < r2, r2 < r3;
-- r.csv
id,eid,a
r1,e,1
r2,e,2
r3,e,3
-- q: certain R.a: r1 < r3, r1 < r3;
>> ask s q
0 currency report 2;
verdict certain;
completion;
ranking R.a of e: r1 < r2 < r3;
log;
statement before 1 1 1 2;
statement before 1 1 1 3;
statement before 1 1 2 3;
axiom given 1 1 1 2: 1;
axiom given 1 1 2 3: 3;
axiom transitive 1 1 1 2 3: -1 -3 2;
derive 2 by 1 2 3;
end;
>> verify s q p => 0 accepted certain

== pairs are decided
-- s
relation Staff from "staff.csv" row record entity person (name: text, salary: int);
rule raises on Staff (s, t): if s.salary < t.salary then s before t in salary;
rule names on Staff (s, t): if s before t in salary then s before t in name;
relation Badge from "badges.csv" row badge entity holder (name: text);
copy printed into Badge (name) from Staff (name): b1 from s3, b2 from s1;
-- staff.csv
record,person,name,salary
s1,mary,Smith,50
s2,mary,Smith,60
s3,mary,Dupont,80
-- badges.csv
badge,holder,name
b1,4711,Dupont
b2,4711,Smith
-- q: certain Badge.name: b2 < b1;
>> ask s q
0 currency report 2;
verdict certain;
...
>> verify s q p => 0 accepted certain
-- pairs.csv
attribute,earlier,later
name,s1,s3
salary,s2,s3
-- q: certain orders Staff from "pairs.csv";
>> ask s q
0 currency report 2;
verdict certain;
...
>> verify s q p => 0 accepted certain
-- s
relation Emp from "emp.csv" row id entity eid (status: text, last: text, salary: int, address: text);
rule pay on Emp (s, t): if s.salary > t.salary then t before s in salary;
rule wed on Emp (s, t): if s.status = "married" and t.status = "single" then t before s in status;
rule name on Emp (s, t): if t before s in status then t before s in last;
rule move on Emp (s, t): if t before s in salary then t before s in address;
-- emp.csv
id,eid,status,last,salary,address
s1,mary,single,Smith,50,2 Small St
s2,mary,married,Dupont,50,10 Elm Ave
s3,mary,married,Dupont,80,6 Main St
-- q: certain Emp.salary: s1 < s3 and Emp.last: s1 < s2 and Emp.address: s2 < s3;
>> ask s q
0 currency report 2;
verdict certain;
...
>> verify s q p => 0 accepted certain
-- s 5
rule move on Emp (s, t): if t before s in salary then t before s in address;
relation Dept from "dept.csv" row id entity eid (mgr: text, budget: int);
copy c into Dept (mgr) from Emp (last): d1 from s1, d2 from s3;
-- dept.csv
id,eid,mgr,budget
d1,rd,Smith,6500
d2,rd,Dupont,6000
-- q: certain Emp.salary: s1 < s3, s2 < s3;
>> ask s q
0 currency report 2;
verdict certain;
...
-- s 5
rule move on Emp (s, t): if t before s in salary then t before s in address;
relation Dept from "dept.csv" row id entity eid (mgr: text, budget: int);
copy c into Dept (mgr) from Emp (last): d1 from s1, d2 from s3;
>> verify s q p => 0 accepted certain
-- s 5
rule move on Emp (s, t): if t before s in salary then t before s in address;
relation Dept from "dept.csv" row id entity eid (mgr: text, budget: int);
copy c into Dept (mgr) from Emp (last): d1 from s1, d2 from s3;
-- q: certain Dept.mgr: d1 < d2 and Emp.last: s1 < s2;
>> ask s q
0 currency report 2;
verdict certain;
...
-- s 5
rule move on Emp (s, t): if t before s in salary then t before s in address;
relation Dept from "dept.csv" row id entity eid (mgr: text, budget: int);
copy c into Dept (mgr) from Emp (last): d1 from s1, d2 from s3;
>> verify s q p => 0 accepted certain
-- s 5
rule move on Emp (s, t): if t before s in salary then t before s in address;
relation Dept from "dept.csv" row id entity eid (mgr: text, budget: int);
copy c into Dept (mgr) from Emp (last): d1 from s1, d2 from s3;
-- q: certain Emp.salary: s1 < s3, s1 < s2, s2 < s1;
>> ask s q
0 currency report 2;
verdict not certain Emp.salary: s1 < s2;
...
-- s 5
rule move on Emp (s, t): if t before s in salary then t before s in address;
relation Dept from "dept.csv" row id entity eid (mgr: text, budget: int);
copy c into Dept (mgr) from Emp (last): d1 from s1, d2 from s3;
>> verify s q p => 0 accepted not certain
-- s: relation R from "r.csv" row id entity eid (a: int);
-- r.csv
id,eid,a
r1,x,1
r2,x,2
r3,x,3
-- q: certain R.a: r3 < r1;
>> ask s q
0 currency report 2;
verdict not certain R.a: r3 < r1;
...
>> verify s q p => 0 accepted not certain
-- s
relation R from "r.csv" row id entity eid (a: int);
order R.a: r1 < r2, r2 < r3, r3 < r1;
-- q: certain R.a: r1 < r3;
>> ask s q
0 currency report 2;
verdict inconsistent;
...
>> verify s q p => 0 accepted inconsistent
-- s
relation U from "u.csv" row id entity eid (a: int, b: int, c: int);
rule n1 on U (s, t): if s before t in a and s before t in b and s before t in c then false;
rule n2 on U (s, t): if s before t in a and s before t in b and t before s in c then false;
rule n3 on U (s, t): if s before t in a and t before s in b and s before t in c then false;
rule n4 on U (s, t): if t before s in a and s before t in b and s before t in c then false;
-- u.csv
id,eid,a,b,c
r1,x,0,0,0
r2,x,0,0,0
-- q: certain U.c: r1 < r2;
>> ask s q
0 currency report 2;
verdict inconsistent;
...
>> verify s q p => 0 accepted inconsistent
-- s
relation S from "s.csv" row id entity eid (a: int);
relation T from "t.csv" row id entity eid (b: int);
copy c into T (b) from S (a): t1 from s1, t2 from s2;
order T.b: t1 < t2;
-- s.csv
id,eid,a
s1,y,1
s2,y,2
-- t.csv
id,eid,b
t1,x,1
t2,x,2
-- q: certain S.a: s1 < s2;
>> ask s q
0 currency report 2;
verdict certain;
...
>> verify s q p => 0 accepted certain
"#;

#[test]
fn questions_are_shown(rt: HostRuntime) -> Result<(), Fail> {
    expect_played(&rt, ROWS)
}
