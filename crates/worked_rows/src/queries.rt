//! Answers of queries, and queries that are refused or beyond a limit.

use crate::documents::expect_played;
use std::test::Fail;

const ROWS: &str = r#"
== a limit comes after kinds and before heads
-- s: relation R from "r.csv" row id entity eid (a: int);
-- r.csv
id,eid,a
r1,x,1
r2,x,2
r3,x,3
-- q
answers (z) where R(e, _) and R(e2, _) and R(e3, _) and R(e4, _) and R(e5, _) and R(e6, _) and R(e7, _) and R(e8, _) and R(e9, _);
>> ask s q => 6 limit 12
-- q
answers () where R(e, _) and R(e2, _) and R(e3, _) and R(e4, _) and R(e5, _) and R(e6, _) and R(e7, _) and R(e8, _) and R(e9, _) and z = 1;
>> ask s q => 6 limit 12
-- q
answers () where R(e, _) and R(e2, _) and R(e3, _) and R(e4, _) and R(e5, _) and R(e6, _) and R(e7, _) and R(e8, _) and R(e9, _) and
R(e);
>> ask s q => 5 error E05 q 2
-- q
answers () where R(e, _) and R(e2, _) and R(e3, _) and R(e4, _) and R(e5, _) and R(e6, _) and R(e7, _) and R(e8, _) and R(e9, _) or
R(e, "1");
>> ask s q => 5 error E05 q 2
-- q 2: Q(e);
>> ask s q => 5 error E03 q 2
-- q
answers () where R(e, _) and R(e2, _) and R(e3, _) and R(e4, _) and R(e5, _) and R(e6, _) and R(e7, _) and R(e8, _) and R(e9, _) or;
>> ask s q => 5 error E02 q 1

== answers are decided
-- s
relation Emp from "emp.csv" row id entity eid (status: text, last: text, salary: int, address: text);
rule pay on Emp (s, t): if s.salary > t.salary then t before s in salary;
rule wed on Emp (s, t): if s.status = "married" and t.status = "single" then t before s in status;
rule name on Emp (s, t): if t before s in status then t before s in last;
rule move on Emp (s, t): if t before s in salary then t before s in address;
relation Dept from "dept.csv" row id entity eid (mgr: text, budget: int);
copy c into Dept (mgr) from Emp (last): d1 from s1, d2 from s3;
-- emp.csv
id,eid,status,last,salary,address
s1,mary,single,Smith,50,2 Small St
s2,mary,married,Dupont,50,10 Elm Ave
s3,mary,married,Dupont,80,6 Main St
-- dept.csv
id,eid,mgr,budget
d1,rd,Smith,6500
d2,rd,Dupont,6000
-- q: answers (d, x, y) where Dept(d, x, _) and Emp(e, _, x, y, _);
>> ask s q
0 currency report 2;
verdict answers;
answer ("rd", "Dupont", 80);
completion;
...
>> verify s q p => 0 accepted answers
:: neither disjunct alone holds in both completions
-- s: relation R from "n.csv" row id entity eid (a: int);
-- n.csv
id,eid,a
r1,x,1
r2,x,2
-- q: answers () where R(e, 1) or R(e, 2);
>> ask s q
0 currency report 2;
verdict answers;
answer ();
completion;
...
>> verify s q p => 0 accepted answers
-- q: answers (x) where R(e, x);
>> ask s q
0 currency report 2;
verdict answers;
completion;
...
>> verify s q p => 0 accepted answers
-- s
relation R from "r.csv" row id entity eid (a: int);
order R.a: r1 < r2, r2 < r3, r3 < r1;
-- r.csv
id,eid,a
r1,x,1
r2,x,2
r3,x,3
>> ask s q
0 currency report 2;
verdict inconsistent;
...
>> verify s q p => 0 accepted inconsistent
-- s 2: rule n on R (s, t): s before t in a;
-- q: answers () where R(_, _);
>> ask s q
0 currency report 2;
verdict inconsistent;
...
-- s 2: rule n on R (s, t): s before t in a;
>> verify s q p => 0 accepted inconsistent
-- s: relation R from "r.csv" row id entity eid (a: int);
-- q: answers () where R(e, 9);
>> ask s q
0 currency report 2;
verdict answers;
completion;
...
>> verify s q p => 0 accepted answers
-- q: answers (x, x) where R(x, _);
>> ask s q
0 currency report 2;
verdict answers;
answer ("x", "x");
completion;
...
>> verify s q p => 0 accepted answers
-- s
relation R from "r.csv" row id entity eid (a: int);
order R.a: r1 < r3, r2 < r3;
-- q: answers (x) where R(e, x) and x >= 2;
>> ask s q
0 currency report 2;
verdict answers;
answer (3);
completion;
...
>> verify s q p => 0 accepted answers
-- q: answers (x) where R(e, x) and x < 3;
>> ask s q
0 currency report 2;
verdict answers;
completion;
...
>> verify s q p => 0 accepted answers
:: which row is last is not known, and each has such a value
-- s: relation R from "r.csv" row id entity eid (a: int);
-- q: answers () where R(e, x) and x >= 1;
>> ask s q
0 currency report 2;
verdict answers;
answer ();
completion;
...
>> verify s q p => 0 accepted answers
-- s
relation Emp from "emp.csv" row id entity eid (status: text, last: text, salary: int, address: text);
rule pay on Emp (s, t): if s.salary > t.salary then t before s in salary;
rule wed on Emp (s, t): if s.status = "married" and t.status = "single" then t before s in status;
rule name on Emp (s, t): if t before s in status then t before s in last;
rule move on Emp (s, t): if t before s in salary then t before s in address;
relation Dept from "dept.csv" row id entity eid (mgr: text, budget: int);
copy c into Dept (mgr) from Emp (last): d1 from s1, d2 from s3;
-- q: answers (s, p) where Emp(p, s, _, _, _) or Dept(p, s, _);
>> ask s q
0 currency report 2;
verdict answers;
answer ("Dupont", "rd");
answer ("married", "mary");
completion;
...
>> verify s q p => 0 accepted answers
-- s
relation R from "r.csv" row id entity eid (a: int);
order R.a: r1 < r3, r2 < r3;
-- q: answers (x, y, x) where R(x, y);
>> ask s q
0 currency report 2;
verdict answers;
answer ("x", 3, "x");
completion;
...
>> verify s q p => 0 accepted answers
-- s
relation S from "s.csv" row id entity eid (a: int);
relation T from "t.csv" row id entity eid (b: int);
copy c into T (b) from S (a): t1 from s1, t2 from s2;
order T.b: t1 < t2;
-- s.csv
id,eid,a
s1,y,1
s2,y,2
-- t.csv
id,eid,b
t1,x,1
t2,x,2
-- q: answers (x, y) where S(_, x) and T(_, y);
>> ask s q
0 currency report 2;
verdict answers;
answer (2, 2);
completion;
...
>> verify s q p => 0 accepted answers
-- s
relation E from "e.csv" row id entity eid (a: int);
rule n on E (s, t): s before t in a;
-- e.csv: id,eid,a
-- q: answers () where E(_, _);
>> ask s q
0 currency report 2;
verdict answers;
completion;
...
>> verify s q p => 0 accepted answers
:: no tuple meets these, of whatever completion
-- s: relation R from "r.csv" row id entity eid (a: int);
-- q: answers (x) where R(e, x) and x < 2 and x > 2;
>> ask s q
0 currency report 2;
verdict answers;
completion;
...
>> verify s q p => 0 accepted answers
-- q: answers (e) where R(e, _) and R("w", _);
>> ask s q
0 currency report 2;
verdict answers;
completion;
...
>> verify s q p => 0 accepted answers
-- q: answers (e) where R(e, _) and 1 > 2;
>> ask s q
0 currency report 2;
verdict answers;
completion;
...
>> verify s q p => 0 accepted answers
-- q: answers (e) where R(e, _) and "a" < "aa";
>> ask s q
0 currency report 2;
verdict answers;
answer ("x");
completion;
...
>> verify s q p => 0 accepted answers
-- q: answers (e) where R(e, x) and -5 < x and x != 9 and x <= 3;
>> ask s q
0 currency report 2;
verdict answers;
answer ("x");
completion;
...
>> verify s q p => 0 accepted answers
:: a variable that stands twice in an atom
-- s: relation R from "n.csv" row id entity eid (a: int, b: int);
-- n.csv
id,eid,a,b
r1,x,1,1
r2,y,1,2
-- q: answers (e, v) where R(e, v, v);
>> ask s q
0 currency report 2;
verdict answers;
answer ("x", 1);
completion;
...
>> verify s q p => 0 accepted answers
:: a variable is another one in another disjunct, and may be of another kind
-- s: relation R from "r.csv" row id entity eid (a: int);
-- q: answers () where R(e, x) or R(x, _);
>> ask s q
0 currency report 2;
verdict answers;
answer ();
completion;
...
>> verify s q p => 0 accepted answers
:: words of the grammar are variables where one may stand
-- s
relation R from "r.csv" row id entity eid (a: int);
order R.a: r1 < r3, r2 < r3;
-- q: answers (or) where R(and, or) and or >= 2;
>> ask s q
0 currency report 2;
verdict answers;
answer (3);
completion;
...
>> verify s q p => 0 accepted answers
:: a string is a relation before a parenthesis, and else a constant
-- s: relation R from "r.csv" row id entity eid (a: int);
-- q: answers (e) where "R"(e, _) and "R"(e, _) and "x" = e;
>> ask s q
0 currency report 2;
verdict answers;
answer ("x");
completion;
...
>> verify s q p => 0 accepted answers
-- s
relation Emp from "emp.csv" row id entity eid (status: text, last: text, salary: int, address: text);
rule pay on Emp (s, t): if s.salary > t.salary then t before s in salary;
rule wed on Emp (s, t): if s.status = "married" and t.status = "single" then t before s in status;
rule name on Emp (s, t): if t before s in status then t before s in last;
rule move on Emp (s, t): if t before s in salary then t before s in address;
-- q: answers (s) where Emp(e, s, l, p, a) and p < 60 or Emp(e, s, l, p, a) and l = "Dupont" and a > "6";
>> ask s q
0 currency report 2;
verdict answers;
answer ("married");
completion;
...
>> verify s q p => 0 accepted answers
:: the budget is not known, but that it is one of two
-- s 5
rule move on Emp (s, t): if t before s in salary then t before s in address;
relation Dept from "dept.csv" row id entity eid (mgr: text, budget: int);
copy c into Dept (mgr) from Emp (last): d1 from s1, d2 from s3;
-- q: answers (b) where Dept(d, _, b);
>> ask s q
0 currency report 2;
verdict answers;
completion;
...
-- s 5
rule move on Emp (s, t): if t before s in salary then t before s in address;
relation Dept from "dept.csv" row id entity eid (mgr: text, budget: int);
copy c into Dept (mgr) from Emp (last): d1 from s1, d2 from s3;
>> verify s q p => 0 accepted answers
-- s 5
rule move on Emp (s, t): if t before s in salary then t before s in address;
relation Dept from "dept.csv" row id entity eid (mgr: text, budget: int);
copy c into Dept (mgr) from Emp (last): d1 from s1, d2 from s3;
-- q: answers (d) where Dept(d, m, b) and Emp(e, _, m, _, _) and b >= 6000;
>> ask s q
0 currency report 2;
verdict answers;
answer ("rd");
completion;
...
-- s 5
rule move on Emp (s, t): if t before s in salary then t before s in address;
relation Dept from "dept.csv" row id entity eid (mgr: text, budget: int);
copy c into Dept (mgr) from Emp (last): d1 from s1, d2 from s3;
>> verify s q p => 0 accepted answers
-- s 5
rule move on Emp (s, t): if t before s in salary then t before s in address;
relation Dept from "dept.csv" row id entity eid (mgr: text, budget: int);
copy c into Dept (mgr) from Emp (last): d1 from s1, d2 from s3;
-- q: answers (d) where Dept(d, m, b) and Emp(e, _, m, _, _) and b > 6000;
>> ask s q
0 currency report 2;
verdict answers;
completion;
...
-- s 5
rule move on Emp (s, t): if t before s in salary then t before s in address;
relation Dept from "dept.csv" row id entity eid (mgr: text, budget: int);
copy c into Dept (mgr) from Emp (last): d1 from s1, d2 from s3;
>> verify s q p => 0 accepted answers

== matches take the budget
:: a match of each of the three values is needed, and each takes one, but for that of the first completion
-- s: relation R from "r.csv" row id entity eid (a: int);
-- r.csv
id,eid,a
r1,x,1
r2,x,2
r3,x,3
-- q: answers () where R(e, x) and x >= 1;
>> ask s q --budget 1
3 currency report 2;
verdict undecided 1;
log;
statement before 1 1 1 2;
statement before 1 1 1 3;
statement before 1 1 2 3;
statement top 1 1 1;
statement top 1 1 2;
statement top 1 1 3;
statement last 1 1 1;
statement last 1 1 2;
statement last 1 1 3;
statement answer ();
axiom above 1 1 1 2: -4 -1;
axiom above 1 1 1 3: -4 -2;
axiom top 1 1 1: 4 1 2;
axiom last 1 1 1: -4 7;
axiom value 1 1 1: -7 4;
axiom above 1 1 2 1: -5 1;
axiom above 1 1 2 3: -5 -3;
axiom top 1 1 2: 5 -1 3;
axiom last 1 1 2: -5 8;
axiom value 1 1 2: -8 5;
axiom above 1 1 3 1: -6 2;
axiom above 1 1 3 2: -6 3;
axiom top 1 1 3: 6 -2 -3;
axiom last 1 1 3: -6 9;
axiom value 1 1 3: -9 6;
axiom match 1 1 ("x", 1): 10 -7;
axiom transitive 1 1 1 2 3: -1 -3 2;
axiom transitive 1 1 3 2 1: 3 1 -2;
derive 4 1 6 by 3 18 13;
derive -1 5 6 by 8 17 13;
derive 4 5 6 by 19 20;
derive 7 8 9 by 4 9 14 21;
demand match 1 1 ("x", 3): 10 -9;
end;
:: 3 to the number of variables: three orders, three rows that are last, three values and an answer
>> ask s q --budget 59049
0 currency report 2;
verdict answers;
answer ();
completion;
ranking R.a of x: r3 < r2 < r1;
log;
statement before 1 1 1 2;
statement before 1 1 1 3;
statement before 1 1 2 3;
statement top 1 1 1;
statement top 1 1 2;
statement top 1 1 3;
statement last 1 1 1;
statement last 1 1 2;
statement last 1 1 3;
statement answer ();
axiom top 1 1 1: 4 1 2;
axiom last 1 1 1: -4 7;
axiom top 1 1 2: 5 -1 3;
axiom last 1 1 2: -5 8;
axiom top 1 1 3: 6 -2 -3;
axiom last 1 1 3: -6 9;
axiom match 1 1 ("x", 1): 10 -7;
axiom transitive 1 1 1 2 3: -1 -3 2;
axiom transitive 1 1 3 2 1: 3 1 -2;
derive 4 1 6 by 1 9 5;
derive -1 5 6 by 3 8 5;
derive 4 5 6 by 10 11;
derive 7 8 9 by 2 4 6 12;
demand match 1 1 ("x", 3): 10 -9;
demand match 1 1 ("x", 2): 10 -8;
derive 10 by 15 14 7 13;
end;

== queries are limited
-- s: relation R from "r.csv" row id entity eid (a: int);
-- r.csv
id,eid,a
r1,x,1
r2,x,2
r3,x,3
-- q
answers () where R(e, _) and R(e2, _) and R(e3, _) and R(e4, _) and R(e5, _) and R(e6, _) and R(e7, _) and R(e8, _);
>> ask s q
0 currency report 2;
verdict answers;
answer ();
completion;
...
>> verify s q p => 0 accepted answers
-- q
answers () where R(e, _) and R(e2, _) and R(e3, _) and R(e4, _) and R(e5, _) and R(e6, _) and R(e7, _) and R(e8, _) and R(e9, _);
>> ask s q => 6 limit 12
-- q
answers () where R(e, _) and R(f, _) or R(e, _) and R(e2, _) and R(e3, _) and R(e4, _) and R(e5, _) and R(e6, _) and R(e7, _) and R(e8, _);
>> ask s q
0 currency report 2;
verdict answers;
answer ();
completion;
...
>> verify s q p => 0 accepted answers
-- q
answers () where R(e, _) or R(e, _) and R(e2, _) and R(e3, _) and R(e4, _) and R(e5, _) and R(e6, _) and R(e7, _) and R(e8, _) and R(e9, _);
>> ask s q => 6 limit 12
-- q
answers () where R(e, _) or R(e2, _) or R(e3, _) or R(e4, _) or R(e5, _) or R(e6, _) or R(e7, _) or R(e8, _) or R(e9, _) or R(e10, _) or R(e11, _) or R(e12, _) or R(e13, _) or R(e14, _) or R(e15, _) or R(e16, _);
>> ask s q
0 currency report 2;
verdict answers;
answer ();
completion;
...
>> verify s q p => 0 accepted answers
-- q
answers () where R(e, _) or R(e2, _) or R(e3, _) or R(e4, _) or R(e5, _) or R(e6, _) or R(e7, _) or R(e8, _) or R(e9, _) or R(e10, _) or R(e11, _) or R(e12, _) or R(e13, _) or R(e14, _) or R(e15, _) or R(e16, _) or R(e17, _);
>> ask s q => 6 limit 12
-- q
answers () where R(e, x) and x > 0 and x < 29 and x < 39 and x < 49 and x < 59 and x < 69 and x < 79 and x < 89 and x < 99 and x < 109 and x < 119 and x < 129 and x < 139 and x < 149 and x < 159 and x < 169;
>> ask s q
0 currency report 2;
verdict answers;
answer ();
completion;
...
>> verify s q p => 0 accepted answers
-- q
answers () where R(e, x) and x > 0 and x < 29 and x < 39 and x < 49 and x < 59 and x < 69 and x < 79 and x < 89 and x < 99 and x < 109 and x < 119 and x < 129 and x < 139 and x < 149 and x < 159 and x < 169 and x < 179;
>> ask s q => 6 limit 12
-- q
answers () where R(e, x) and x > 0 or R(e, x) and x > 0 and x < 29 and x < 39 and x < 49 and x < 59 and x < 69 and x < 79 and x < 89 and x < 99 and x < 109 and x < 119 and x < 129 and x < 139 and x < 149 and x < 159 and x < 169;
>> ask s q
0 currency report 2;
verdict answers;
answer ();
completion;
...
>> verify s q p => 0 accepted answers
-- q
answers () where R(e, _) or R(e, x) and x > 0 and x < 29 and x < 39 and x < 49 and x < 59 and x < 69 and x < 79 and x < 89 and x < 99 and x < 109 and x < 119 and x < 129 and x < 139 and x < 149 and x < 159 and x < 169 and x < 179;
>> ask s q => 6 limit 12

== queries are refused
-- s: relation R from "r.csv" row id entity eid (a: int);
-- r.csv
id,eid,a
r1,x,1
r2,x,2
r3,x,3
-- q: answers (x) where R(e, _);
>> ask s q => 5 error E15 q 1
-- q
answers (x) where R(e, x)
or R(x, _);
>> ask s q => 5 error E05 q 2
-- q: answers (x) where R(e, x) and y = 1;
>> ask s q => 5 error E15 q 1
-- q: answers (x) where R(e, x) and x = "a";
>> ask s q => 5 error E05 q 1
-- q: answers (x) where x = 1 and R(e, x);
>> ask s q => 5 error E02 q 1
-- q
answers (x) where
Q(e, x);
>> ask s q => 5 error E03 q 2
-- q: answers (x) where R(e, x, x);
>> ask s q => 5 error E05 q 1
-- q: answers (x) where R(1, x);
>> ask s q => 5 error E05 q 1
:: constants and variables of another kind than their places, and atoms with too few places
-- q
answers () where R(e, 1) and
R(e, "1");
>> ask s q => 5 error E05 q 2
-- q
answers () where R(e, x) and
R(x, _);
>> ask s q => 5 error E05 q 2
-- q
answers (e) where R(e,
e);
>> ask s q => 5 error E05 q 2
-- q
answers () where R(e, _) or
R(e);
>> ask s q => 5 error E05 q 2
-- q
answers () where R(e, x) and
1 = "a";
>> ask s q => 5 error E05 q 2
-- q 2
e =
1;
>> ask s q => 5 error E05 q 2
:: variables that stand in no atom: the head goes first
-- q
answers (e,
x) where R(e, _);
>> ask s q => 5 error E15 q 2
-- q
answers (x) where R(e, x) or
R(e, _);
>> ask s q => 5 error E15 q 1
-- q
answers (z) where R(e, x) and
y = 1;
>> ask s q => 5 error E15 q 1
-- q
answers (x) where R(e, x) and
1 = y;
>> ask s q => 5 error E15 q 2
-- q 2: y = 1 or R(_, x) and R(_, y);
>> ask s q => 5 error E15 q 2
:: each check goes over the whole query before the next
-- q
answers () where R(e, 1, 2) or
Q(e, x);
>> ask s q => 5 error E03 q 2
-- q
answers (z) where R(e, x) and
x = "a";
>> ask s q => 5 error E05 q 2
-- q
answers () where R(e, x) and
x = "a" and
R(e);
>> ask s q => 5 error E05 q 2
-- q 2: x = "a" or
>> ask s q => 5 error E05 q 2
-- q
answers () where R(e, y) and
x = 1 and
R(x, _);
>> ask s q => 5 error E05 q 2
:: a word before a parenthesis is a relation, and a negative is none
-- q: answers () where R(e, x) and 1(e, x);
>> ask s q => 5 error E03 q 1
-- q: answers () where R(e, x) and -1(e, x);
>> ask s q => 5 error E02 q 1
-- q
answers () where R(e, x) and _
= 1;
>> ask s q => 5 error E02 q 2
-- q
answers () where R(e, x) and x
;
>> ask s q => 5 error E02 q 2
-- q
answers () where R(e, x) and x =
;
>> ask s q => 5 error E02 q 2
-- q
answers () where R(e, x) or x
= 1;
>> ask s q => 5 error E02 q 2
-- q: answers () where R(e, 9223372036854775808);
>> ask s q => 5 error E02 q 1
-- q: answers () where R(e, if);
>> ask s q => 5 error E02 q 1
-- q: answers () where R();
>> ask s q => 5 error E02 q 1
-- q: answers (1) where R(e, 1);
>> ask s q => 5 error E02 q 1
-- q: answers (_) where R(_, _);
>> ask s q => 5 error E02 q 1
-- q: answers (x,) where R(e, x);
>> ask s q => 5 error E02 q 1
-- q: answers x where R(e, x);
>> ask s q => 5 error E02 q 1
-- q: answers ();
>> ask s q => 5 error E02 q 1
-- q
answers\
>> ask s q => 5 error E02 q 1

== variables are limited
-- s: relation W from "w.csv" row id entity eid (a: int, b: int, c: int, d: int);
-- w.csv
id,eid,a,b,c,d
w1,x,1,2,3,4
-- q
answers () where W(v0, v1, v2, v3, v4) and W(v5, v6, v7, v8, v9) and W(v10, v11, v12, v13, v14) and W(v15, v16, v17, v18, v19) and W(v20, v21, v22, v23, v24) and W(v25, v26, v27, v28, v29) and W(v30, v31, _, _, _) and W(_, _, _, _, _);
>> ask s q
0 currency report 2;
verdict answers;
answer ();
completion;
...
>> verify s q p => 0 accepted answers
-- q
answers () where W(v0, v1, v2, v3, v4) and W(v5, v6, v7, v8, v9) and W(v10, v11, v12, v13, v14) and W(v15, v16, v17, v18, v19) and W(v20, v21, v22, v23, v24) and W(v25, v26, v27, v28, v29) and W(v30, v31, v32, _, _) and W(_, _, _, _, _);
>> ask s q => 6 limit 12
-- q
answers () where W(v0, v1, v2, v3, v4) and W(v5, v6, v7, v8, v9) and W(v10, v11, v12, v13, v14) and W(v15, v16, v17, v18, v19) and W(v20, v21, v22, v23, v24) and W(v25, v26, v27, v28, v29) and W(v0, v1, v2, v3, v4) and W(v5, v6, v7, v8, v9);
>> ask s q
0 currency report 2;
verdict answers;
answer ();
completion;
...
>> verify s q p => 0 accepted answers
-- q
answers () where W(v0, v1, v2, v3, v4) and W(v5, v6, v7, v8, v9) and W(v10, v11, v12, v13, v14) and W(v15, v16, v17, v18, v19) and W(_, _, _, _, _) and W(_, _, _, _, _) and W(_, _, _, _, _) and W(_, _, _, _, _) or W(w0, w1, w2, w3, w4) and W(w5, w6, w7, w8, w9) and W(w10, w11, w12, w13, w14) and W(w15, w16, w17, w18, w19) and W(_, _, _, _, _) and W(_, _, _, _, _) and W(_, _, _, _, _) and W(_, _, _, _, _);
>> ask s q
0 currency report 2;
verdict answers;
answer ();
completion;
...
:: a variable is counted once
>> verify s q p => 0 accepted answers
-- q
answers () where W(v0, v1, v2, v3, v4) and W(v5, v6, v7, v8, v9) and W(v10, v11, v12, v13, v14) and W(v15, v16, v17, v18, v19) and W(_, _, _, _, _) and W(_, _, _, _, _) and W(_, _, _, _, _) and W(_, _, _, _, _) or W(w0, w1, w2, w3, w4) and W(w5, w6, w7, w8, w9) and W(w10, w11, w12, w13, w14) and W(w15, w16, w17, w18, w19) and W(w20, w21, w22, w23, w24) and W(w25, w26, w27, w28, w29) and W(w30, w31, w32, _, _) and W(_, _, _, _, _);
>> ask s q => 6 limit 12
-- q
answers () where W(v0, v1, v2, v3, v4) and W(v5, v6, v7, v8, v9) and W(v10, v11, v12, v13, v14) and W(v15, v16, v17, v18, v19) and W(v20, v21, v22, v23, v24) and W(v25, v26, v27, v28, v29) and W(v30, v31, _, _, _) and W(_, _, _, _, _) and
z = 1;
>> ask s q => 5 error E15 q 2
"#;

#[test]
fn queries_are_answered(rt: HostRuntime) -> Result<(), Fail> {
    expect_played(&rt, ROWS)
}
