//! Explanations: the items that suffice for a unit of a verdict, each with a completion that lacks it.

use crate::documents::expect_played;
use std::test::Fail;

const ROWS: &str = r#"
== each given pair of a circle is needed
-- s
relation R from "r.csv" row id entity eid (a: int);
order R.a: r1 < r2, r2 < r3, r3 < r1;
-- r.csv
id,eid,a
r1,x,1
r2,x,2
r3,x,3
-- q: consistent;
>> explain s q 1
0 currency explanation 1;
explains inconsistent;
item given R.a: r1 < r2;
completion;
ranking R.a of x: r2 < r3 < r1;
item given R.a: r2 < r3;
completion;
ranking R.a of x: r3 < r1 < r2;
item given R.a: r3 < r1;
completion;
ranking R.a of x: r1 < r2 < r3;
end;
:: Whatever N is, and whatever is asked.
>> explain s q 4294967295
0 currency explanation 1;
explains inconsistent;
item given R.a: r1 < r2;
completion;
ranking R.a of x: r2 < r3 < r1;
item given R.a: r2 < r3;
completion;
ranking R.a of x: r3 < r1 < r2;
item given R.a: r3 < r1;
completion;
ranking R.a of x: r1 < r2 < r3;
end;
-- q: certain R.a: r1 < r2, r2 < r1;
>> explain s q 2
0 currency explanation 1;
explains inconsistent;
item given R.a: r1 < r2;
completion;
ranking R.a of x: r2 < r3 < r1;
item given R.a: r2 < r3;
completion;
ranking R.a of x: r3 < r1 < r2;
item given R.a: r3 < r1;
completion;
ranking R.a of x: r1 < r2 < r3;
end;
-- q: answers () where R(_, 7);
>> explain s q 9
0 currency explanation 1;
explains inconsistent;
item given R.a: r1 < r2;
completion;
ranking R.a of x: r2 < r3 < r1;
item given R.a: r2 < r3;
completion;
ranking R.a of x: r3 < r1 < r2;
item given R.a: r3 < r1;
completion;
ranking R.a of x: r1 < r2 < r3;
end;
:: One pair less, and there is nothing to explain: the text of ask --brief.
-- s 2: order R.a: r1 < r2, r2 < r3;
-- q: consistent;
>> explain s q 1
0 currency brief 2;
verdict consistent;
completion;
ranking R.a of x: r1 < r2 < r3;
end;
-- s
relation R from "r.csv" row id entity eid (a: int);
order R.a: r1 < r2, r2 < r3;
-- q: certain R.a: r1 < r2, r1 < r3;
:: A given pair explains itself, and two that follow one another their ends.
>> explain s q 1
0 currency explanation 1;
explains 1;
item given R.a: r1 < r2;
completion;
ranking R.a of x: r3 < r2 < r1;
end;
>> explain s q 2
0 currency explanation 1;
explains 2;
item given R.a: r1 < r2;
completion;
ranking R.a of x: r2 < r3 < r1;
item given R.a: r2 < r3;
completion;
ranking R.a of x: r3 < r1 < r2;
end;
>> explain s q 3
0 currency brief 2;
verdict certain;
completion;
ranking R.a of x: r1 < r2 < r3;
end;
:: Options as for ask.
>> explain s q 2 --budget 1
0 currency explanation 1;
explains 2;
item given R.a: r1 < r2;
completion;
ranking R.a of x: r2 < r3 < r1;
item given R.a: r2 < r3;
completion;
ranking R.a of x: r3 < r1 < r2;
end;
>> explain s q 2 --guide 1 => 2 words refused

== why an address is the last one
-- s
relation Emp from "emp.csv" row id entity eid (status: text, last: text, salary: int, address: text);
rule pay on Emp (s, t): if s.salary > t.salary then t before s in salary;
rule wed on Emp (s, t): if s.status = "married" and t.status = "single" then t before s in status;
rule name on Emp (s, t): if t before s in status then t before s in last;
rule move on Emp (s, t): if t before s in salary then t before s in address;
-- emp.csv
id,eid,status,last,salary,address
s1,mary,single,Smith,50,2 Small St
s2,mary,married,Dupont,50,10 Elm Ave
s3,mary,married,Dupont,80,6 Main St
-- q: certain Emp.address: s2 < s3;
>> explain s q 1
0 currency explanation 1;
explains 1;
item rule pay;
completion;
ranking Emp.status of mary: s3 < s2 < s1;
ranking Emp.last of mary: s3 < s2 < s1;
ranking Emp.salary of mary: s3 < s2 < s1;
ranking Emp.address of mary: s3 < s2 < s1;
item rule move;
completion;
ranking Emp.salary of mary: s2 < s1 < s3;
end;
-- q: certain Emp.salary: s1 < s2;
>> explain s q 1
0 currency brief 2;
verdict not certain Emp.salary: s1 < s2;
completion;
ranking Emp.status of mary: s1 < s3 < s2;
ranking Emp.last of mary: s1 < s3 < s2;
ranking Emp.salary of mary: s2 < s1 < s3;
ranking Emp.address of mary: s2 < s1 < s3;
end;
-- q: answers (n, a) where Emp("mary", _, n, _, a);
>> explain s q 1
0 currency explanation 1;
explains 1;
item rule pay;
completion;
ranking Emp.status of mary: s1 < s3 < s2;
ranking Emp.last of mary: s1 < s3 < s2;
ranking Emp.salary of mary: s3 < s2 < s1;
ranking Emp.address of mary: s3 < s2 < s1;
item rule wed;
completion;
ranking Emp.status of mary: s3 < s2 < s1;
ranking Emp.last of mary: s3 < s2 < s1;
ranking Emp.salary of mary: s2 < s1 < s3;
ranking Emp.address of mary: s2 < s1 < s3;
item rule name;
completion;
ranking Emp.last of mary: s3 < s2 < s1;
ranking Emp.salary of mary: s2 < s1 < s3;
ranking Emp.address of mary: s2 < s1 < s3;
item rule move;
completion;
ranking Emp.salary of mary: s2 < s1 < s3;
end;
:: Its places are one after the other: the second is the last name, and there is no fifth.
-- q: same Emp;
>> explain s q 1
0 currency explanation 1;
explains 1;
item rule wed;
completion;
ranking Emp.status of mary: s3 < s2 < s1;
ranking Emp.last of mary: s3 < s2 < s1;
ranking Emp.salary of mary: s3 < s2 < s1;
ranking Emp.address of mary: s3 < s2 < s1;
end;
>> explain s q 2
0 currency explanation 1;
explains 2;
item rule wed;
completion;
ranking Emp.status of mary: s3 < s2 < s1;
ranking Emp.last of mary: s3 < s2 < s1;
ranking Emp.salary of mary: s3 < s2 < s1;
ranking Emp.address of mary: s3 < s2 < s1;
item rule name;
completion;
ranking Emp.status of mary: s1 < s3 < s2;
end;
>> explain s q 3
0 currency explanation 1;
explains 3;
item rule pay;
completion;
ranking Emp.status of mary: s3 < s2 < s1;
ranking Emp.last of mary: s3 < s2 < s1;
ranking Emp.salary of mary: s3 < s2 < s1;
ranking Emp.address of mary: s3 < s2 < s1;
end;
>> explain s q 4
0 currency explanation 1;
explains 4;
item rule pay;
completion;
ranking Emp.status of mary: s3 < s2 < s1;
ranking Emp.last of mary: s3 < s2 < s1;
ranking Emp.salary of mary: s3 < s2 < s1;
ranking Emp.address of mary: s3 < s2 < s1;
item rule move;
completion;
ranking Emp.salary of mary: s2 < s1 < s3;
end;
>> explain s q 5
0 currency brief 2;
verdict same;
current Emp mary ("married", "Dupont", 80, "6 Main St");
completion;
ranking Emp.status of mary: s1 < s3 < s2;
ranking Emp.last of mary: s1 < s3 < s2;
ranking Emp.salary of mary: s2 < s1 < s3;
ranking Emp.address of mary: s2 < s1 < s3;
end;

== of two causes one is told
-- s
relation R from "r.csv" row id entity eid (a: int, b: int);
order R.a: r1 < r2;
rule up on R (s, t): if s.b < t.b then s before t in a;
-- r.csv
id,eid,a,b
r1,x,1,1
r2,x,2,2
-- q: certain R.a: r1 < r2;
>> explain s q 1
0 currency explanation 1;
explains 1;
item rule up;
completion;
ranking R.a of x: r2 < r1;
ranking R.b of x: r2 < r1;
end;

== what follows by a copy alone
-- s
relation R from "r.csv" row id entity eid (a: int);
relation S from "s.csv" row id entity eid (b: int, c: int);
order R.a: r1 < r2;
order S.c: s1 < s2;
copy kept into S (b) from R (a): s1 from r1, s2 from r2, s3 from r1;
-- r.csv
id,eid,a
r1,x,1
r2,x,2
-- s.csv
id,eid,b,c
s1,u,1,0
s2,u,2,0
s3,v,1,0
-- q: certain S.b: s1 < s2;
>> explain s q 1
0 currency explanation 1;
explains 1;
item given R.a: r1 < r2;
completion;
ranking R.a of x: r2 < r1;
ranking S.b of u: s2 < s1;
ranking S.b of v: s3;
ranking S.c of u: s2 < s1;
ranking S.c of v: s3;
item copy kept: s1 from r1;
completion;
ranking R.a of x: r1 < r2;
item copy kept: s2 from r2;
completion;
ranking R.a of x: r1 < r2;
end;

== what holds with no item
-- s: relation R from "r.csv" row id entity eid (b: int);
-- r.csv
id,eid,b
r1,x,1
r2,y,7
r3,y,7
-- q: same R;
>> explain s q 1
0 currency explanation 1;
explains 1;
end;
>> explain s q 2
0 currency explanation 1;
explains 2;
end;
>> explain s q 3
0 currency brief 2;
verdict same;
current R x (1);
current R y (7);
completion;
ranking R.b of x: r1;
ranking R.b of y: r3 < r2;
end;
-- q: answers (e) where R(e, 1);
>> explain s q 1
0 currency explanation 1;
explains 1;
end;
>> explain s q 2
0 currency brief 2;
verdict answers;
answer ("x");
completion;
ranking R.b of x: r1;
ranking R.b of y: r3 < r2;
end;

== an answer by cases over two entities
-- s
relation R from "r.csv" row id entity eid (a: int);
relation S from "s.csv" row id entity eid (b: int);
copy kept into S (b) from R (a): s1 from r1, s2 from r2;
-- r.csv
id,eid,a
r1,x,1
r2,x,2
-- s.csv
id,eid,b
s1,u,1
s2,u,2
-- q: answers () where R("x", 1) or S("u", 2);
>> explain s q 1
0 currency explanation 1;
explains 1;
item copy kept: s1 from r1;
completion;
ranking R.a of x: r1 < r2;
ranking S.b of u: s2 < s1;
item copy kept: s2 from r2;
completion;
end;

== one rule that two entities break
-- s
relation R from "r.csv" row id entity eid (a: int, b: int);
order R.a: r2 < r1, q2 < q1;
rule up on R (s, t): if s.b < t.b then s before t in a;
-- r.csv
id,eid,a,b
r1,x,1,1
r2,x,2,2
q1,y,1,1
q2,y,2,2
-- q: consistent;
>> explain s q 1
0 currency explanation 1;
explains inconsistent;
item given R.a: r2 < r1;
completion;
ranking R.a of x: r1 < r2;
ranking R.a of y: q1 < q2;
ranking R.b of x: r2 < r1;
ranking R.b of y: q2 < q1;
item rule up;
completion;
ranking R.a of x: r2 < r1;
end;

== a rule that nothing meets
-- s
relation R from "r.csv" row id entity eid (a: int);
order R.a: r1 < r2;
rule none on R (s, t): s before t in a;
rule up on R (s, t): if s.a < t.a then s before t in a;
-- r.csv
id,eid,a
r1,x,1
r2,x,2
-- q: consistent;
>> explain s q 1
0 currency explanation 1;
explains inconsistent;
item rule none;
completion;
ranking R.a of x: r2 < r1;
end;

== a budget that is spent
-- s
relation U from "u.csv" row id entity eid (a: int, b: int, c: int);
rule n1 on U (s, t): if s before t in a and s before t in b and s before t in c then false;
rule n2 on U (s, t): if s before t in a and s before t in b and t before s in c then false;
rule n3 on U (s, t): if s before t in a and t before s in b and s before t in c then false;
rule n4 on U (s, t): if t before s in a and s before t in b and s before t in c then false;
-- u.csv
id,eid,a,b,c
r1,x,0,0,0
r2,x,0,0,0
-- q: consistent;
:: On the question itself: all items, and its report.
>> explain s q 1 --budget 1
3 currency explanation 1;
item rule n1;
item rule n2;
item rule n3;
item rule n4;
currency report 2;
verdict undecided 1;
log;
statement before 1 1 1 2;
statement before 1 2 1 2;
statement before 1 3 1 2;
axiom rule 1 1 2: -1 -2 -3;
axiom rule 1 2 1: 1 2 3;
axiom rule 2 1 2: -1 -2 3;
axiom rule 2 2 1: 1 2 -3;
axiom rule 3 1 2: -1 2 -3;
axiom rule 3 2 1: 1 -2 3;
axiom rule 4 1 2: 1 -2 -3;
axiom rule 4 2 1: -1 2 3;
learn 2 1 by 4 2;
end;
>> explain s q 1 --budget 3
0 currency explanation 1;
explains inconsistent;
item rule n1;
completion;
ranking U.a of x: r2 < r1;
ranking U.b of x: r2 < r1;
ranking U.c of x: r2 < r1;
item rule n2;
completion;
ranking U.c of x: r1 < r2;
item rule n3;
completion;
ranking U.b of x: r1 < r2;
item rule n4;
completion;
ranking U.b of x: r1 < r2;
ranking U.c of x: r1 < r2;
end;
:: On what is tried without the given pair, which made the question easy.
-- s
relation U from "u.csv" row id entity eid (a: int, b: int, c: int);
order U.a: r1 < r2;
rule n1 on U (s, t): if s before t in a and s before t in b and s before t in c then false;
rule n2 on U (s, t): if s before t in a and s before t in b and t before s in c then false;
rule n3 on U (s, t): if s before t in a and t before s in b and s before t in c then false;
rule n4 on U (s, t): if t before s in a and s before t in b and s before t in c then false;
>> explain s q 1 --budget 1
3 currency explanation 1;
item rule n1;
item rule n2;
item rule n3;
item rule n4;
currency report 2;
verdict undecided 1;
log;
statement before 1 1 1 2;
statement before 1 2 1 2;
statement before 1 3 1 2;
axiom rule 1 1 2: -1 -2 -3;
axiom rule 1 2 1: 1 2 3;
axiom rule 2 1 2: -1 -2 3;
axiom rule 2 2 1: 1 2 -3;
axiom rule 3 1 2: -1 2 -3;
axiom rule 3 2 1: 1 -2 3;
axiom rule 4 1 2: 1 -2 -3;
axiom rule 4 2 1: -1 2 3;
learn 2 1 by 4 2;
end;
>> explain s q 1 --budget 2
3 currency explanation 1;
item rule n1;
item rule n2;
item rule n3;
item rule n4;
currency report 2;
verdict undecided 2;
log;
statement before 1 1 1 2;
statement before 1 2 1 2;
statement before 1 3 1 2;
axiom rule 1 1 2: -1 -2 -3;
axiom rule 1 2 1: 1 2 3;
axiom rule 2 1 2: -1 -2 3;
axiom rule 2 2 1: 1 2 -3;
axiom rule 3 1 2: -1 2 -3;
axiom rule 3 2 1: 1 -2 3;
axiom rule 4 1 2: 1 -2 -3;
axiom rule 4 2 1: -1 2 3;
learn 2 1 by 4 2;
learn 1 by 9 7 6;
end;

== what is refused before
-- s: relation R from "r.csv" row id entity eid (a: int);
-- r.csv
id,eid,a
r1,x,1
-- q: certain R.a: r1 < r9;
>> explain s q 1 => 5 error E10 q 1
-- q: certain R.a: r1;
>> explain s q 1 => 5 error E02 q 1
-- q: same R;
-- s 1: relation R from "no.csv" row id entity eid (a: int);
>> explain s q 1 => 7 read fault no.csv
-- s 1: order R.a: r1 < r2;
>> explain s q 1 => 5 error E03 s 1
>> ^20 explain s q 1 => 8 currency explanation\
>> !2 explain s q 1 => 7 read fault r.csv
>> explain s nothing 1 => 7 read fault nothing
"#;

#[test]
fn explanations_are_told(rt: HostRuntime) -> Result<(), Fail> {
    expect_played(&rt, ROWS)
}
