//! That some row of an entity is the last: what is certain by every case of it, within a budget of one unit.

use crate::documents::expect_played;
use std::test::Fail;

const ROWS: &str = r#"
== two free rows of one value: that one of them is last is derived by the goal alone
-- s: relation R from "r.csv" row id entity eid (a: text);
-- r.csv
id,eid,a
*1-2 r%,e,x
-- q: same R;
>> ask s q --budget 1
0 currency report 2;
verdict same;
current R e ("x");
...
>> verify s q p => 0 accepted same

== three, with what is derived of them
-- s: relation R from "r.csv" row id entity eid (a: text);
-- r.csv
id,eid,a
*1-3 r%,e,x
-- q: same R;
>> ask s q --budget 1
0 currency report 2;
verdict same;
current R e ("x");
completion;
ranking R.a of e: r3 < r2 < r1;
log;
statement before 1 1 1 2;
statement before 1 1 1 3;
statement before 1 1 2 3;
statement top 1 1 1;
statement top 1 1 2;
statement top 1 1 3;
statement last 1 1 1;
axiom top 1 1 1: 4 1 2;
axiom last 1 1 1: -4 7;
axiom top 1 1 2: 5 -1 3;
axiom last 1 1 2: -5 7;
axiom top 1 1 3: 6 -2 -3;
axiom last 1 1 3: -6 7;
axiom transitive 1 1 1 2 3: -1 -3 2;
axiom transitive 1 1 3 2 1: 3 1 -2;
derive 4 1 6 by 1 8 5;
derive -1 5 6 by 3 7 5;
derive 4 5 6 by 9 10;
derive 7 by 2 4 6 11;
end;
>> verify s q p => 0 accepted same

== eight
-- s: relation R from "r.csv" row id entity eid (a: text);
-- r.csv
id,eid,a
*1-8 r%,e,x
-- q: same R;
>> ask s q --budget 1
0 currency report 2;
verdict same;
current R e ("x");
...
>> verify s q p => 0 accepted same
-- q: answers (e, v) where R(e, v);
>> ask s q --budget 1
0 currency report 2;
verdict answers;
answer ("e", "x");
...
>> verify s q p => 0 accepted answers

== sixty-four, beside five entities of eight
-- s: relation R from "r.csv" row id entity eid (a: text);
-- r.csv
id,eid,a
*1-64 r%,e,x
*1-5 {1-7 s%_#,f%,y|}s%_8,f%,y
-- q: same R;
>> ask s q --budget 1 --verdict
0 verdict same;
current R e ("x");
current R f1 ("y");
current R f2 ("y");
current R f3 ("y");
current R f4 ("y");
current R f5 ("y");
>> ask s q --budget 1
0 currency report 2;
verdict same;
current R e ("x");
...
>> verify s q p => 0 accepted same

== sixty-four, of which forty are known to stand below another
-- s
relation R from "r.csv" row id entity eid (a: text);
orders R from "o.csv";
-- r.csv
id,eid,a
*1-64 r%,e,x
-- o.csv
attribute,earlier,later
*1-40 a,r%,r@
-- q: same R;
>> ask s q --budget 1
0 currency report 2;
verdict same;
current R e ("x");
...
>> verify s q p => 0 accepted same

== six, of which four are known to stand below others: these are left out by one step for each of the two that are left
-- s
relation R from "r.csv" row id entity eid (a: text);
order R.a: r1 < r3, r3 < r5, r2 < r5, r4 < r6;
-- r.csv
id,eid,a
r1,e,w
r2,e,v
r3,e,u
r4,e,w
r5,e,x
r6,e,x
-- q: same R;
>> ask s q --budget 1
0 currency report 2;
verdict same;
current R e ("x");
completion;
ranking R.a of e: r4 < r6 < r2 < r1 < r3 < r5;
log;
statement before 1 1 1 3;
statement before 1 1 1 5;
statement before 1 1 1 6;
statement before 1 1 2 5;
statement before 1 1 2 6;
statement before 1 1 3 5;
statement before 1 1 3 6;
statement before 1 1 4 5;
statement before 1 1 4 6;
statement before 1 1 5 6;
statement top 1 1 1;
statement top 1 1 2;
statement top 1 1 3;
statement top 1 1 4;
statement top 1 1 5;
statement top 1 1 6;
statement last 1 1 1;
statement last 1 1 2;
statement last 1 1 3;
statement last 1 1 5;
axiom given 1 1 1 3: 1;
axiom given 1 1 2 5: 4;
axiom given 1 1 3 5: 6;
axiom given 1 1 4 6: 9;
axiom above 1 1 1 3: -11 -1;
axiom last 1 1 1: -11 17;
axiom value 1 1 1: -17 11 14;
axiom above 1 1 2 5: -12 -4;
axiom last 1 1 2: -12 18;
axiom value 1 1 2: -18 12;
axiom above 1 1 3 5: -13 -6;
axiom last 1 1 3: -13 19;
axiom value 1 1 3: -19 13;
axiom above 1 1 4 6: -14 -9;
axiom last 1 1 4: -14 17;
axiom top 1 1 5: 15 -2 -4 -6 -8 10;
axiom last 1 1 5: -15 20;
axiom top 1 1 6: 16 -3 -5 -7 -9 -10;
axiom last 1 1 6: -16 20;
axiom transitive 1 1 1 3 5: -1 -6 2;
axiom transitive 1 1 1 3 6: -1 -7 3;
axiom transitive 1 1 2 5 6: -4 -10 5;
axiom transitive 1 1 3 5 6: -6 -10 7;
axiom transitive 1 1 6 5 4: 10 8 -9;
derive 15 10 14 13 12 11 by 4 24 3 2 1 20 16;
derive -10 16 14 13 12 11 by 4 3 23 2 22 1 21 18;
derive 15 16 14 13 12 11 by 25 26;
derive 20 17 19 18 by 17 19 15 12 9 6 27;
derive 20 by 1 2 3 4 5 8 10 11 13 14 7 28;
end;
>> verify s q p => 0 accepted same

== five, of which a rule sets two below the others
-- s
relation R from "r.csv" row id entity eid (a: text, b: int);
rule later on R (s, t): if s.b < t.b then s before t in a;
-- r.csv
id,eid,a,b
r1,e,w,1
r2,e,x,3
r3,e,v,2
r4,e,x,3
r5,e,x,3
-- q: answers (v) where R(_, v, _);
>> ask s q --budget 1
0 currency report 2;
verdict answers;
answer ("x");
...
>> verify s q p => 0 accepted answers

== three, of which one stands below another as it was copied
-- s
relation S from "s.csv" row id entity eid (b: text);
relation R from "r.csv" row id entity eid (a: text);
order S.b: s1 < s2;
copy c into R (a) from S (b): r1 from s1, r2 from s2;
-- s.csv
id,eid,b
s1,p,w
s2,p,x
-- r.csv
id,eid,a
r1,e,w
r2,e,x
r3,e,x
-- q: same R;
>> ask s q --budget 1
0 currency report 2;
verdict same;
current R e ("x");
...
>> verify s q p => 0 accepted same

== of two values neither is certain, and one of the two is
-- s: relation R from "r.csv" row id entity eid (a: text);
-- r.csv
id,eid,a
*1-4 r%,e,x
*5-8 r%,e,y
-- q: same R;
>> ask s q --budget 1
0 currency report 2;
verdict not same R.a of e;
completion;
ranking R.a of e: r8 < r7 < r6 < r5 < r4 < r3 < r2 < r1;
completion;
ranking R.a of e: r7 < r6 < r5 < r4 < r3 < r2 < r1 < r8;
end;
-- q: answers (e) where R(e, "x");
>> ask s q --budget 1 --verdict
0 verdict answers;
-- q: answers (e) where R(e, "x") or R(e, "y");
>> ask s q --budget 1
0 currency report 2;
verdict answers;
answer ("e");
...
>> verify s q p => 0 accepted answers

== two attributes, of which one has one value
-- s: relation R from "r.csv" row id entity eid (a: text, b: text);
-- r.csv
id,eid,a,b
*1-5 r%,e,x,x
-- q: answers (e, v) where R(e, v, w) and v = w;
>> ask s q --budget 1
0 currency report 2;
verdict answers;
answer ("e", "x");
...
>> verify s q p => 0 accepted answers
-- r.csv
id,eid,a,b
*1-4 r%,e,x,x
*5-5 r%,e,x,y
>> ask s q --budget 1
0 currency report 2;
verdict answers;
completion;
ranking R.a of e: r5 < r4 < r3 < r2 < r1;
ranking R.b of e: r5 < r4 < r3 < r2 < r1;
completion;
ranking R.b of e: r4 < r3 < r2 < r1 < r5;
end;

== a query that no candidate answers is decided with the first completion
-- s: relation R from "r.csv" row id entity eid (a: text);
-- r.csv
id,eid,a
*1-8 r%,e,x
-- q: answers (e) where R(e, "z");
>> ask s q --budget 1
0 currency report 2;
verdict answers;
completion;
ranking R.a of e: r8 < r7 < r6 < r5 < r4 < r3 < r2 < r1;
end;

== a city with five thousand witnesses
-- s: relation R from "r.csv" row id entity eid (a: text);
-- r.csv
id,eid,a
*1-5000 r%,e%,x
-- q: answers (city) where R(e, city);
>> ask s q --budget 1 --verdict
0 verdict answers;
answer ("x");
"#;

#[test]
fn some_row_is_last(rt: HostRuntime) -> Result<(), Fail> {
    expect_played(&rt, ROWS)
}
