//! What may hold: each candidate of a question with a consistent completion that has it, or that none has it.

use crate::documents::expect_played;
use std::test::Fail;

const ROWS: &str = r#"
== every value that is current in some consistent completion
-- s
relation R from "r.csv" row id entity eid (a: int);
order R.a: r1 < r3;
-- r.csv
id,eid,a
r1,x,1
r2,x,2
r3,x,3
-- q: same R;
>> possible s q --brief
0 currency possible brief 1;
completion;
ranking R.a of x: r2 < r1 < r3;
completion;
ranking R.a of x: r1 < r3 < r2;
impossible value R.a of x = 1;
possible value R.a of x = 2 by 2;
possible value R.a of x = 3 by 1;
end;
>> possible s q
0 currency possible 1;
completion;
ranking R.a of x: r2 < r1 < r3;
completion;
ranking R.a of x: r1 < r3 < r2;
impossible value R.a of x = 1;
question answers () where R ("x", v) and v != 1;
currency report 2;
verdict answers;
answer ();
completion;
ranking R.a of x: r2 < r1 < r3;
log;
statement before 1 1 1 2;
statement before 1 1 1 3;
statement before 1 1 2 3;
statement top 1 1 1;
statement top 1 1 2;
statement top 1 1 3;
statement last 1 1 1;
statement last 1 1 2;
statement last 1 1 3;
statement answer ();
axiom given 1 1 1 3: 2;
axiom above 1 1 1 3: -4 -2;
axiom last 1 1 1: -4 7;
axiom value 1 1 1: -7 4;
axiom top 1 1 2: 5 -1 3;
axiom last 1 1 2: -5 8;
axiom top 1 1 3: 6 -2 -3;
axiom last 1 1 3: -6 9;
axiom match 1 1 (3): 10 -9;
axiom transitive 1 1 3 2 1: 3 1 -2;
derive 5 3 4 by 1 10 5;
derive -3 6 4 by 1 7;
derive 5 6 4 by 11 12;
derive 8 9 7 by 6 8 3 13;
demand match 1 1 (2): 10 -8;
derive 10 by 1 2 4 15 9 14;
end;
possible value R.a of x = 2 by 2;
possible value R.a of x = 3 by 1;
end;
:: A value is a candidate once, and a pair as often as it is asked for.
-- r.csv 4: r3,x,2
>> possible s q --brief
0 currency possible brief 1;
completion;
ranking R.a of x: r2 < r1 < r3;
impossible value R.a of x = 1;
possible value R.a of x = 2 by 1;
end;
-- q: certain R.a: r1 < r3, r2 < r1, r3 < r1, r1 < r3;
>> possible s q --brief
0 currency possible brief 1;
completion;
ranking R.a of x: r2 < r1 < r3;
possible before R.a: r1 < r3 by 1;
possible before R.a: r2 < r1 by 1;
impossible before R.a: r3 < r1;
possible before R.a: r1 < r3 by 1;
end;
-- q: certain R.a: r3 < r1;
>> possible s q
0 currency possible 1;
completion;
ranking R.a of x: r2 < r1 < r3;
impossible before R.a: r3 < r1;
question certain R.a: r1 < r3;
currency report 2;
verdict certain;
completion;
ranking R.a of x: r2 < r1 < r3;
log;
statement before 1 1 1 3;
axiom given 1 1 1 3: 1;
end;
end;
:: Of whether there is a consistent completion nothing else is told.
-- q: consistent;
>> possible s q
0 currency possible 1;
completion;
ranking R.a of x: r2 < r1 < r3;
end;
-- q: consistent;
>> possible s q --brief
0 currency possible brief 1;
completion;
ranking R.a of x: r2 < r1 < r3;
end;

== a value that neither a completion nor its opposite has
-- s
relation R from "r.csv" row id entity eid (a: int, b: int);
rule one on R (s, t): if s.b = 1 and s before t in b then s before t in a;
-- r.csv
id,eid,a,b
r1,x,1,1
r2,x,2,2
r3,x,3,3
-- q: same R;
>> possible s q --brief
0 currency possible brief 1;
completion;
ranking R.a of x: r3 < r2 < r1;
ranking R.b of x: r3 < r2 < r1;
completion;
ranking R.a of x: r2 < r1 < r3;
completion;
ranking R.a of x: r3 < r1 < r2;
completion;
ranking R.a of x: r3 < r1 < r2;
ranking R.b of x: r3 < r1 < r2;
completion;
ranking R.a of x: r2 < r1 < r3;
ranking R.b of x: r2 < r1 < r3;
possible value R.a of x = 1 by 1;
possible value R.a of x = 2 by 3;
possible value R.a of x = 3 by 2;
possible value R.b of x = 1 by 1;
possible value R.b of x = 2 by 4;
possible value R.b of x = 3 by 5;
end;
:: Where the first row comes before the second in b, it is the last of neither.
-- s 2
rule one on R (s, t): if s.b = 1 and s before t in b then s before t in a;
rule two on R (s, t): if s.b = 1 and t.b = 2 then s before t in b;
-- q: same R;
>> possible s q --brief
0 currency possible brief 1;
completion;
ranking R.a of x: r3 < r1 < r2;
ranking R.b of x: r3 < r1 < r2;
completion;
ranking R.a of x: r1 < r2 < r3;
completion;
ranking R.a of x: r1 < r3 < r2;
ranking R.b of x: r1 < r2 < r3;
impossible value R.a of x = 1;
possible value R.a of x = 2 by 1;
possible value R.a of x = 3 by 2;
impossible value R.b of x = 1;
possible value R.b of x = 2 by 1;
possible value R.b of x = 3 by 3;
end;

== two rules that hold each other's opposite off
-- s
relation R from "r.csv" row id entity eid (a: int, b: int);
rule up on R (s, t, u): if s before t in a and t before u in a and s.a < t.a and t.a < u.a then false;
rule down on R (s, t, u): if s before t in a and t before u in a and s.a > t.a and t.a > u.a then false;
rule follow on R (s, t): if s before t in a then s before t in b;
-- r.csv
id,eid,a,b
r1,x,1,3
r2,x,2,2
r3,x,3,1
-- q: same R;
>> possible s q --brief
0 currency possible brief 1;
completion;
ranking R.a of x: r2 < r3 < r1;
ranking R.b of x: r2 < r3 < r1;
completion;
ranking R.a of x: r2 < r1 < r3;
ranking R.b of x: r2 < r1 < r3;
completion;
ranking R.a of x: r3 < r1 < r2;
ranking R.b of x: r3 < r1 < r2;
possible value R.a of x = 1 by 1;
possible value R.a of x = 2 by 3;
possible value R.a of x = 3 by 2;
possible value R.b of x = 1 by 2;
possible value R.b of x = 2 by 3;
possible value R.b of x = 3 by 1;
end;

== impossible by cases alone
-- s
relation R from "r.csv" row id entity eid (a: int, b: int);
rule one on R (s, t): if s.a = 1 and t.a = 2 and s before t in a then s before t in b;
rule two on R (s, t): if s.a = 1 and t.a = 2 and t before s in a then s before t in b;
-- r.csv
id,eid,a,b
r1,x,1,1
r2,x,2,2
-- q: same R;
>> possible s q
0 currency possible 1;
completion;
ranking R.a of x: r2 < r1;
ranking R.b of x: r1 < r2;
completion;
ranking R.a of x: r1 < r2;
possible value R.a of x = 1 by 1;
possible value R.a of x = 2 by 2;
impossible value R.b of x = 1;
question answers () where R ("x", _, v) and v != 1;
currency report 2;
verdict answers;
answer ();
completion;
ranking R.a of x: r2 < r1;
ranking R.b of x: r1 < r2;
log;
statement before 1 1 1 2;
statement before 1 2 1 2;
statement top 1 2 2;
statement last 1 2 2;
statement answer ();
axiom rule 1 1 2: -1 2;
axiom rule 2 1 2: 1 2;
axiom top 1 2 2: 3 -2;
axiom last 1 2 2: -3 4;
axiom match 1 1 (2): 5 -4;
derive 5 by 5 4 3 2 1;
end;
possible value R.b of x = 2 by 1;
end;

== matches
-- s: relation R from "r.csv" row id entity eid (a: int);
-- r.csv
id,eid,a
r1,x,1
r2,x,2
-- q: answers (v) where R(e, v);
>> possible s q
0 currency possible 1;
completion;
ranking R.a of x: r2 < r1;
completion;
ranking R.a of x: r1 < r2;
possible match 1 1 ("x", 1) by 1;
possible match 1 1 ("x", 2) by 2;
end;
:: A match that looks at no value is possible wherever there is a completion.
-- q: answers () where R(e, _);
>> possible s q --brief
0 currency possible brief 1;
completion;
ranking R.a of x: r2 < r1;
possible match 1 1 ("x") by 1;
end;
-- q: answers (v) where R(e, v) and v > 2;
>> possible s q --brief
0 currency possible brief 1;
completion;
ranking R.a of x: r2 < r1;
end;

== matches over two atoms of one entity, and of two
-- s
relation R from "r.csv" row id entity eid (a: int, b: int);
relation S from "s.csv" row id entity eid (c: int);
rule follow on R (s, t): if s before t in a then s before t in b;
copy kept into S (c) from R (a): s1 from r1, s2 from r2;
-- r.csv
id,eid,a,b
r1,x,1,1
r2,x,2,2
p1,z,2,1
-- s.csv
id,eid,c
s1,y,1
s2,y,2
-- q: answers (e) where R(e, v, _) and R(e, _, w);
>> possible s q --brief
0 currency possible brief 1;
completion;
ranking R.a of x: r2 < r1;
ranking R.a of z: p1;
ranking R.b of x: r2 < r1;
ranking R.b of z: p1;
ranking S.c of y: s2 < s1;
completion;
ranking R.a of x: r1 < r2;
ranking R.b of x: r1 < r2;
ranking S.c of y: s1 < s2;
possible match 1 1 1 ("x", 1, 1) by 1;
impossible match 1 1 1 ("x", 1, 2);
impossible match 1 1 1 ("x", 2, 1);
possible match 1 1 1 ("x", 2, 2) by 2;
possible match 1 2 2 ("z", 2, 1) by 1;
end;
-- q: answers (v) where R("x", v, _) and S(_, w) and v != w;
>> possible s q
0 currency possible 1;
completion;
ranking R.a of x: r2 < r1;
ranking R.a of z: p1;
ranking R.b of x: r2 < r1;
ranking R.b of z: p1;
ranking S.c of y: s2 < s1;
impossible match 1 1 1 (1, 2);
question answers () where R ("x", v, _) and v != 1 or S ("y", v) and v != 2;
currency report 2;
verdict answers;
answer ();
completion;
ranking R.a of x: r2 < r1;
ranking R.a of z: p1;
ranking R.b of x: r2 < r1;
ranking R.b of z: p1;
ranking S.c of y: s2 < s1;
log;
statement before 1 1 1 2;
statement before 2 1 1 2;
statement top 1 1 2;
statement top 2 1 1;
statement last 1 1 2;
statement last 2 1 1;
statement answer ();
axiom copy 1 1 2 1: 1 -2;
axiom top 1 1 2: 3 -1;
axiom last 1 1 2: -3 5;
axiom top 2 1 1: 4 2;
axiom last 2 1 1: -4 6;
axiom match 2 1 (1): 7 -6;
demand match 1 1 (2): 7 -5;
derive 7 by 7 6 3 5 2 4 1;
end;
impossible match 1 1 1 (2, 1);
question answers () where R ("x", v, _) and v != 2 or S ("y", v) and v != 1;
currency report 2;
verdict answers;
answer ();
completion;
ranking R.a of x: r2 < r1;
ranking R.a of z: p1;
ranking R.b of x: r2 < r1;
ranking R.b of z: p1;
ranking S.c of y: s2 < s1;
log;
statement before 1 1 1 2;
statement before 2 1 1 2;
statement top 1 1 1;
statement top 2 1 2;
statement last 1 1 1;
statement last 2 1 2;
statement answer ();
axiom copy 1 1 1 2: -1 2;
axiom top 1 1 1: 3 1;
axiom last 1 1 1: -3 5;
axiom top 2 1 2: 4 -2;
axiom last 2 1 2: -4 6;
axiom match 1 1 (1): 7 -5;
demand match 2 1 (2): 7 -6;
derive 7 by 7 6 5 3 4 2 1;
end;
end;
-- q: answers () where R(e, v, _) and S(f, v) or R("x", 1, 2);
>> possible s q --brief
0 currency possible brief 1;
completion;
ranking R.a of x: r2 < r1;
ranking R.a of z: p1;
ranking R.b of x: r2 < r1;
ranking R.b of z: p1;
ranking S.c of y: s2 < s1;
completion;
ranking R.a of x: r1 < r2;
ranking R.b of x: r1 < r2;
ranking S.c of y: s1 < s2;
possible match 1 1 1 ("x", 1, "y") by 1;
possible match 1 1 1 ("x", 2, "y") by 2;
possible match 1 2 1 ("z", 2, "y") by 2;
impossible match 2 1 ();
end;

== where there is no consistent completion
-- s
relation R from "r.csv" row id entity eid (a: int);
order R.a: r1 < r2, r2 < r1;
-- r.csv
id,eid,a
r1,x,1
r2,x,2
-- q: same R;
>> possible s q --brief
0 currency brief 2;
verdict inconsistent;
end;
>> possible s q
0 currency report 2;
verdict inconsistent;
log;
statement before 1 1 1 2;
axiom given 1 1 1 2: 1;
axiom given 1 1 2 1: -1;
derive by 1 2;
end;

== where the budget is spent
-- s
relation R from "r.csv" row id entity eid (p: int, q: int, r: int, b: int);
rule n1 on R (s, t): if s.p = 1 and t.p = 2 and s before t in p and s before t in q and s before t in r then s before t in b;
rule n2 on R (s, t): if s.p = 1 and t.p = 2 and s before t in p and s before t in q and t before s in r then s before t in b;
rule n3 on R (s, t): if s.p = 1 and t.p = 2 and s before t in p and t before s in q and s before t in r then s before t in b;
rule n4 on R (s, t): if s.p = 1 and t.p = 2 and s before t in p and t before s in q and t before s in r then s before t in b;
rule n5 on R (s, t): if s.p = 1 and t.p = 2 and t before s in p and s before t in q and s before t in r then s before t in b;
rule n6 on R (s, t): if s.p = 1 and t.p = 2 and t before s in p and s before t in q and t before s in r then s before t in b;
rule n7 on R (s, t): if s.p = 1 and t.p = 2 and t before s in p and t before s in q and s before t in r then s before t in b;
rule n8 on R (s, t): if s.p = 1 and t.p = 2 and t before s in p and t before s in q and t before s in r then s before t in b;
#
-- r.csv
id,eid,p,q,r,b
r1,x,1,1,1,1
r2,x,2,2,2,2
-- q: same R;
>> possible s q --brief
0 currency possible brief 1;
completion;
ranking R.p of x: r2 < r1;
ranking R.q of x: r2 < r1;
ranking R.r of x: r2 < r1;
ranking R.b of x: r1 < r2;
completion;
ranking R.p of x: r1 < r2;
completion;
ranking R.q of x: r1 < r2;
completion;
ranking R.r of x: r1 < r2;
possible value R.p of x = 1 by 1;
possible value R.p of x = 2 by 2;
possible value R.q of x = 1 by 1;
possible value R.q of x = 2 by 3;
possible value R.r of x = 1 by 1;
possible value R.r of x = 2 by 4;
impossible value R.b of x = 1;
possible value R.b of x = 2 by 1;
end;
>> possible s q --brief --budget 1
3 currency possible 1;
question answers () where R ("x", _, _, _, v) and v != 1;
currency report 2;
verdict undecided 1;
...
>> possible s q --budget 1
3 currency possible 1;
question answers () where R ("x", _, _, _, v) and v != 1;
currency report 2;
verdict undecided 1;
...
-- q: certain R.b: r2 < r1;
>> possible s q --budget 1
3 currency possible 1;
question certain R.b: r1 < r2;
currency report 2;
verdict undecided 1;
log;
statement before 1 1 1 2;
statement before 1 2 1 2;
statement before 1 3 1 2;
statement before 1 4 1 2;
axiom rule 1 1 2: -1 -2 -3 4;
axiom rule 2 1 2: -1 -2 3 4;
axiom rule 3 1 2: -1 2 -3 4;
axiom rule 4 1 2: -1 2 3 4;
axiom rule 5 1 2: 1 -2 -3 4;
axiom rule 6 1 2: 1 -2 3 4;
axiom rule 7 1 2: 1 2 -3 4;
axiom rule 8 1 2: 1 2 3 4;
learn 2 1 4 by 7 8;
end;
end;
-- s 10: rule no on R (s, t): if s.p = 1 and t.p = 2 and s before t in b then false;
-- q: consistent;
>> possible s q --budget 1
3 currency possible 1;
question consistent;
currency report 2;
verdict undecided 1;
log;
statement before 1 1 1 2;
statement before 1 2 1 2;
statement before 1 3 1 2;
statement before 1 4 1 2;
axiom rule 1 1 2: -1 -2 -3 4;
axiom rule 2 1 2: -1 -2 3 4;
axiom rule 3 1 2: -1 2 -3 4;
axiom rule 4 1 2: -1 2 3 4;
axiom rule 5 1 2: 1 -2 -3 4;
axiom rule 6 1 2: 1 -2 3 4;
axiom rule 7 1 2: 1 2 -3 4;
axiom rule 8 1 2: 1 2 3 4;
axiom rule 9 1 2: -4;
learn 2 1 by 9 8 7;
end;
end;

== too many matches
-- r.csv
id,a
*0-31 r%,1
-- s: relation R from "r.csv" row id entity id (a: int);
-- q: answers () where R(a, _) and R(b, _) and R(c, _) and R(d, _);
>> possible s q => 6 limit 13
>> possible s q --brief --budget 1 => 6 limit 13

== names and texts
-- s: relation "R S" from "r.csv" row id entity eid ("a b": text);
-- r.csv
id,eid,a b
r1,x y,"say ""so"""
r2,x y,
-- q: same "R S";
>> possible s q --brief
0 currency possible brief 1;
completion;
ranking "R S"."a b" of "x y": r2 < r1;
completion;
ranking "R S"."a b" of "x y": r1 < r2;
possible value "R S"."a b" of "x y" = "" by 2;
possible value "R S"."a b" of "x y" = "say ""so""" by 1;
end;

== what is refused
-- s: relation R from "r.csv" row id entity eid (a: int);
-- r.csv
id,eid,a
r1,x,1
-- q: same S;
>> possible s q => 5 error E03 q 1
-- q: same R;
>> possible s nothing => 7 read fault nothing
>> possible s => 2 words refused
>> possible s q --budget 0 => 2 words refused
>> possible s q 1 => 2 words refused
>> possible s q --brief --brief => 2 words refused
"#;

#[test]
fn what_may_hold_is_told(rt: HostRuntime) -> Result<(), Fail> {
    expect_played(&rt, ROWS)
}
