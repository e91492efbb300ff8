//! Specifications of several parts: what is decided in one of them, and what is said of all.

use crate::documents::expect_played;
use std::test::Fail;

const ROWS: &str = r#"
== the second of three parts
:: four rules leave no order of its two rows, and the others are free
-- s
relation U from "u.csv" row id entity eid (k: int, a: int, b: int, c: int);
rule n1 on U (s, t): if s.k = 2 and s before t in a and s before t in b and s before t in c then false;
rule n2 on U (s, t): if s.k = 2 and s before t in a and s before t in b and t before s in c then false;
rule n3 on U (s, t): if s.k = 2 and s before t in a and t before s in b and s before t in c then false;
rule n4 on U (s, t): if s.k = 2 and t before s in a and s before t in b and s before t in c then false;
-- u.csv
id,eid,k,a,b,c
p1,p,1,0,0,0
p2,p,1,0,0,0
q1,q,2,0,0,0
q2,q,2,0,0,0
r1,r,3,0,0,0
r2,r,3,0,0,0
-- q: consistent;
>> ask s q
0 currency report 2;
verdict inconsistent;
...
>> verify s q p => 0 accepted inconsistent
>> ask s q --budget 1
3 currency report 2;
verdict undecided 1;
...
>> verify s q p => 0 accepted undecided
-- q: certain U.a: r1 < r2;
>> ask s q
0 currency report 2;
verdict inconsistent;
...
>> verify s q p => 0 accepted inconsistent
:: three of the rules leave some
-- s 5
-- q: consistent;
>> ask s q
0 currency report 2;
verdict consistent;
...
-- s 5
>> verify s q p => 0 accepted consistent

== a pair of the last part, with conflicts in the first
-- s
relation R from "r.csv" row id entity eid (x: int, a: int, c: int, b: int);
rule rises on R (s, t): if s.x < t.x then s before t in x;
rule r1 on R (s, t): if s.x < t.x and s before t in a and s before t in c then s before t in b;
rule r2 on R (s, t): if s.x < t.x and s before t in a and t before s in c then s before t in b;
rule r3 on R (s, t): if s.x < t.x and t before s in a and s before t in c then s before t in b;
rule r4 on R (s, t): if s.x < t.x and t before s in a and t before s in c then s before t in b;
-- r.csv
id,eid,x,a,c,b
p1,p,1,0,0,1
p2,p,2,0,0,2
q1,q,1,0,0,1
w1,w,1,0,0,1
w2,w,2,0,0,2
-- q: certain R.b: w1 < w2;
>> ask s q
0 currency report 2;
verdict certain;
...
>> verify s q p => 0 accepted certain
-- q: certain R.b: p1 < p2, w1 < w2 and R.a: w1 < w2;
>> ask s q --brief
0 currency brief 2;
verdict not certain R.a: w1 < w2;
completion;
...
-- q: same R;
>> ask s q
0 currency report 2;
verdict same;
...
>> verify s q p => 0 accepted same
:: a query that joins two parts, and one whose matches are in three
-- q: answers (v) where R("p", _, _, _, v) and R("w", _, _, _, v);
>> ask s q
0 currency report 2;
verdict answers;
answer (2);
completion;
...
>> verify s q p => 0 accepted answers
-- q: answers () where R("p", x, _, _, _) and R("q", y, _, _, _) and R("w", z, _, _, _) and y < x and x = z;
>> ask s q
0 currency report 2;
verdict answers;
answer ();
completion;
...
>> verify s q p => 0 accepted answers

== answers of one part, and of several
:: what is current of p follows by cases, and u and w are free
-- s
relation R from "r.csv" row id entity eid (x: int, a: int, c: int, b: int);
rule rises on R (s, t): if s.x < t.x then s before t in x;
rule r1 on R (s, t): if s.x < t.x and s before t in a and s before t in c then s before t in b;
rule r2 on R (s, t): if s.x < t.x and s before t in a and t before s in c then s before t in b;
rule r3 on R (s, t): if s.x < t.x and t before s in a and s before t in c then s before t in b;
rule r4 on R (s, t): if s.x < t.x and t before s in a and t before s in c then s before t in b;
-- r.csv
id,eid,x,a,c,b
p1,p,1,0,0,1
p2,p,2,0,0,2
q1,q,1,0,0,1
u1,u,1,0,0,5
u2,u,1,0,0,6
w1,w,1,0,0,5
w2,w,1,0,0,6
-- q: answers (e, v) where R(e, _, _, _, v);
>> ask s q
0 currency report 2;
verdict answers;
answer ("p", 2);
answer ("q", 1);
completion;
...
>> verify s q p => 0 accepted answers
:: the matches of a value lie in several parts
-- q: answers (v) where R(_, _, _, _, v);
>> ask s q
0 currency report 2;
verdict answers;
answer (1);
answer (2);
completion;
...
>> verify s q p => 0 accepted answers
:: two matches in one part, of which one holds in each completion
-- q: answers (e, f) where R(e, _, _, _, v) and R(f, _, _, _, v);
>> ask s q
0 currency report 2;
verdict answers;
answer ("p", "p");
answer ("q", "q");
answer ("u", "u");
answer ("w", "w");
completion;
...
>> verify s q p => 0 accepted answers

== a copy ties all, and a part has one row
-- s
relation R from "r.csv" row id entity eid (a: int);
order R.a: p1 < p2;
copy on into R (a) from R (a): q1 from p1, q2 from p2, w1 from q1, w2 from q2;
-- r.csv
id,eid,a
p1,p,1
p2,p,2
q1,q,1
q2,q,2
w1,w,1
w2,w,2
z1,z,1
-- q: certain R.a: w1 < w2;
>> ask s q
0 currency report 2;
verdict certain;
...
>> verify s q p => 0 accepted certain
-- q: consistent;
>> ask s q --brief
0 currency brief 2;
verdict consistent;
completion;
ranking R.a of p: p1 < p2;
ranking R.a of q: q1 < q2;
ranking R.a of w: w1 < w2;
ranking R.a of z: z1;
end;
-- q: certain R.a: w2 < w1;
>> ask s q --brief
0 currency brief 2;
verdict not certain R.a: w2 < w1;
completion;
ranking R.a of p: p1 < p2;
ranking R.a of q: q1 < q2;
ranking R.a of w: w1 < w2;
ranking R.a of z: z1;
end;
"#;

#[test]
fn parts_are_decided(rt: HostRuntime) -> Result<(), Fail> {
    expect_played(&rt, ROWS)
}
