//! Queries of many atoms, with comparisons of all kinds between them.

use crate::documents::expect_played;
use std::test::Fail;

const ROWS: &str = r#"
== atoms that hang together
-- s
relation R from "r.csv" row id entity eid (x: int, y: int);
relation S from "s.csv" row id entity eid (y: int);
-- r.csv
id,eid,x,y
r0,a,0,1
r1,b,1,2
r2,c,2,3
r3,d,3,1
r4,e,4,4
r5,f,5,6
r6,g,6,7
r7,h,7,5
r8,i,8,8
r9,j,9,0
-- s.csv
id,eid,y
s0,k,3
s1,l,3
s2,m,5
s3,n,9
s4,o,8
s5,p,10
s6,q,0
s7,r,11
s8,s,12
s9,t,13
:: an equality joins two atoms
-- q: answers (e, f) where R(e, x, _) and S(f, y) and x = y;
>> ask s q
0 currency report 2;
verdict answers;
answer ("a", "q");
answer ("d", "k");
answer ("d", "l");
answer ("f", "m");
answer ("i", "o");
answer ("j", "n");
completion;
...
>> verify s q p => 0 accepted answers
-- q: answers (e, f) where R(e, x, _) and S(f, y) and x = y and e < f and f < "m";
>> ask s q
0 currency report 2;
verdict answers;
answer ("d", "k");
answer ("d", "l");
completion;
...
:: comparisons that contradict each other
-- q: answers (e, f) where R(e, x, _) and S(f, y) and x < y and y < x;
>> ask s q
0 currency report 2;
verdict answers;
completion;
...
-- q: answers (e) where R(e, x, _) and x = 1 and x = 2;
>> ask s q
0 currency report 2;
verdict answers;
completion;
...
-- q: answers (e) where R(e, x, y) and x = y and x = 1 and y = 2;
>> ask s q
0 currency report 2;
verdict answers;
completion;
...
:: a chain of equalities, one of which is between two places of one atom
-- q: answers (e) where R(e, x, y) and S(_, u) and x = y and y = u;
>> ask s q
0 currency report 2;
verdict answers;
answer ("i");
completion;
...
:: what each value is, and what none is
-- q: answers (e) where R(e, x, _) and x = x and x > 7;
>> ask s q
0 currency report 2;
verdict answers;
answer ("i");
answer ("j");
completion;
...
-- q: answers (e) where R(e, x, _) and x < x;
>> ask s q
0 currency report 2;
verdict answers;
completion;
...
:: a chain of three atoms, whose head stands in the last, in the first and the last, and with a constant at its start
-- q: answers (z) where R(_, x, y) and R(_, y, w) and R(_, w, z);
>> ask s q
0 currency report 2;
verdict answers;
answer (1);
answer (2);
answer (3);
answer (4);
answer (5);
answer (6);
answer (7);
answer (8);
completion;
...
>> verify s q p => 0 accepted answers
-- q: answers (x, z) where R(_, x, y) and R(_, y, w) and R(_, w, z) and x < 2;
>> ask s q
0 currency report 2;
verdict answers;
answer (0, 3);
answer (1, 1);
completion;
...
-- q: answers (w) where R(_, 0, y) and R(_, y, z) and R(_, z, w);
>> ask s q
0 currency report 2;
verdict answers;
answer (3);
completion;
...
:: eight atoms, with a match and without
-- q: answers () where R(_, a, b) and R(_, b, c) and R(_, c, d) and R(_, d, e) and R(_, e, f) and R(_, f, g) and R(_, g, h) and S(_, h);
>> ask s q
0 currency report 2;
verdict answers;
answer ();
completion;
...
>> verify s q p => 0 accepted answers
-- q
answers () where R(_, a, b) and R(_, b, c) and R(_, c, d) and R(_, d, e) and R(_, e, f) and R(_, f, g) and R(_, g, h) and S(_, h) and h < 3;
>> ask s q
0 currency report 2;
verdict answers;
completion;
...
:: tuples that have no partner in an atom beside theirs, or that do not fit alone
-- q: answers (e, f) where R(e, x, y) and S(f, y) and R(_, w, x) and w < x;
>> ask s q
0 currency report 2;
verdict answers;
answer ("c", "k");
answer ("c", "l");
answer ("h", "m");
completion;
...
>> verify s q p => 0 accepted answers
-- q: answers (f) where R(_, x, x) and S(f, x) and R(_, 4, y) and y < 5;
>> ask s q
0 currency report 2;
verdict answers;
answer ("o");
completion;
...
-- q: answers (f) where R(_, x, x) and S(f, x) and R(_, 4, y) and y < 4;
>> ask s q
0 currency report 2;
verdict answers;
completion;
...
:: a circle of three atoms
-- q: answers (x) where R(_, x, y) and R(_, y, z) and R(_, z, x) and x != 4;
>> ask s q
0 currency report 2;
verdict answers;
answer (1);
answer (2);
answer (3);
answer (5);
answer (6);
answer (7);
answer (8);
completion;
...
:: three atoms that share nothing
-- q: answers (e) where R(e, 0, _) and S(_, 3) and S(_, 13);
>> ask s q
0 currency report 2;
verdict answers;
answer ("a");
completion;
...
-- q: answers (e) where R(e, 0, _) and S(_, 3) and S(_, 14);
>> ask s q
0 currency report 2;
verdict answers;
completion;
...
:: disjuncts that overlap, a variable twice in the head, atoms twice
-- q: answers (e) where R(e, x, _) and x < 2 or R(e, _, y) and y = 1;
>> ask s q
0 currency report 2;
verdict answers;
answer ("a");
answer ("b");
answer ("d");
completion;
...
-- q: answers (x, e, x) where R(e, x, x);
>> ask s q
0 currency report 2;
verdict answers;
answer (4, "e", 4);
answer (8, "i", 8);
completion;
...
-- q: answers (e) where R(e, x, _) and R(e, x, _) and S(_, x) and S(_, x);
>> ask s q
0 currency report 2;
verdict answers;
answer ("a");
answer ("d");
answer ("f");
answer ("i");
answer ("j");
completion;
...
"#;

#[test]
fn atoms_are_joined(rt: HostRuntime) -> Result<(), Fail> {
    expect_played(&rt, ROWS)
}
