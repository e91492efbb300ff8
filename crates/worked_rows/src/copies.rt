//! Copy functions: which completions keep them, and how they are refused.

use crate::documents::expect_played;
use std::test::Fail;

const ROWS: &str = r#"
== a copy keeps the order of its sources
-- s
relation S from "s.csv" row id entity eid (a: int);
relation T from "t.csv" row id entity eid (b: int);
copy c into T (b) from S (a): t1 from s1, t2 from s2;
-- s.csv
id,eid,a
s1,y,1
s2,y,2
-- t.csv
id,eid,b
t1,x,1
t2,x,2
-- q: consistent;
-- p
currency report 1;
verdict consistent;
completion;
ranking S.a of y: s1 < s2; ranking T.b of x: t1 < t2;
end;
>> verify s q p => 0 accepted consistent
-- s 3: copy c into T (b) from S (a) using "c.csv";
-- c.csv
target,source
t1,s1
t2,s2
>> verify s q p => 0 accepted consistent
-- p 4: ranking S.a of y: s2 < s1; ranking T.b of x: t2 < t1;
>> verify s q p => 0 accepted consistent
-- s 3: copy c into T (b) from S (a) using "c.csv";
-- p 4: ranking S.a of y: s2 < s1; ranking T.b of x: t2 < t1;
>> verify s q p => 0 accepted consistent
-- p 4: ranking S.a of y: s2 < s1; ranking T.b of x: t1 < t2;
>> verify s q p => 4 refused V1 p 3
-- s 3: copy c into T (b) from S (a) using "c.csv";
-- p 4: ranking S.a of y: s2 < s1; ranking T.b of x: t1 < t2;
>> verify s q p => 4 refused V1 p 3
-- p 4: ranking S.a of y: s1 < s2; ranking T.b of x: t2 < t1;
>> verify s q p => 4 refused V1 p 3
-- s 3: copy c into T (b) from S (a) using "c.csv";
-- p 4: ranking S.a of y: s1 < s2; ranking T.b of x: t2 < t1;
>> verify s q p => 4 refused V1 p 3
-- s 3
copy c into T (b) from S (a): t1 from s1, t2 from s2;
order T.b: t1 < t2;
>> verify s q p => 0 accepted consistent
-- s 3
copy c into T (b) from S (a): t1 from s1, t2 from s2;
order T.b: t1 < t2;
-- p 4: ranking S.a of y: s2 < s1; ranking T.b of x: t1 < t2;
>> verify s q p => 4 refused V1 p 3

== a relation is copied into itself
-- s
relation R from "r.csv" row id entity eid (a: int);
copy c into R (a) from R (a): q1 from r1, q2 from r2;
-- r.csv
id,eid,a
r1,x,1
r2,x,2
q1,y,1
q2,y,2
-- q: consistent;
-- p
currency report 1;
verdict consistent;
completion;
ranking R.a of x: r1 < r2; ranking R.a of y: q1 < q2;
end;
>> verify s q p => 0 accepted consistent
-- p 4: ranking R.a of x: r1 < r2; ranking R.a of y: q2 < q1;
>> verify s q p => 4 refused V1 p 3

== a row that is not mapped is free
-- s
relation S from "s.csv" row id entity eid (a: int);
relation T from "t.csv" row id entity eid (b: int);
copy c into T (b) from S (a): t1 from s1, t2 from s2;
-- s.csv
id,eid,a
s1,y,1
s2,y,2
-- t.csv
id,eid,b
t1,x,1
t0,x,5
t2,x,2
-- q: consistent;
-- p
currency report 1;
verdict consistent;
completion;
ranking S.a of y: s1 < s2; ranking T.b of x: t1 < t0 < t2;
end;
>> verify s q p => 0 accepted consistent
-- p 4: ranking S.a of y: s1 < s2; ranking T.b of x: t0 < t1 < t2;
>> verify s q p => 0 accepted consistent
-- p 4: ranking S.a of y: s1 < s2; ranking T.b of x: t1 < t2 < t0;
>> verify s q p => 0 accepted consistent
-- p 4: ranking S.a of y: s1 < s2; ranking T.b of x: t2 < t0 < t1;
>> verify s q p => 4 refused V1 p 3
-- p 4: ranking S.a of y: s1 < s2; ranking T.b of x: t0 < t2 < t1;
>> verify s q p => 4 refused V1 p 3

== copies are refused
-- s
relation S from "s.csv" row id entity eid (a: int);
relation T from "t.csv" row id entity eid (b: int);
copy c into T (b) from S (a): t1 from s2;
-- s.csv
id,eid,a
s1,y,1
s2,y,2
-- t.csv
id,eid,b
t1,x,1
t2,x,2
-- q: consistent;
-- p
currency report 1;
verdict consistent;
completion;

end;
>> verify s q p => 5 error E13 s 3 1 2
-- s 3
copy c into T (b) from S (a): t1 from s1,
 t2 from s1;
>> verify s q p => 5 error E13 s 4 2 1
-- s 3
copy c into T (b) from S (a): t1 from s1,
 t1 from s1;
>> verify s q p => 5 error E12 s 4
-- s 3
copy c into T (b) from S (a): t1 from s1,
 t1 from s2;
>> verify s q p => 5 error E12 s 4
-- s 3: copy c into U (b) from V (a): t1 from s1;
>> verify s q p => 5 error E03 s 3
-- s 3
copy c into T (b,
 x) from
 V (a): t1 from s1;
>> verify s q p => 5 error E03 s 4
-- s 3
copy c into T (b) from
 V (a): t1 from s1;
>> verify s q p => 5 error E03 s 4
-- s 3
copy c into T (b) from S (a,
 b): t1 from s1;
>> verify s q p => 5 error E03 s 4
-- s 3
copy c into T (b) from S (a): t1 from s1;
copy
 c into T (b,
 b) from S (a): t1 from s1;
>> verify s q p => 5 error E04 s 5
-- s 3
copy c into T (b,
 b) from S (a,
 a): t1 from s1;
>> verify s q p => 5 error E04 s 4
-- s 3
copy c into T (b) from S (a,
 a): t1 from s1;
>> verify s q p => 5 error E04 s 4
-- s 3
copy c into T (b) from S (a): t1 from s2,
 t1 from
 s9;
>> verify s q p => 5 error E10 s 5
-- s 3
copy c into T (b) from S (a): t1 from s2,
 t9 from
 s9;
>> verify s q p => 5 error E10 s 4
-- s 3: copy c into T (b) from S (a);
>> verify s q p => 5 error E02 s 3
-- s 3: copy c into T () from S (a): t1 from s1;
>> verify s q p => 5 error E02 s 3
-- s 3: copy c into T (b) from S (a): t1 from s1;
-- s.csv
id,eid,a
s1,y,-0
-- t.csv
id,eid,b
t1,x,007
>> verify s q p => 5 error E13 s 3 7 0
-- s 3: copy c into T (b) from S (a): t1 from s1;
-- s.csv
id,eid,a
s1,y,9223372036854775807
-- t.csv
id,eid,b
t1,x,-9223372036854775808
>> verify s q p => 5 error E13 s 3 -9223372036854775808 9223372036854775807

== each place is judged
-- s
relation S from "s.csv" row id entity eid (a: int, b: text);
relation T from "t.csv" row id entity eid (c: text, d: int);
copy c into T (d, c) from S (a, b): t1 from s1, t2 from s2;
-- s.csv
id,eid,a,b
s1,y,1,p
s2,y,2,q
-- t.csv
id,eid,c,d
t1,x,p,1
t2,x,q,2
-- q: consistent;
-- p
currency report 1;
verdict consistent;
completion;
ranking S.a of y: s1 < s2; ranking S.b of y: s2 < s1; ranking T.d of x: t1 < t2; ranking T.c of x: t2 < t1;
end;
>> verify s q p => 0 accepted consistent
-- p
currency report 1;
verdict consistent;
completion;
ranking S.a of y: s1 < s2; ranking S.b of y: s2 < s1; ranking T.d of x: t2 < t1; ranking T.c of x: t2 < t1;
end;
>> verify s q p => 4 refused V1 p 3
-- p
currency report 1;
verdict consistent;
completion;
ranking S.a of y: s1 < s2; ranking S.b of y: s2 < s1; ranking T.d of x: t1 < t2; ranking T.c of x: t1 < t2;
end;
>> verify s q p => 4 refused V1 p 3

== given pairs come from a table
-- s
relation S from "s.csv" row id entity eid (a: int);
relation T from "t.csv" row id entity eid (b: int);
copy c into T (b) from S (a): t1 from s1, t2 from s2;
orders T from "o.csv";
-- s.csv
id,eid,a
s1,y,1
s2,y,2
-- t.csv
id,eid,b
t1,x,1
t2,x,2
-- o.csv
attribute,earlier,later
b,t1,t2
-- q: consistent;
-- p
currency report 1;
verdict consistent;
completion;
ranking S.a of y: s1 < s2; ranking T.b of x: t1 < t2;
end;
>> verify s q p => 0 accepted consistent
-- p 4: ranking S.a of y: s2 < s1; ranking T.b of x: t2 < t1;
>> verify s q p => 4 refused V1 p 3
-- o.csv
later,attribute,earlier
t1,b,t2
-- p 4: ranking S.a of y: s2 < s1; ranking T.b of x: t2 < t1;
>> verify s q p => 0 accepted consistent
-- o.csv: attribute,earlier,later
-- p 4: ranking S.a of y: s2 < s1; ranking T.b of x: t2 < t1;
>> verify s q p => 0 accepted consistent
-- o.csv
attribute,earlier,later
c,t1,t2
>> verify s q p => 5 error E03 o.csv 2
-- o.csv
attribute,earlier,later
b,t1,t1
b,t9,t2
c,t1,t2
>> verify s q p => 5 error E03 o.csv 4
-- o.csv 3-4: b,t1,t9
>> verify s q p => 5 error E10 o.csv 3
-- o.csv
attribute,earlier,later
b,t1,t2
b,t1,t1
>> verify s q p => 5 error E11 o.csv 3
-- o.csv
attribute,earlier
b,t1
>> verify s q p => 5 error E07 o.csv 1
-- o.csv
attribute,earlier,later
b,t1
>> verify s q p => 5 error E06 o.csv 2
-- s 3-4: orders U from "o.csv";
-- o.csv
target,source
t1,s1
t2,s2
-- p 4
>> verify s q p => 5 error E03 s 3

== lists of a copy match
-- s
relation S from "s.csv" row id entity eid (a: int, b: text, c: text);
copy
 c into S (a) from S (a, b): s1 from s1;\
-- s.csv
id,eid,a,b,c
s1,y,1,p,"q ""r"""
s2,y,-1,,q
-- q: consistent;
-- p
currency report 1;
verdict consistent;
completion;
ranking R.a of x: r2 < r1 < r3;
end;
>> verify s q p => 5 error E05 s 3
-- s
relation S from "s.csv" row id entity eid (a: int, b: text, c: text);
copy
 c into S (a, b) from S (a): s1 from s1;\
>> verify s q p => 5 error E05 s 3
-- s
relation S from "s.csv" row id entity eid (a: int, b: text, c: text);
copy
 c into S (a, b) from S (b, a): s1 from s1;\
>> verify s q p => 5 error E05 s 3
-- s
relation S from "s.csv" row id entity eid (a: int, b: text, c: text);
copy c into S (a) from S (a):
 s1 from s2;\
>> verify s q p => 5 error E13 s 3 1 -1
-- s
relation S from "s.csv" row id entity eid (a: int, b: text, c: text);
copy c into S (b, c) from S (b, b):
 s2 from s2, s1 from s1;\
>> verify s q p => 5 error E04 s 2
-- s
relation S from "s.csv" row id entity eid (a: int, b: text, c: text);
copy c into S (b, c) from S (c, b):
 s1 from s2,
 s2 from s2;\
>> verify s q p => 5 error E13 s 3 "p" "q"
-- s
relation S from "s.csv" row id entity eid (a: int, b: text, c: text);
copy c into S (c) from S (b):
 s1 from s2;\
>> verify s q p => 5 error E13 s 3 "q ""r""" ""

== sources of two entities are not compared
-- s
relation S from "s.csv" row id entity eid (a: int);
relation T from "t.csv" row id entity eid (b: int);
copy c into T (b) from S (a): t1 from s1, t2 from s2;
-- s.csv
id,eid,a
s1,y,1
s2,z,2
-- t.csv
id,eid,b
t1,x,1
t2,x,2
-- q: consistent;
-- p
currency report 1;
verdict consistent;
completion;
ranking S.a of y: s1; ranking S.a of z: s2; ranking T.b of x: t2 < t1;
end;
>> verify s q p => 0 accepted consistent
-- s.csv
id,eid,a
s1,y,1
s2,z,2
s0,z,0
-- p 4: ranking S.a of y: s1; ranking S.a of z: s0 < s2; ranking T.b of x: t2 < t1;
>> verify s q p => 0 accepted consistent
-- s.csv
id,eid,a
s1,y,1
s2,y,2
-- t.csv
id,eid,b
t1,x,1
t2,w,2
-- p 4: ranking S.a of y: s2 < s1; ranking T.b of x: t1; ranking T.b of w: t2;
>> verify s q p => 0 accepted consistent

== tables of copies are refused
-- s
relation S from "s.csv" row id entity eid (a: int);
relation T from "t.csv" row id entity eid (b: int);
copy c into T (b) from S (a) using "c.csv";
-- s.csv
id,eid,a
s1,y,1
s2,y,2
-- t.csv
id,eid,b
t1,x,1
t2,x,2
-- c.csv
target,source
t1,s1
t2
-- q: consistent;
-- p
currency report 1;
verdict consistent;
completion;

end;
>> verify s q p => 5 error E06 c.csv 3
-- c.csv
target,from
t1,s1
>> verify s q p => 5 error E07 c.csv 1
-- c.csv
>> verify s q p => 5 error E07 c.csv 1
-- c.csv
target,source
t1,s1
t2,s9
>> verify s q p => 5 error E10 c.csv 3
-- c.csv 3: t9,s2
>> verify s q p => 5 error E10 c.csv 3
-- c.csv
target,source
t1,s2
t1,s9
>> verify s q p => 5 error E10 c.csv 3
-- c.csv
target,source
t1,s1
t1,s1
>> verify s q p => 5 error E12 c.csv 3
-- c.csv 3: t2,s1
>> verify s q p => 5 error E13 c.csv 3 2 1
-- c.csv
source,note,target
s1,,t1
s1,,t2
>> verify s q p => 5 error E13 c.csv 3 2 1
-- s 3: copy c into T (a) from S (a) using "none.csv";
>> verify s q p => 5 error E03 s 3
-- s 3: copy c into T (b) from S (a) using "none.csv";
>> verify s q p => 7 read fault none.csv
"#;

#[test]
fn copies_are_judged(rt: HostRuntime) -> Result<(), Fail> {
    expect_played(&rt, ROWS)
}
