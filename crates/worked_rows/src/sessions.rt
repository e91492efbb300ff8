//! Sessions: what is told of edits and questions one after another, and which reports are kept.

use crate::documents::expect_played;
use crate::runs::{asked, with};
use std::test::Fail;

const ROWS: &str = r#"
== a pair that is added, and its opposite, which is withdrawn again
-- s: relation R from "r.csv" row id entity eid (a: int);
-- r.csv
id,eid,a
r1,x,1
r2,x,2
r3,x,3
-- script
ask certain R.a: r1 < r2;
add order R.a: r1 < r2;
ask certain R.a: r1 < r2;
add order R.a: r2 < r1;
ask consistent;
withdraw order R.a: r2 < r1;
withdraw order R.a: r2 < r1;
ask certain R.a: r1 < r2;
>> session s script
0 currency session 1;
reply 1;
currency report 2;
verdict not certain R.a: r1 < r2;
completion;
ranking R.a of x: r3 < r2 < r1;
end;
edit 2 accepted;
reply 3;
currency report 2;
verdict certain;
completion;
ranking R.a of x: r3 < r1 < r2;
log;
statement before 1 1 1 2;
axiom given 1 1 1 2: 1;
end;
edit 4 accepted;
reply 5;
currency report 2;
verdict inconsistent;
log;
statement before 1 1 1 2;
axiom given 1 1 1 2: 1;
axiom given 1 1 2 1: -1;
derive by 1 2;
end;
edit 6 accepted;
refused E17 script 7;
reply 8;
currency report 2;
verdict certain;
completion;
ranking R.a of x: r3 < r1 < r2;
log;
statement before 1 1 1 2;
axiom given 1 1 1 2: 1;
end;
end;
>> session s script --brief
0 currency session 1;
reply 1;
currency brief 2;
verdict not certain R.a: r1 < r2;
completion;
ranking R.a of x: r3 < r2 < r1;
end;
edit 2 accepted;
reply 3;
currency brief 2;
verdict certain;
completion;
ranking R.a of x: r3 < r1 < r2;
end;
edit 4 accepted;
reply 5;
currency brief 2;
verdict inconsistent;
end;
edit 6 accepted;
refused E17 script 7;
reply 8;
currency brief 2;
verdict certain;
completion;
ranking R.a of x: r3 < r1 < r2;
end;
end;

== a copied row that is withdrawn, and may not be copied from another
-- s
relation S from "s.csv" row id entity eid (a: int);
relation T from "t.csv" row id entity eid (b: int);
copy c into T (b) from S (a): t1 from s1, t2 from s2;
-- s.csv
id,eid,a
s1,y,1
s2,y,2
-- t.csv
id,eid,b
t1,x,1
t2,x,2
-- script
add copy c: t1 from s2;
withdraw copy c: t1 from s1;
add copy c: t1 from s2;
add rule m on S (s, t): if s.a < t.a then s before t in a;
ask certain T.b: t1 < t2;
>> session s script
0 currency session 1;
refused E12 script 1;
edit 2 accepted;
refused E13 script 3 1 2;
edit 4 accepted;
reply 5;
currency report 2;
verdict not certain T.b: t1 < t2;
completion;
ranking S.a of y: s1 < s2;
ranking T.b of x: t2 < t1;
end;
end;
>> session s script --brief
0 currency session 1;
refused E12 script 1;
edit 2 accepted;
refused E13 script 3 1 2;
edit 4 accepted;
reply 5;
currency brief 2;
verdict not certain T.b: t1 < t2;
completion;
ranking S.a of y: s1 < s2;
ranking T.b of x: t2 < t1;
end;
end;
:: With the copied row back the pair is certain.
-- script
withdraw copy c: t1 from s1;
add rule m on S (s, t): if s.a < t.a then s before t in a;
add copy c: t1 from s1;
ask certain T.b: t1 < t2;
>> session s script --brief
0 currency session 1;
edit 1 accepted;
edit 2 accepted;
edit 3 accepted;
reply 4;
currency brief 2;
verdict certain;
completion;
ranking S.a of y: s1 < s2;
ranking T.b of x: t1 < t2;
end;
end;

== edits that are undone in another order
-- s
relation S from "s.csv" row id entity eid (a: int);
relation T from "t.csv" row id entity eid (b: int);
copy c into T (b) from S (a): t1 from s1, t2 from s2;
-- s.csv
id,eid,a
s1,y,1
s2,y,2
-- t.csv
id,eid,b
t1,x,1
t2,x,2
-- script
ask certain S.a: s1 < s2;
add order T.b: t1 < t2;
add rule up on S (s, t): if s.a < t.a then s before t in a;
withdraw copy c: t2 from s2;
add order S.a: s2 < s1;
ask certain S.a: s1 < s2;
withdraw rule up;
withdraw order T.b: t1 < t2;
ask certain S.a: s1 < s2;
withdraw order S.a: s2 < s1;
add copy c: t2 from s2;
ask certain S.a: s1 < s2;
ask certain T.b: t1 < t2;
>> session s script --brief
0 currency session 1;
reply 1;
currency brief 2;
verdict not certain S.a: s1 < s2;
completion;
ranking S.a of y: s2 < s1;
ranking T.b of x: t2 < t1;
end;
edit 2 accepted;
edit 3 accepted;
edit 4 accepted;
edit 5 accepted;
reply 6;
currency brief 2;
verdict inconsistent;
end;
edit 7 accepted;
edit 8 accepted;
reply 9;
currency brief 2;
verdict not certain S.a: s1 < s2;
completion;
ranking S.a of y: s2 < s1;
ranking T.b of x: t2 < t1;
end;
edit 10 accepted;
edit 11 accepted;
reply 12;
currency brief 2;
verdict not certain S.a: s1 < s2;
completion;
ranking S.a of y: s2 < s1;
ranking T.b of x: t2 < t1;
end;
reply 13;
currency brief 2;
verdict not certain T.b: t1 < t2;
completion;
ranking S.a of y: s2 < s1;
ranking T.b of x: t2 < t1;
end;
end;

== a known completion that added pairs break is mended
-- s
relation R from "r.csv" row id entity eid (a: int);
relation T from "t.csv" row id entity eid (b: int);
copy c into T (b) from R (a): t1 from r1, t2 from r2;
-- r.csv
id,eid,a
r1,x,1
r2,x,2
q1,y,1
q2,y,2
o1,v,1
o2,v,2
-- t.csv
id,eid,b
t1,z,1
t2,z,2
-- script
ask certain R.a: o2 < o1;
add order T.b: t1 < t2;
ask consistent;
add order R.a: q1 < q2;
ask consistent;
add order R.a: o2 < o1;
add order R.a: r2 < r1;
ask consistent;
withdraw order R.a: r2 < r1;
ask consistent;
>> session s script --brief
0 currency session 1;
reply 1;
currency brief 2;
verdict not certain R.a: o2 < o1;
completion;
ranking R.a of x: r2 < r1;
ranking R.a of y: q2 < q1;
ranking R.a of v: o1 < o2;
ranking T.b of z: t2 < t1;
end;
edit 2 accepted;
reply 3;
currency brief 2;
verdict consistent;
completion;
ranking R.a of x: r1 < r2;
ranking R.a of y: q2 < q1;
ranking R.a of v: o1 < o2;
ranking T.b of z: t1 < t2;
end;
edit 4 accepted;
reply 5;
currency brief 2;
verdict consistent;
completion;
ranking R.a of x: r1 < r2;
ranking R.a of y: q1 < q2;
ranking R.a of v: o1 < o2;
ranking T.b of z: t1 < t2;
end;
edit 6 accepted;
edit 7 accepted;
reply 8;
currency brief 2;
verdict inconsistent;
end;
edit 9 accepted;
reply 10;
currency brief 2;
verdict consistent;
completion;
ranking R.a of x: r1 < r2;
ranking R.a of y: q1 < q2;
ranking R.a of v: o2 < o1;
ranking T.b of z: t1 < t2;
end;
end;

== a copied row that the known completion agrees with
-- s
relation R from "r.csv" row id entity eid (a: int);
relation T from "t.csv" row id entity eid (b: int);
copy c into T (b) from R (a): t1 from r1;
-- r.csv
id,eid,a
r1,x,1
r2,x,2
o1,v,1
o2,v,2
-- t.csv
id,eid,b
t1,z,1
t2,z,2
-- script
ask certain R.a: o2 < o1;
add copy c: t2 from r2;
ask consistent;
ask certain T.b: t1 < t2;
>> session s script --brief
0 currency session 1;
reply 1;
currency brief 2;
verdict not certain R.a: o2 < o1;
completion;
ranking R.a of x: r2 < r1;
ranking R.a of v: o1 < o2;
ranking T.b of z: t2 < t1;
end;
edit 2 accepted;
reply 3;
currency brief 2;
verdict consistent;
completion;
ranking R.a of x: r2 < r1;
ranking R.a of v: o1 < o2;
ranking T.b of z: t2 < t1;
end;
reply 4;
currency brief 2;
verdict not certain T.b: t1 < t2;
completion;
ranking R.a of x: r2 < r1;
ranking R.a of v: o1 < o2;
ranking T.b of z: t2 < t1;
end;
end;

== a rule that the known completion satisfies
-- s: relation R from "r.csv" row id entity eid (a: int);
-- r.csv
id,eid,a
r1,x,1
r2,x,2
q1,y,1
q2,y,1
o1,v,1
o2,v,1
-- script
ask certain R.a: o2 < o1;
ask certain R.a: r2 < r1;
add rule low on R (s): if s.a > 2 then false;
ask certain R.a: q1 < q2;
>> session s script --brief
0 currency session 1;
reply 1;
currency brief 2;
verdict not certain R.a: o2 < o1;
completion;
ranking R.a of x: r2 < r1;
ranking R.a of y: q2 < q1;
ranking R.a of v: o1 < o2;
end;
reply 2;
currency brief 2;
verdict not certain R.a: r2 < r1;
completion;
ranking R.a of x: r1 < r2;
ranking R.a of y: q2 < q1;
ranking R.a of v: o2 < o1;
end;
edit 3 accepted;
reply 4;
currency brief 2;
verdict not certain R.a: q1 < q2;
completion;
ranking R.a of x: r2 < r1;
ranking R.a of y: q2 < q1;
ranking R.a of v: o1 < o2;
end;
end;
:: One that it does not satisfy: the search begins from the completion of the newest report.
-- script 3: add rule up on R (s, t): if s.a < t.a then s before t in a;
>> session s script --brief
0 currency session 1;
reply 1;
currency brief 2;
verdict not certain R.a: o2 < o1;
completion;
ranking R.a of x: r2 < r1;
ranking R.a of y: q2 < q1;
ranking R.a of v: o1 < o2;
end;
reply 2;
currency brief 2;
verdict not certain R.a: r2 < r1;
completion;
ranking R.a of x: r1 < r2;
ranking R.a of y: q2 < q1;
ranking R.a of v: o2 < o1;
end;
edit 3 accepted;
reply 4;
currency brief 2;
verdict not certain R.a: q1 < q2;
completion;
ranking R.a of x: r1 < r2;
ranking R.a of y: q2 < q1;
ranking R.a of v: o2 < o1;
end;
end;

== a known completion that an added copied row breaks is mended
-- s
relation R from "r.csv" row id entity eid (a: int);
relation T from "t.csv" row id entity eid (b: int);
copy c into T (b) from R (a): t1 from r2;
-- r.csv
id,eid,a
r1,x,2
r2,x,1
q1,y,1
q2,y,2
o1,v,1
o2,v,2
-- t.csv
id,eid,b
t1,z,1
t2,z,2
-- script
ask certain R.a: o2 < o1;
add copy c: t2 from r1;
ask consistent;
ask certain T.b: t1 < t2;
>> session s script --brief
0 currency session 1;
reply 1;
currency brief 2;
verdict not certain R.a: o2 < o1;
completion;
ranking R.a of x: r2 < r1;
ranking R.a of y: q2 < q1;
ranking R.a of v: o1 < o2;
ranking T.b of z: t2 < t1;
end;
edit 2 accepted;
reply 3;
currency brief 2;
verdict consistent;
completion;
ranking R.a of x: r2 < r1;
ranking R.a of y: q2 < q1;
ranking R.a of v: o1 < o2;
ranking T.b of z: t1 < t2;
end;
reply 4;
currency brief 2;
verdict not certain T.b: t1 < t2;
completion;
ranking R.a of x: r1 < r2;
ranking R.a of y: q2 < q1;
ranking R.a of v: o2 < o1;
ranking T.b of z: t2 < t1;
end;
end;
:: With a pair that breaks it too.
-- script
ask certain R.a: o2 < o1;
add copy c: t2 from r1;
add order R.a: q1 < q2;
ask consistent;
>> session s script --brief
0 currency session 1;
reply 1;
currency brief 2;
verdict not certain R.a: o2 < o1;
completion;
ranking R.a of x: r2 < r1;
ranking R.a of y: q2 < q1;
ranking R.a of v: o1 < o2;
ranking T.b of z: t2 < t1;
end;
edit 2 accepted;
edit 3 accepted;
reply 4;
currency brief 2;
verdict consistent;
completion;
ranking R.a of x: r2 < r1;
ranking R.a of y: q1 < q2;
ranking R.a of v: o1 < o2;
ranking T.b of z: t1 < t2;
end;
end;
-- script
ask certain R.a: o2 < o1;
add order R.a: q1 < q2;
add copy c: t2 from r1;
ask consistent;
>> session s script --brief
0 currency session 1;
reply 1;
currency brief 2;
verdict not certain R.a: o2 < o1;
completion;
ranking R.a of x: r2 < r1;
ranking R.a of y: q2 < q1;
ranking R.a of v: o1 < o2;
ranking T.b of z: t2 < t1;
end;
edit 2 accepted;
edit 3 accepted;
reply 4;
currency brief 2;
verdict consistent;
completion;
ranking R.a of x: r2 < r1;
ranking R.a of y: q1 < q2;
ranking R.a of v: o1 < o2;
ranking T.b of z: t1 < t2;
end;
end;

== what ends inconsistent is mended by what is explained
-- s
relation R from "r.csv" row id entity eid (a: int);
rule up on R (s, t): if s.a < t.a then s before t in a;
order R.a: r1 < r2;
# more
-- r.csv
id,eid,a
r1,x,1
r2,x,2
r3,x,2
-- script
add order R.a: r2 < r3;
add order R.a: r3 < r1;
ask consistent;
>> session s script --brief
0 currency session 1;
edit 1 accepted;
edit 2 accepted;
reply 3;
currency brief 2;
verdict inconsistent;
end;
end;
-- q: consistent;
-- s 4: order R.a: r2 < r3, r3 < r1;
>> explain s q 1
0 currency explanation 1;
explains inconsistent;
item given R.a: r3 < r1;
completion;
ranking R.a of x: r1 < r3 < r2;
item rule up;
completion;
ranking R.a of x: r3 < r2 < r1;
end;
-- script
add order R.a: r2 < r3;
add order R.a: r3 < r1;
ask consistent;
withdraw order R.a: r3 < r1;
ask consistent;
ask certain R.a: r1 < r3;
>> session s script --brief
0 currency session 1;
edit 1 accepted;
edit 2 accepted;
reply 3;
currency brief 2;
verdict inconsistent;
end;
edit 4 accepted;
reply 5;
currency brief 2;
verdict consistent;
completion;
ranking R.a of x: r1 < r2 < r3;
end;
reply 6;
currency brief 2;
verdict certain;
completion;
ranking R.a of x: r1 < r2 < r3;
end;
end;
:: Without the rule the circle of given pairs is left.
-- script 4: withdraw rule up;
>> session s script --brief
0 currency session 1;
edit 1 accepted;
edit 2 accepted;
reply 3;
currency brief 2;
verdict inconsistent;
end;
edit 4 accepted;
reply 5;
currency brief 2;
verdict inconsistent;
end;
reply 6;
currency brief 2;
verdict inconsistent;
end;
end;

== what a table gave is withdrawn, and a name is free again
-- s
relation R from "r.csv" row id entity eid (a: int);
relation T from "t.csv" row id entity eid (b: int);
orders R from "o.csv";
rule up on R (s, t): if s.a < t.a then s before t in a;
copy c into T (b) from R (a) using "k.csv";
-- r.csv
id,eid,a
r1,x,1
r2,x,2
q1,y,1
-- t.csv
id,eid,b
t1,z,1
t2,z,2
-- o.csv
attribute,earlier,later
a,r2,r1
-- k.csv
target,source
t1,r1
t2,r2
-- script
ask consistent;
withdraw order R.a: r2 < r1;
ask certain T.b: t1 < t2;
withdraw rule up;
ask certain T.b: t1 < t2;
add rule up on R (s, t): if s.a > t.a then s before t in a;
ask certain T.b: t2 < t1;
withdraw copy c: t1 from r1;
add copy c: t1 from q1;
ask certain T.b: t2 < t1;
withdraw copy c: t1 from r1;
add order R.a: r2 < r1;
add order R.a: r2 < r1;
withdraw order R.a: r2 < r1;
withdraw order R.a: r2 < r1;
>> session s script --brief
0 currency session 1;
reply 1;
currency brief 2;
verdict inconsistent;
end;
edit 2 accepted;
reply 3;
currency brief 2;
verdict certain;
completion;
ranking R.a of x: r1 < r2;
ranking R.a of y: q1;
ranking T.b of z: t1 < t2;
end;
edit 4 accepted;
reply 5;
currency brief 2;
verdict not certain T.b: t1 < t2;
completion;
ranking R.a of x: r2 < r1;
ranking R.a of y: q1;
ranking T.b of z: t2 < t1;
end;
edit 6 accepted;
reply 7;
currency brief 2;
verdict certain;
completion;
ranking R.a of x: r2 < r1;
ranking R.a of y: q1;
ranking T.b of z: t2 < t1;
end;
edit 8 accepted;
edit 9 accepted;
reply 10;
currency brief 2;
verdict not certain T.b: t2 < t1;
completion;
ranking R.a of x: r2 < r1;
ranking R.a of y: q1;
ranking T.b of z: t1 < t2;
end;
refused E17 script 11;
edit 12 accepted;
edit 13 accepted;
edit 14 accepted;
refused E17 script 15;
end;

== budgets are spent, and the session goes on
-- s
relation U from "u.csv" row id entity eid (a: int, b: int, c: int);
rule n1 on U (s, t): if s before t in a and s before t in b and s before t in c then false;
rule n2 on U (s, t): if s before t in a and s before t in b and t before s in c then false;
rule n3 on U (s, t): if s before t in a and t before s in b and s before t in c then false;
rule n4 on U (s, t): if t before s in a and s before t in b and s before t in c then false;
-- u.csv
id,eid,a,b,c
r1,x,0,0,0
r2,x,0,0,0
-- script
ask consistent;
withdraw rule n1;
ask consistent;
>> session s script --brief --budget 1
3 currency session 1;
reply 1;
currency report 2;
verdict undecided 1;
log;
statement before 1 1 1 2;
statement before 1 2 1 2;
statement before 1 3 1 2;
axiom rule 1 1 2: -1 -2 -3;
axiom rule 1 2 1: 1 2 3;
axiom rule 2 1 2: -1 -2 3;
axiom rule 2 2 1: 1 2 -3;
axiom rule 3 1 2: -1 2 -3;
axiom rule 3 2 1: 1 -2 3;
axiom rule 4 1 2: 1 -2 -3;
axiom rule 4 2 1: -1 2 3;
learn 2 1 by 4 2;
end;
edit 2 accepted;
reply 3;
currency brief 2;
verdict consistent;
completion;
ranking U.a of x: r2 < r1;
ranking U.b of x: r2 < r1;
ranking U.c of x: r2 < r1;
end;
end;
>> session s script --brief
0 currency session 1;
reply 1;
currency brief 2;
verdict inconsistent;
end;
...
"#;

// Under the pair `r1 < r2` the search begins with another completion than without it, so that a kept report is seen.
const KEPT: &str = r#"
== four reports are kept
-- s
relation R from "r.csv" row id entity eid (a: int);
order R.a: r1 < r2;
-- r.csv
id,eid,a
r1,x,1
r2,x,2
r3,x,3
-- script
withdraw order R.a: r1 < r2;
ask consistent;
ask certain R.a: r1 < r3;
ask same R;
ask answers (v) where R(_, v);
>> session s script --brief
0 currency session 1;
edit 1 accepted;
reply 2;
currency brief 2;
verdict consistent;
completion;
ranking R.a of x: r3 < r2 < r1;
end;
reply 3;
currency brief 2;
verdict not certain R.a: r1 < r3;
completion;
ranking R.a of x: r3 < r2 < r1;
end;
reply 4;
currency brief 2;
verdict not same R.a of x;
completion;
ranking R.a of x: r3 < r2 < r1;
completion;
ranking R.a of x: r2 < r1 < r3;
end;
reply 5;
currency brief 2;
verdict answers;
completion;
ranking R.a of x: r3 < r2 < r1;
completion;
ranking R.a of x: r2 < r1 < r3;
end;
end;
-- script
ask consistent;
ask certain R.a: r1 < r3;
ask same R;
ask answers (v) where R(_, v);
withdraw order R.a: r1 < r2;
ask answers (v) where R(_, v);
ask same R;
ask certain R.a: r1 < r3;
ask consistent;
>> session s script --brief
0 currency session 1;
reply 1;
currency brief 2;
verdict consistent;
completion;
ranking R.a of x: r3 < r1 < r2;
end;
reply 2;
currency brief 2;
verdict not certain R.a: r1 < r3;
completion;
ranking R.a of x: r3 < r1 < r2;
end;
reply 3;
currency brief 2;
verdict not same R.a of x;
completion;
ranking R.a of x: r3 < r1 < r2;
completion;
ranking R.a of x: r1 < r2 < r3;
end;
reply 4;
currency brief 2;
verdict answers;
completion;
ranking R.a of x: r3 < r1 < r2;
completion;
ranking R.a of x: r1 < r2 < r3;
end;
edit 5 accepted;
reply 6;
currency brief 2;
verdict answers;
completion;
ranking R.a of x: r3 < r1 < r2;
completion;
ranking R.a of x: r1 < r2 < r3;
end;
reply 7;
currency brief 2;
verdict not same R.a of x;
completion;
ranking R.a of x: r3 < r1 < r2;
completion;
ranking R.a of x: r1 < r2 < r3;
end;
reply 8;
currency brief 2;
verdict not certain R.a: r1 < r3;
completion;
ranking R.a of x: r3 < r1 < r2;
end;
reply 9;
currency brief 2;
verdict consistent;
completion;
ranking R.a of x: r3 < r1 < r2;
end;
end;
:: A fifth question drops the oldest, though that was the reply last; each new one drops the next.
-- script
ask consistent;
ask certain R.a: r1 < r3;
ask same R;
ask answers (v) where R(_, v);
withdraw order R.a: r1 < r2;
ask consistent;
ask certain R.a: r2 < r1;
ask consistent;
ask same R;
ask certain R.a: r1 < r3;
ask same R;
ask answers (v) where R(_, v);
>> session s script --brief
0 currency session 1;
reply 1;
currency brief 2;
verdict consistent;
completion;
ranking R.a of x: r3 < r1 < r2;
end;
reply 2;
currency brief 2;
verdict not certain R.a: r1 < r3;
completion;
ranking R.a of x: r3 < r1 < r2;
end;
reply 3;
currency brief 2;
verdict not same R.a of x;
completion;
ranking R.a of x: r3 < r1 < r2;
completion;
ranking R.a of x: r1 < r2 < r3;
end;
reply 4;
currency brief 2;
verdict answers;
completion;
ranking R.a of x: r3 < r1 < r2;
completion;
ranking R.a of x: r1 < r2 < r3;
end;
edit 5 accepted;
reply 6;
currency brief 2;
verdict consistent;
completion;
ranking R.a of x: r3 < r1 < r2;
end;
reply 7;
currency brief 2;
verdict not certain R.a: r2 < r1;
completion;
ranking R.a of x: r3 < r1 < r2;
end;
reply 8;
currency brief 2;
verdict consistent;
completion;
ranking R.a of x: r3 < r1 < r2;
end;
reply 9;
currency brief 2;
verdict not same R.a of x;
completion;
ranking R.a of x: r3 < r1 < r2;
completion;
ranking R.a of x: r1 < r2 < r3;
end;
reply 10;
currency brief 2;
verdict not certain R.a: r1 < r3;
completion;
ranking R.a of x: r3 < r1 < r2;
end;
reply 11;
currency brief 2;
verdict not same R.a of x;
completion;
ranking R.a of x: r3 < r1 < r2;
completion;
ranking R.a of x: r3 < r2 < r1;
end;
reply 12;
currency brief 2;
verdict answers;
completion;
ranking R.a of x: r3 < r1 < r2;
completion;
ranking R.a of x: r3 < r2 < r1;
end;
end;
:: A report that shows its verdict no longer is no reply, and stays kept.
-- script
ask consistent;
withdraw order R.a: r1 < r2;
add order R.a: r2 < r1;
ask consistent;
withdraw order R.a: r2 < r1;
ask consistent;
>> session s script --brief
0 currency session 1;
reply 1;
currency brief 2;
verdict consistent;
completion;
ranking R.a of x: r3 < r1 < r2;
end;
edit 2 accepted;
edit 3 accepted;
reply 4;
currency brief 2;
verdict consistent;
completion;
ranking R.a of x: r3 < r2 < r1;
end;
edit 5 accepted;
reply 6;
currency brief 2;
verdict consistent;
completion;
ranking R.a of x: r3 < r1 < r2;
end;
end;
"#;

const REFUSED: &str = r#"
== the second of three entries is refused
-- s
relation R from "r.csv" row id entity eid (a: int, b: text);
relation T from "t.csv" row id entity eid (c: int, d: text);
orders R from "o.csv";
rule up on R (s, t): if s.a < t.a then s before t in a;
copy k into T (c) from R (a) using "k.csv";
copy l into T (d, c) from R (b, a): t1 from r1;
-- r.csv
id,eid,a,b
r1,x,1,u
r2,x,2,"say ""so"""
r3,x,2,
q1,y,1,u
-- t.csv
id,eid,c,d
t1,z,1,u
t2,z,2,v w
u1,w,1,u
-- o.csv
attribute,earlier,later
b,r1,r2
-- k.csv
target,source
t1,r1
-- script
add order R.a: r1 < r2;
# the second
withdraw order R.a: r1 < r2;
>> session s script
0 currency session 1;
edit 1 accepted;
edit 3 accepted;
end;
:: E03
-- script 2: add order Q.a: r1 < r9;
>> session s script
0 currency session 1;
edit 1 accepted;
refused E03 script 2;
edit 3 accepted;
end;
-- script 2
add order R.
c: r9 < r1;
>> session s script
0 currency session 1;
edit 1 accepted;
refused E03 script 3;
edit 4 accepted;
end;
-- script 2: withdraw order R.c: r1 < r2;
>> session s script
0 currency session 1;
edit 1 accepted;
refused E03 script 2;
edit 3 accepted;
end;
-- script 2: add copy up: t1 from r1;
>> session s script
0 currency session 1;
edit 1 accepted;
refused E03 script 2;
edit 3 accepted;
end;
-- script 2
withdraw copy
m: t9 from r1;
>> session s script
0 currency session 1;
edit 1 accepted;
refused E03 script 3;
edit 4 accepted;
end;
-- script 2: add rule up on Q (s, s): false;
>> session s script
0 currency session 1;
edit 1 accepted;
refused E03 script 2;
edit 3 accepted;
end;
-- script 2
add rule up on R (s, t):
if s.a < 1 and
t.c = 1 then false;
>> session s script
0 currency session 1;
edit 1 accepted;
refused E03 script 4;
edit 5 accepted;
end;
-- script 2: ask certain Q.a: r1 < r9;
>> session s script
0 currency session 1;
edit 1 accepted;
refused E03 script 2;
edit 3 accepted;
end;
-- script 2: ask same Q;
>> session s script
0 currency session 1;
edit 1 accepted;
refused E03 script 2;
edit 3 accepted;
end;
-- script 2: ask answers () where Q(e);
>> session s script
0 currency session 1;
edit 1 accepted;
refused E03 script 2;
edit 3 accepted;
end;
:: E04
-- script 2
add rule
up on R (s, s): if s.a = s.b then false;
>> session s script
0 currency session 1;
edit 1 accepted;
refused E04 script 3;
edit 4 accepted;
end;
-- script 2: add rule n on R (s, s): if s.a = s.b then false;
>> session s script
0 currency session 1;
edit 1 accepted;
refused E04 script 2;
edit 3 accepted;
end;
-- script 2
ask same R,
R;
>> session s script
0 currency session 1;
edit 1 accepted;
refused E04 script 3;
edit 4 accepted;
end;
:: E05
-- script 2
add rule n on R (s, t, u, v, w): if
s.a = s.b then false;
>> session s script
0 currency session 1;
edit 1 accepted;
refused E05 script 3;
edit 4 accepted;
end;
-- script 2: ask answers () where R(e, "u", _);
>> session s script
0 currency session 1;
edit 1 accepted;
refused E05 script 2;
edit 3 accepted;
end;
:: E10
-- script 2: add order R.a: r1 < r9;
>> session s script
0 currency session 1;
edit 1 accepted;
refused E10 script 2;
edit 3 accepted;
end;
-- script 2
withdraw order R.a:
t1 < r1;
>> session s script
0 currency session 1;
edit 1 accepted;
refused E10 script 3;
edit 4 accepted;
end;
-- script 2: add copy k: t9 from r9;
>> session s script
0 currency session 1;
edit 1 accepted;
refused E10 script 2;
edit 3 accepted;
end;
-- script 2
withdraw copy k: t1 from
t2;
>> session s script
0 currency session 1;
edit 1 accepted;
refused E10 script 3;
edit 4 accepted;
end;
-- script 2: ask certain R.a: r1 < r9;
>> session s script
0 currency session 1;
edit 1 accepted;
refused E10 script 2;
edit 3 accepted;
end;
:: E11
-- script 2: add order R.a: r1 < r1;
>> session s script
0 currency session 1;
edit 1 accepted;
refused E11 script 2;
edit 3 accepted;
end;
-- script 2
add order R.a:
r1
< q1;
>> session s script
0 currency session 1;
edit 1 accepted;
refused E11 script 3;
edit 5 accepted;
end;
-- script 2: withdraw order R.b: q1 < r2;
>> session s script
0 currency session 1;
edit 1 accepted;
refused E11 script 2;
edit 3 accepted;
end;
-- script 2: ask certain R.a: r2 < r2;
>> session s script
0 currency session 1;
edit 1 accepted;
refused E11 script 2;
edit 3 accepted;
end;
:: E12
-- script 2: add copy k: t1 from r1;
>> session s script
0 currency session 1;
edit 1 accepted;
refused E12 script 2;
edit 3 accepted;
end;
-- script 2
add copy
k:
t1 from r2;
>> session s script
0 currency session 1;
edit 1 accepted;
refused E12 script 4;
edit 5 accepted;
end;
:: E13
-- script 2: add copy k: t2 from r1;
>> session s script
0 currency session 1;
edit 1 accepted;
refused E13 script 2 2 1;
edit 3 accepted;
end;
-- script 2
add copy l:
t2 from r2;
>> session s script
0 currency session 1;
edit 1 accepted;
refused E13 script 3 "v w" "say ""so""";
edit 4 accepted;
end;
-- script 2: add copy l: u1 from r3;
>> session s script
0 currency session 1;
edit 1 accepted;
refused E13 script 2 "u" "";
edit 3 accepted;
end;
:: E15
-- script 2: ask answers (x) where R(e, v, _);
>> session s script
0 currency session 1;
edit 1 accepted;
refused E15 script 2;
edit 3 accepted;
end;
-- script 2: ask answers (v) where R(e, v, _) and v < x;
>> session s script
0 currency session 1;
edit 1 accepted;
refused E15 script 2;
edit 3 accepted;
end;
:: E17, at the first word of the entry
-- script 2
withdraw
order R.a:
r2 < r1;
>> session s script
0 currency session 1;
edit 1 accepted;
refused E17 script 2;
edit 5 accepted;
end;
-- script 2
withdraw rule
n;
>> session s script
0 currency session 1;
edit 1 accepted;
refused E17 script 2;
edit 4 accepted;
end;
-- script 2: withdraw rule k;
>> session s script
0 currency session 1;
edit 1 accepted;
refused E17 script 2;
edit 3 accepted;
end;
-- script 2: withdraw copy k: t1 from q1;
>> session s script
0 currency session 1;
edit 1 accepted;
refused E17 script 2;
edit 3 accepted;
end;
-- script 2: withdraw copy k: t2 from r2;
>> session s script
0 currency session 1;
edit 1 accepted;
refused E17 script 2;
edit 3 accepted;
end;
:: limits
-- script 2
add
rule n on R (s, t, u, v, w): false;
>> session s script
0 currency session 1;
edit 1 accepted;
refused limit 8 2;
edit 4 accepted;
end;
-- script 2: *1-1 add rule n on R (s): if s.a = 1{2-17  and s.a < #} then false;
>> session s script
0 currency session 1;
edit 1 accepted;
refused limit 8 2;
edit 3 accepted;
end;
-- script 2: *1-1 ask answers () where R(e, _, _){2-9  and R(e, _, _)};
>> session s script
0 currency session 1;
edit 1 accepted;
refused limit 12 2;
edit 3 accepted;
end;
:: What is wrong with a table that a question names is told with its name.
-- none.csv: attribute,earlier,later
-- script 2
ask
certain orders R from "none.csv";
>> session s script
0 currency session 1;
edit 1 accepted;
refused E02 script 3;
edit 4 accepted;
end;
-- short.csv
attribute,earlier,later
a,r1
-- script 2: ask certain orders R from "short.csv";
>> session s script
0 currency session 1;
edit 1 accepted;
refused E06 short.csv 2;
edit 3 accepted;
end;
-- head.csv: attribute,earlier
-- script 2: ask certain orders R from "head.csv";
>> session s script
0 currency session 1;
edit 1 accepted;
refused E07 head.csv 1;
edit 3 accepted;
end;
-- script 2: ask certain orders R from "o.csv" and orders T from "o.csv";
>> session s script
0 currency session 1;
edit 1 accepted;
refused E03 o.csv 2;
edit 3 accepted;
end;
-- pairs.csv
attribute,earlier,later
a,r1,r2
a,r1,q1
-- script 2: ask certain orders R from "pairs.csv";
>> session s script
0 currency session 1;
edit 1 accepted;
refused E11 pairs.csv 3;
edit 3 accepted;
end;
:: One that cannot be read ends the session.
-- script 2: ask certain orders R from "gone.csv";
>> session s script => 7 read fault gone.csv
-- script 2: ask certain R.c: r1 < r2 and orders R from "gone.csv";
>> session s script
0 currency session 1;
edit 1 accepted;
refused E03 script 2;
edit 3 accepted;
end;

== each entry is checked on what the others left
-- s: relation R from "r.csv" row id entity eid (a: int);
-- r.csv
id,eid,a
r1,x,1
r2,x,2
-- script
withdraw rule up;
add rule up on R (s, t): s before t in a;
add rule up on R (s): false;
ask consistent;
withdraw rule up;
withdraw rule up;
add rule up on R (s): false;
ask consistent;
>> session s script --brief
0 currency session 1;
refused E17 script 1;
edit 2 accepted;
refused E04 script 3;
reply 4;
currency brief 2;
verdict inconsistent;
end;
edit 5 accepted;
refused E17 script 6;
edit 7 accepted;
reply 8;
currency brief 2;
verdict inconsistent;
end;
end;
"#;

const SCRIPTS: &str = r#"
== scripts are read or refused
-- s: relation R from "r.csv" row id entity eid (a: int);
-- r.csv
id,eid,a
r1,x,1
r2,x,2
-- script
>> session s script
0 currency session 1;
end;
-- script: # nothing\
>> session s script
0 currency session 1;
end;
:: A line that begins is that of the next first word; entries may share one.
-- script
add order R.a: r1 < r2; ask

  certain R.a: r1 < r2; withdraw # as it was
order R.a:r1<r2;withdraw order R.a: r1 < r2;\
>> session s script --brief
0 currency session 1;
edit 1 accepted;
reply 1;
currency brief 2;
verdict certain;
completion;
ranking R.a of x: r1 < r2;
end;
edit 3 accepted;
refused E17 script 4;
end;
:: Words of the grammar are names.
-- script
add rule ask on R (add, rule): if add.a < rule.a then add before rule in a;
withdraw rule ask;
add rule "the rule" on R (s, t): if s.a < t.a then s before t in a;
withdraw rule "the rule";
>> session s script
0 currency session 1;
edit 1 accepted;
edit 2 accepted;
edit 3 accepted;
edit 4 accepted;
end;
-- script
add order R.a: r1 < r2;
consistent;
>> session s script => 5 error E02 script 2
-- script
add order R.a: r1 < r2, r2 < r1;
>> session s script => 5 error E02 script 1
-- script
add order R.a: r1 < r2
>> session s script => 5 error E02 script 2
-- script
order R.a: r1 < r2;
>> session s script => 5 error E02 script 1
-- script
add relation Q from "r.csv" entity eid (a: int);
>> session s script => 5 error E02 script 1
-- script
add
orders R from "o.csv";
>> session s script => 5 error E02 script 2
-- script
withdraw rule up on R (s): false;
>> session s script => 5 error E02 script 1
-- script
withdraw copy c;
>> session s script => 5 error E02 script 1
-- script
add copy c: t1 from r1, t2 from r2;
>> session s script => 5 error E02 script 1
-- script
"add" order R.a: r1 < r2;
>> session s script => 5 error E02 script 1
-- script
ask consistent;
ask certain;
>> session s script => 5 error E02 script 2
-- script
withdraw
ask consistent;
>> session s script => 5 error E02 script 2
-- script
ask forced;
>> session s script => 5 error E02 script 1

== what is refused before
-- script: ask consistent
-- s: relation R from "r.csv" row id entity eid (a: int, a: int);
>> session s script => 5 error E04 s 1
-- s: relation R from "r.csv" row id entity eid (a: int);
>> session s script => 7 read fault r.csv
>> session nothing script => 7 read fault nothing
-- r.csv
id,eid,a
r1,x,1
>> session s script => 5 error E02 script 2
>> session s nothing => 7 read fault nothing
>> session s - => 7 read fault -
-- script: ask consistent;
>> !1 session s script => 7 read fault s
>> !2 session s script => 7 read fault r.csv
>> !3 session s script => 7 read fault script
>> ^5 session s script => 8 curre\
>> session s => 2 words refused
>> session s script 1 => 2 words refused
>> session s script --csv => 2 words refused
>> session s script --verdict => 2 words refused
>> session s script --brief --brief => 2 words refused
>> session s script --budget 0 => 2 words refused
>> session s script --guide 1 => 2 words refused
:: A document of that name is a script like any other.
-- -: ask consistent;
>> session s -
0 currency session 1;
reply 1;
currency report 2;
verdict consistent;
completion;
ranking R.a of x: r1;
end;
end;
"#;

// 80 rules on 99,999 rows of an entity each and 79 on one row have 7,999,999 instances: one more is left.
const OF_INSTANCES: &str = r#"
== what a limit refuses is not there, and what is smaller is accepted
-- r.csv
id,eid,a
*1-99999 r%,x,1
-- one.csv
id,eid,a
t1,x,1
-- s
relation R from "r.csv" row id entity id (a: int);
relation T from "one.csv" row id entity eid (a: int);
*1-80 rule n% on R (s): if s.a = 2 then false;
*1-79 rule m% on T (s): if s.a = 2 then false;
-- script
add
rule big on R (s): false;
withdraw rule big;
add rule small on T (s): if s.a = 2 then false;
add rule more on T (s): false;
withdraw rule n1;
add rule big on R (s): if s.a = 2 then false;
add rule more on T (s): false;
add rule more on T (s, t, u, v, w): false;
ask certain R.a: r1 < r2;
>> session s script
0 currency session 1;
refused limit 11 1;
refused E17 script 3;
edit 4 accepted;
refused limit 11 5;
edit 6 accepted;
edit 7 accepted;
refused limit 11 8;
refused limit 8 9;
refused E11 script 10;
end;

== instances of copied rows
-- r.csv
id,eid,a
*1-99996 r%,x,1
-- two.csv
id,eid,a
t1,x,1
t2,x,1
-- s
relation R from "r.csv" row id entity id (a: int);
relation S from "two.csv" row id entity eid (a: int);
relation T from "two.csv" row id entity eid (a: int);
*1-80 rule n% on R (s): if s.a = 2 then false;
*1-159 rule m% on T (s): if s.a = 2 then false;
copy c into T (a) from S (a): t1 from t1;
copy d into S (a) from T (a): t1 from t1;
-- script
add copy c: t2 from t2;
add copy d: t2 from t2;
add copy d: t2 from t1;
withdraw copy d: t2 from t1;
withdraw copy c: t1 from t1;
add copy d: t2 from t2;
add copy c: t1 from t1;
>> session s script
0 currency session 1;
edit 1 accepted;
refused limit 11 2;
edit 3 accepted;
edit 4 accepted;
edit 5 accepted;
edit 6 accepted;
refused limit 11 7;
end;
"#;

const LIMITS: &str = r#"
== rules are limited
-- r.csv
id,eid,a
r1,x,1
r2,x,2
-- s
relation R from "r.csv" row id entity eid (a: int);
*1-256 rule n% on R (s, t): if s.a < t.a then s before t in a;
-- script
add rule last on R (s): false;
withdraw rule n256;
add rule last on R (s): false;
add rule n256 on R (s): false;
ask consistent;
>> session s script --brief
0 currency session 1;
refused limit 8 1;
edit 2 accepted;
edit 3 accepted;
refused limit 8 4;
reply 5;
currency brief 2;
verdict inconsistent;
end;
end;

== answers are limited
-- r.csv
id,a
*0-31 r%,1
-- s: relation R from "r.csv" row id entity id (a: int);
-- script
add rule one on R (s): if s.a = 2 then false;
ask
answers (a, b, c, d) where R(a, _) and R(b, _) and R(c, _) and R(d, _);
withdraw rule one;
>> session s script --brief
0 currency session 1;
edit 1 accepted;
refused limit 3 2;
edit 4 accepted;
end;
"#;

// One blank more than is read.
const OF_TEXTS: &str = r#"
== scripts are limited
-- r.csv
id,eid,a
r1,x,1
-- s: relation R from "r.csv" row id entity eid (a: int);
-- script
*1-1 {1-16777216  }\
>> session s script
0 currency session 1;
end;
-- script
*1-1 {1-16777217  }\
>> session s script => 6 limit 1
"#;

// One line more than is read.
const OF_TABLES: &str = r#"
== tables that questions name are limited
-- r.csv
id,eid,a
r1,x,1
-- s: relation R from "r.csv" row id entity eid (a: int);
-- t.csv
*1-1 {1-67108865 |}\
-- script
add rule never on R (s): if s.a = 2 then false;

ask certain orders R from "t.csv";
withdraw rule never;
>> session s script
0 currency session 1;
edit 1 accepted;
refused limit 2 3;
edit 4 accepted;
end;
"#;

#[test]
fn sessions_are_told(rt: HostRuntime) -> Result<(), Fail> {
    expect_played(&rt, ROWS)
}

#[test]
fn reports_are_kept(rt: HostRuntime) -> Result<(), Fail> {
    expect_played(&rt, KEPT)
}

#[test]
fn entries_are_refused(rt: HostRuntime) -> Result<(), Fail> {
    expect_played(&rt, REFUSED)
}

#[test]
fn scripts_are_read_or_refused(rt: HostRuntime) -> Result<(), Fail> {
    expect_played(&rt, SCRIPTS)
}

#[test]
fn edits_are_limited(rt: HostRuntime) -> Result<(), Fail> {
    expect_played(&rt, OF_INSTANCES)
}

#[test]
fn entries_are_limited(rt: HostRuntime) -> Result<(), Fail> {
    expect_played(&rt, LIMITS)
}

#[test]
fn scripts_are_limited(rt: HostRuntime) -> Result<(), Fail> {
    expect_played(&rt, OF_TEXTS)
}

#[test]
fn tables_of_questions_are_limited(rt: HostRuntime) -> Result<(), Fail> {
    expect_played(&rt, OF_TABLES)
}

#[test]
fn bytes_that_are_no_text_are_refused(rt: HostRuntime) -> Result<(), Fail> {
    let documents = with(2, b"ask consistent;\n\xff");
    let (ended, sink) = asked(rt.alloc(), documents, &["currency", "session", "s", "q"])?;
    assert_eq!(&rt; sink.written(), "error E01 q 2\n".as_bytes());
    assert_eq!(&rt; ended, 5);
    Ok(())
}

#[test]
fn a_script_may_be_long(rt: HostRuntime) -> Result<(), Fail> {
    let mut script = Vec::new(rt.alloc());
    for _ in 0..50_000 {
        script.extend_from_slice(b"add order R.a: r1 < r2;\nwithdraw order R.a: r1 < r2;\n")?;
    }
    let documents = with(2, script.as_slice());
    let (ended, sink) = asked(rt.alloc(), documents, &["currency", "session", "s", "q"])?;
    assert_eq!(&rt; ended, 0);
    let end = "edit 99999 accepted;\nedit 100000 accepted;\nend;\n";
    assert!(&rt; sink.written().ends_with(end.as_bytes()));
    Ok(())
}
