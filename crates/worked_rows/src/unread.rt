//! Texts that are read or not: every form of a specification.

use crate::documents::expect_played;
use std::test::Fail;

const ROWS: &str = r##"
== other texts are refused
-- s
relation R from "r.csv" row id entity eid (a: int);
rule n on R (s,
_): false;\
-- r.csv
id,eid,a
r1,x,1
r2,x,2
r3,x,3
-- q: consistent;
-- p
currency report 1;
verdict consistent;
completion;
ranking R.a of x: r2 < r1 < r3;
end;
>> verify s q p => 5 error E02 s 3
-- s
relation R from "r.csv" row id entity eid (a: int);
rule n on R (s,
1): false;\
>> verify s q p => 5 error E02 s 3
-- s
relation R from "r.csv" row id entity eid (a: int);
rule n on R (s,
1s): false;\
>> verify s q p => 5 error E02 s 3
-- s
relation R from "r.csv" row id entity eid (a: int);
rule n on R (s,
if): false;\
>> verify s q p => 5 error E02 s 3
-- s
relation R from "r.csv" row id entity eid (a: int);
rule n on R (s,
orders): false;\
>> verify s q p => 5 error E02 s 3
-- s
relation R from "r.csv" row id entity eid (a: int);
rule n on R (
"s"): false;\
>> verify s q p => 5 error E02 s 3
-- s
relation R from "r.csv" row id entity eid (a: int);
rule n on R (
): false;\
>> verify s q p => 5 error E02 s 3
-- s
relation R from "r.csv" row id entity eid (a: int);
rule n on R
: false;\
>> verify s q p => 5 error E02 s 3
-- s
relation R from "r.csv" row id entity eid (a: int);
rule n on R (s)
;\
>> verify s q p => 5 error E02 s 3
-- s
relation R from "r.csv" row id entity eid (a: int);
rule n on R (s):
;\
>> verify s q p => 5 error E02 s 3
-- s
relation R from "r.csv" row id entity eid (a: int);
rule n on R (s): if
false;\
>> verify s q p => 5 error E02 s 3
-- s
relation R from "r.csv" row id entity eid (a: int);
rule n on R (s): if s.a = 1
;\
>> verify s q p => 5 error E02 s 3
-- s
relation R from "r.csv" row id entity eid (a: int);
rule n on R (s): if s.a = 1
false;\
>> verify s q p => 5 error E02 s 3
-- s
relation R from "r.csv" row id entity eid (a: int);
rule n on R (s): if s.a = 1 then
;\
>> verify s q p => 5 error E02 s 3
-- s
relation R from "r.csv" row id entity eid (a: int);
rule n on R (s): if s.a = 1 and then
false;\
>> verify s q p => 5 error E02 s 3
-- s
relation R from "r.csv" row id entity eid (a: int);
rule n on R (s): if s.a
! s.b then false;\
>> verify s q p => 5 error E02 s 3
-- s
relation R from "r.csv" row id entity eid (a: int);
rule n on R (s): if s.a <
9223372036854775808 then false;\
>> verify s q p => 5 error E02 s 3
-- s
relation R from "r.csv" row id entity eid (a: int);
rule n on R (s): if s.a < 1 and
1a < s.a then false;\
>> verify s q p => 5 error E02 s 3
-- s
relation R from "r.csv" row id entity eid (a: int);
rule n on R (s): if s.a <
-x then false;\
>> verify s q p => 5 error E02 s 3
-- s
relation R from "r.csv" row id entity eid (a: int);
rule n on R (s, t): if 1
before t in a then false;\
>> verify s q p => 5 error E02 s 3
-- s
relation R from "r.csv" row id entity eid (a: int);
rule n on R (s, t): if s
= t then false;\
>> verify s q p => 5 error E02 s 3
-- s
relation R from "r.csv" row id entity eid (a: int);
rule n on R (s, t): s before t
;\
>> verify s q p => 5 error E02 s 3
-- s
relation R from "r.csv" row id entity eid (a: int);
rule n on R (s, t): s before t in
;\
>> verify s q p => 5 error E02 s 3
-- s
relation R from "r.csv" row id entity eid (a: int);
rule n on R (s, t): false
before s in a;\
>> verify s q p => 5 error E02 s 3
-- s
relation R from "r.csv" row id entity eid (a: int);
rule n on R (s, t): false
>> verify s q p => 5 error E02 s 3
-- s
relation R from "r.csv" row id entity eid (a: int);
order R.a: r1 < r2
rule\
>> verify s q p => 5 error E02 s 3
-- s
relation R from "r.csv" row id entity eid (a: int);
order R.a: r1 < r2\
>> verify s q p => 5 error E02 s 2
-- s
relation R from "r.csv" row id entity eid (a: int);
order R.a: r1 <


>> verify s q p => 5 error E02 s 4
-- s
relation R from "r.csv" row id entity eid (a: int);
order R.a: r1 < r2, ;\
>> verify s q p => 5 error E02 s 2
-- s
relation R from "r.csv" row id entity eid (a: int);
order R.a: r1 < r2;
;\
>> verify s q p => 5 error E02 s 3
-- s
relation R from "r.csv" row id entity eid (a: int);
order R.a: r1 < r2; consistent;\
>> verify s q p => 5 error E02 s 2
-- s
relation R from "r.csv" row id entity eid (a: int);
order
if.a: r1 < r2;\
>> verify s q p => 5 error E02 s 3
-- s
relation R from "r.csv" row id entity eid (a: int);
order R.false: r1 < r2;\
>> verify s q p => 5 error E02 s 2
-- s
relation R from "r.csv" row id entity eid (a: int);
order R.a: r1 < orders;\
>> verify s q p => 5 error E02 s 2
-- s
relation R from "r.csv" row id entity eid (a: int);
order R.a: r1 < -1;\
>> verify s q p => 5 error E02 s 2
-- s
relation R from "r.csv" row id entity eid (a: int);
order R.a: r1 ! r2;\
>> verify s q p => 5 error E02 s 2
-- s
relation R from "r.csv" row id entity eid (a: int);
order R.a:
r1 < "r2;
>> verify s q p => 5 error E02 s 3
-- s
relation R from "r.csv" row id entity eid (a: int);
order R.a: r1 <= r2;\
>> verify s q p => 5 error E02 s 2
-- s
relation R from "r.csv" row id entity eid (a: int);
"order" R.a: r1 < r2;\
>> verify s q p => 5 error E02 s 2
-- s
relation R from "r.csv" row id entity eid (a: int);
relation T from r entity e (a: int);\
>> verify s q p => 5 error E02 s 2
-- s
relation R from "r.csv" row id entity eid (a: int);
relation T from "r" entity e ();\
>> verify s q p => 5 error E02 s 2
-- s
relation R from "r.csv" row id entity eid (a: int);
relation T from "r" entity e (a: real);\
>> verify s q p => 5 error E02 s 2
-- s
relation R from "r.csv" row id entity eid (a: int);
relation T from "r"
entity e row i (a: int);\
>> verify s q p => 5 error E02 s 3
-- s
relation R from "r.csv" row id entity eid (a: int);
copy
into R (a) into R (a) using "c";\
>> verify s q p => 5 error E02 s 3
-- s
relation R from "r.csv" row id entity eid (a: int);
copy c into R (
) from R (a) using "c";\
>> verify s q p => 5 error E02 s 3
-- s
relation R from "r.csv" row id entity eid (a: int);
copy c into R
from R (a) using "c";\
>> verify s q p => 5 error E02 s 3
-- s
relation R from "r.csv" row id entity eid (a: int);
copy c into R (a)
R (a) using "c";\
>> verify s q p => 5 error E02 s 3
-- s
relation R from "r.csv" row id entity eid (a: int);
copy c into R (a) from R
using "c";\
>> verify s q p => 5 error E02 s 3
-- s
relation R from "r.csv" row id entity eid (a: int);
copy c into R (a) from R (a)
;\
>> verify s q p => 5 error E02 s 3
-- s
relation R from "r.csv" row id entity eid (a: int);
copy c into R (a) from R (a)
r1 from r1;\
>> verify s q p => 5 error E02 s 3
-- s
relation R from "r.csv" row id entity eid (a: int);
copy c into R (a) from R (a) using
c;\
>> verify s q p => 5 error E02 s 3
-- s
relation R from "r.csv" row id entity eid (a: int);
copy c into R (a) from R (a): r1
r1;\
>> verify s q p => 5 error E02 s 3
-- s
relation R from "r.csv" row id entity eid (a: int);
copy c into R (a) from R (a):
;\
>> verify s q p => 5 error E02 s 3
-- s
relation R from "r.csv" row id entity eid (a: int);
copy c into R (a) from R (a): r1 from r1,
;\
>> verify s q p => 5 error E02 s 3
-- s
relation R from "r.csv" row id entity eid (a: int);
copy c into R (a) from R (a): r1 from r1
using "c";\
>> verify s q p => 5 error E02 s 3
-- s
relation R from "r.csv" row id entity eid (a: int);
copy c into R (a) from R (a) using "c"
: r1 from r1;\
>> verify s q p => 5 error E02 s 3
-- s
relation R from "r.csv" row id entity eid (a: int);
copy c into R (a) from R (a) using "c"
>> verify s q p => 5 error E02 s 3
-- s
relation R from "r.csv" row id entity eid (a: int);
orders R
"o";\
>> verify s q p => 5 error E02 s 3
-- s
relation R from "r.csv" row id entity eid (a: int);
orders R.
a: r1 < r2;\
>> verify s q p => 5 error E02 s 2
-- s
relation R from "r.csv" row id entity eid (a: int);
order R.a: r1 < é;\
>> verify s q p => 5 error E02 s 2
-- s
relation R from "r.csv" row id entity eid (a: int);
order R.a: r1 < r2;
-\
>> verify s q p => 5 error E02 s 3
-- s
relation R from "r.csv" row id entity eid (a: int);
order R.a: r1 < r2;
!\
>> verify s q p => 5 error E02 s 3

== specifications are read
-- s
-- q: consistent;
-- p
currency report 1; verdict consistent; completion; end;\
>> verify s q p => 0 accepted consistent
-- s
 
# nothing\
>> verify s q p => 0 accepted consistent
:: A field of the header serves two columns, of two kinds; the last record has no end.
-- s
relation R from "r.csv" row id entity n (n: int);
rule m on R (s): if s.n != 5 and s.n != 0 then false;\
-- r.csv
n,id
05,""
-0,r2\
-- p
currency report 1; verdict consistent; completion;
ranking R.n of 05: ""; ranking R.n of "-0": r2; end;\
>> verify s q p => 0 accepted consistent
:: Words of the grammar are names and variables where one may stand.
-- s
relation relation from "r.csv"
entity row (text: text, int: int);
order relation.text: 1 < 2;
rule rule on relation (before, then):
if before before then in int and then.int > 007 then false;
rule on on relation (Z1_, _1): if Z1_.text = "if" then false;\
-- r.csv
int,row,text
1,x,p
7,x,q
-- p
currency report 1; verdict consistent; completion;
ranking relation.text of x: 1 < 2; ranking relation.int of x: 1 < 2; end;\
>> verify s q p => 0 accepted consistent
:: Names are quoted, blanks are left out, and a string goes over lines.
-- s
relation"R x"from"r.csv"row id entity"if"("b ""c""":int);
rule"a""#
b"on"R x"(s):if s."b ""c""">=2 and"-3"<="a"then false;\
-- r.csv
id,if,"b ""c"""
r1,é,1
-- p
currency report 1; verdict consistent; completion;
ranking "R x"."b ""c""" of "é": r1; end;\
>> verify s q p => 0 accepted consistent
"##;

#[test]
fn texts_are_read_or_refused(rt: HostRuntime) -> Result<(), Fail> {
    expect_played(&rt, ROWS)
}
