//! Questions that are refused, each with its line.

use crate::documents::expect_played;
use std::test::Fail;

const ROWS: &str = r#"
== questions are refused
:: no question, more than one, and words that are none of it
-- s: relation R from "r.csv" row id entity eid (a: int);
-- r.csv
id,eid,a
r1,x,1
r2,x,2
r3,x,3
-- q
>> ask s q => 5 error E02 q 1
-- q

# none
>> ask s q => 5 error E02 q 3
-- q
consistent\
>> ask s q => 5 error E02 q 1
-- q: consistent
>> ask s q => 5 error E02 q 2
-- q
consistent;
consistent;\
>> ask s q => 5 error E02 q 2
-- q
consistent certain;\
>> ask s q => 5 error E02 q 1
-- q
"consistent";\
>> ask s q => 5 error E02 q 1
-- q
order R.a: r1 < r2;\
>> ask s q => 5 error E02 q 1
-- q
answer () where R(x, _);\
>> ask s q => 5 error E02 q 1
-- q
"answers" () where R(x, _);\
>> ask s q => 5 error E02 q 1
-- q
consistent;
answers () where R(x, _);\
>> ask s q => 5 error E02 q 2
:: pairs
-- q: certain
>> ask s q => 5 error E02 q 2
-- q: certain R.a: r1 < r2
>> ask s q => 5 error E02 q 2
-- q
certain R.a: r1 < r2 and
;\
>> ask s q => 5 error E02 q 2
-- q
certain
and R.a: r1 < r2;\
>> ask s q => 5 error E02 q 2
-- q
certain R.a: r1 < r2,
;\
>> ask s q => 5 error E02 q 2
-- q
certain R.a: r1 < r2
R.a: r2 < r3;\
>> ask s q => 5 error E02 q 2
-- q
certain orders R
"o.csv";\
>> ask s q => 5 error E02 q 2
-- q
certain orders R from
o;\
>> ask s q => 5 error E02 q 2
-- q
certain orders R from "o.csv"
, R.a: r1 < r2;\
>> ask s q => 5 error E02 q 2
-- q
certain orders
.a: r1 < r2;\
>> ask s q => 5 error E02 q 2
-- q
certain R.a: r1 < r2;
same R;\
>> ask s q => 5 error E02 q 2
-- q
certain R.a: r1 < r2 and
answers;\
>> ask s q => 5 error E02 q 2
:: relations
-- q
same;\
>> ask s q => 5 error E02 q 1
-- q: same
>> ask s q => 5 error E02 q 2
-- q: same R
>> ask s q => 5 error E02 q 2
-- q
same R S;\
>> ask s q => 5 error E02 q 1
-- q
same R,
;\
>> ask s q => 5 error E02 q 2
-- q
same
orders;\
>> ask s q => 5 error E02 q 2
-- q
same R
and S;\
>> ask s q => 5 error E02 q 2
-- q
same R, S;
;\
>> ask s q => 5 error E02 q 2
:: queries
-- q
# it
answers\
>> ask s q => 5 error E02 q 2
-- q
answers
;\
>> ask s q => 5 error E02 q 2
-- q
answers ()
;\
>> ask s q => 5 error E02 q 2
-- q
answers () where
;\
>> ask s q => 5 error E02 q 2
-- q: answers () where R(x, _)
>> ask s q => 5 error E02 q 2
-- q
answers () where R(x, _)
, R(x, _);\
>> ask s q => 5 error E02 q 2
-- q
answers () where R(x, _);
answers () where R(x, _);\
>> ask s q => 5 error E02 q 2
-- q
answers
x where R(x, _);\
>> ask s q => 5 error E02 q 2
-- q
answers (x,
) where R(x, _);\
>> ask s q => 5 error E02 q 2
-- q
answers (
_) where R(x, _);\
>> ask s q => 5 error E02 q 2
-- q
answers (
"x") where R(x, _);\
>> ask s q => 5 error E02 q 2
-- q
answers (x
y) where R(x, y);\
>> ask s q => 5 error E02 q 2
-- q
answers (x)
R(x, _);\
>> ask s q => 5 error E02 q 2
-- q
answers (x) where x
= 1 and R(x, _);\
>> ask s q => 5 error E02 q 2
-- q
answers () where R(
);\
>> ask s q => 5 error E02 q 2
-- q
answers () where R(x,
);\
>> ask s q => 5 error E02 q 2
-- q
answers () where R(x,
if);\
>> ask s q => 5 error E02 q 2
-- q
answers () where R(x, _) and
;\
>> ask s q => 5 error E02 q 2
-- q
answers () where R(x, _) or
;\
>> ask s q => 5 error E02 q 2
-- q
answers () where R(x, _) and 1a
= x;\
>> ask s q => 5 error E02 q 2
-- q
answers () where R(x, _) and -5
(x);\
>> ask s q => 5 error E02 q 2
-- q
answers () where R(x, _) and x =
_;\
>> ask s q => 5 error E02 q 2
-- q
answers () where R(x, _) and
if(x);\
>> ask s q => 5 error E02 q 2
:: what is read: words of the grammar, strings and numbers are names of relations where one may stand
-- q
certain
and.a: r1 < certain;\
>> ask s q => 5 error E03 q 2
-- q
certain
"orders".a: 1 < 2
and orders from from "";\
>> ask s q => 5 error E03 q 2
-- q
certain R.a: r1 < r2
and orders from from "";\
>> ask s q => 5 error E03 q 2
-- q
same same;\
>> ask s q => 5 error E03 q 1
-- q
same
R,
"a ""b""";\
>> ask s q => 5 error E03 q 3
-- q
answers () where
answers(answers);\
>> ask s q => 5 error E03 q 2
-- q
answers (x) where
R(x, y)
and y > 3
or S(x) # so
;\
>> ask s q => 5 error E03 q 4
-- q
answers () where R(x, _) or
or(x) and and(x);\
>> ask s q => 5 error E03 q 2
-- q
answers () where R(x, _) and
and(x);\
>> ask s q => 5 error E03 q 2
-- q
answers () where R(x, _) and
_(x);\
>> ask s q => 5 error E03 q 2
-- q
answers () where R(x, _) and
1a(x);\
>> ask s q => 5 error E03 q 2
-- q
answers () where R(x, _) and
9223372036854775808(x);\
>> ask s q => 5 error E03 q 2
-- q
answers (x, where)
where
"a b"(x, _, 5, "t");\
>> ask s q => 5 error E03 q 3
:: the first of two names, and the places of an atom before what stands at them
-- q
answers () where R(e, _) and
T(x) or
U(x);\
>> ask s q => 5 error E03 q 2
-- q
answers () where
R(
1, x);\
>> ask s q => 5 error E05 q 3
-- q
answers () where
R(
1, x, y);\
>> ask s q => 5 error E05 q 2
:: kinds of what stands in the head and in a further disjunct
-- q
answers (e, x) where R(e, x) or
R(x,
e);\
>> ask s q => 5 error E05 q 2
-- q
answers (x) where R(_, x) or
R(_, _) and x = "a" and R(
x, _);\
>> ask s q => 5 error E05 q 3
-- q
answers () where R(e, x) and
z < 1 and
R(e, "a");\
>> ask s q => 5 error E05 q 3
-- q
answers () where R(e, x) and
x = e;\
>> ask s q => 5 error E05 q 2
:: variables that stand in no atom
-- q
answers () where R(e, x) and
x =
z;\
>> ask s q => 5 error E15 q 3
-- q
answers () where R(e, x) and
y =
z;\
>> ask s q => 5 error E15 q 2
-- q
answers (e,
y,
z) where R(e, z) or R(e, y) and
v = 1;\
>> ask s q => 5 error E15 q 2
-- q
answers (x) where R(e, x) and
x = v or R(
_, _);\
>> ask s q => 5 error E15 q 1
"#;

#[test]
fn questions_are_refused(rt: HostRuntime) -> Result<(), Fail> {
    expect_played(&rt, ROWS)
}
