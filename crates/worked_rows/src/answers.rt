//! Reports on the answers of a query.

use crate::documents::expect_played;
use std::test::Fail;

const ROWS: &str = r#"
== checks come in their order
-- s
relation R from "r.csv" row id entity eid (a: int);
order R.a: r1 < r2;
-- r.csv
id,eid,a
r1,x,1
r2,x,2
r3,y,2
r4,z,3
r5,z,4
-- q: answers (e, v) where R(e, v) and v >= 2;
-- p
currency report 2;
verdict answers;
answer ("x", 2);
answer ("y", 2);
completion;
ranking R.a of x: r1 < r2;
ranking R.a of y: r3;
ranking R.a of z: r4 < r5;
completion;
ranking R.a of z: r5 < r4;
log;
statement before 1 1 1 2;
statement top 1 1 2;
statement top 1 1 3;
statement last 1 1 2;
statement last 1 1 3;
statement answer ("x", 2);
statement answer ("y", 2);
axiom given 1 1 1 2: 1;
axiom top 1 1 2: 2 -1;
axiom last 1 1 2: -2 4;
axiom top 1 1 3: 3;
axiom last 1 1 3: -3 5;
axiom match 1 1 ("x", 2): 6 -4;
axiom match 1 2 ("y", 2): 7 -5;
derive 6 by 1 2 3 6;
derive 7 by 4 5 7;
end;
>> verify s q p => 0 accepted answers
:: no answer is printed, though there are two
-- p 3-4
>> verify s q p => 4 refused V3 p 2
-- p 3-4
-- p 11-27
>> verify s q p => 4 refused V3 p 2
-- p 5-10
>> verify s q p => 4 refused V3 p 2
:: the completion has a third answer
-- p 9-10
>> verify s q p => 4 refused V3 p 2
-- p 5-10
answer ("z", 4);
completion;
ranking R.a of x: r1 < r2;
ranking R.a of y: r3;
ranking R.a of z: r4 < r5;



>> verify s q p => 4 refused V3 p 5
-- p 5-8
>> verify s q p => 4 refused V1 p 9
-- p 11-27
>> verify s q p => 4 refused V3 p 3
-- p 4: answer ("x", 2);
-- p 6: ranking R.a of x: r2 < r1;
>> verify s q p => 4 refused V3 p 2
-- p 4: answer ("x", 2);
-- p 24: axiom match 1 1 ("x", 2): 6;
>> verify s q p => 4 refused V3 p 2
-- p 6: ranking R.a of x: r2 < r1;
-- p 24: axiom match 1 1 ("x", 2): 6;
>> verify s q p => 4 refused V1 p 5
-- p 5-10
-- p 24: axiom match 1 1 ("x", 2): 6;
>> verify s q p => 4 refused V2 p 24
-- p 5-10
-- p 26
>> verify s q p => 4 refused V3 p 2
-- p 9-10
-- p 27
>> verify s q p => 4 refused V3 p 4
-- p 3
-- p 27
>> verify s q p => 4 refused V3 p 4

== each line is emptied
-- s
relation R from "r.csv" row id entity eid (a: int);
order R.a: r1 < r2;
-- r.csv
id,eid,a
r1,x,1
r2,x,2
r3,y,2
r4,z,3
r5,z,4
-- q: answers (e, v) where R(e, v) and v >= 2;
-- p

verdict answers;
answer ("x", 2);
answer ("y", 2);
completion;
ranking R.a of x: r1 < r2;
ranking R.a of y: r3;
ranking R.a of z: r4 < r5;
completion;
ranking R.a of z: r5 < r4;
log;
statement before 1 1 1 2;
statement top 1 1 2;
statement top 1 1 3;
statement last 1 1 2;
statement last 1 1 3;
statement answer ("x", 2);
statement answer ("y", 2);
axiom given 1 1 1 2: 1;
axiom top 1 1 2: 2 -1;
axiom last 1 1 2: -2 4;
axiom top 1 1 3: 3;
axiom last 1 1 3: -3 5;
axiom match 1 1 ("x", 2): 6 -4;
axiom match 1 2 ("y", 2): 7 -5;
derive 6 by 1 2 3 6;
derive 7 by 4 5 7;
end;
>> verify s q p => 5 error E02 p 2
-- p 1-2
currency report 2;


>> verify s q p => 5 error E02 p 3
-- p 1: currency report 2;
-- p 3
>> verify s q p => 4 refused V3 p 2
-- p 1: currency report 2;
-- p 4
>> verify s q p => 4 refused V3 p 2
-- p 1: currency report 2;
-- p 5
>> verify s q p => 5 error E02 p 6
-- p 1: currency report 2;
-- p 6
>> verify s q p => 4 refused V1 p 5
-- p 1: currency report 2;
-- p 7
>> verify s q p => 4 refused V1 p 5
-- p 1: currency report 2;
-- p 8
>> verify s q p => 4 refused V1 p 5
-- p 1: currency report 2;
-- p 9
>> verify s q p => 5 error E04 p 10
-- p 1: currency report 2;
-- p 10
>> verify s q p => 4 refused V3 p 2
-- p 1: currency report 2;
-- p 11
>> verify s q p => 5 error E02 p 12
-- p 1: currency report 2;
-- p 12
>> verify s q p => 5 error E03 p 25
-- p 1: currency report 2;
-- p 13
>> verify s q p => 5 error E03 p 25
-- p 1: currency report 2;
-- p 14
>> verify s q p => 5 error E03 p 25
-- p 1: currency report 2;
-- p 15
>> verify s q p => 5 error E03 p 25
-- p 1: currency report 2;
-- p 16
>> verify s q p => 5 error E03 p 25
-- p 1: currency report 2;
-- p 17
>> verify s q p => 5 error E03 p 25
-- p 1: currency report 2;
-- p 18
>> verify s q p => 5 error E03 p 25
-- p 1: currency report 2;
-- p 19
>> verify s q p => 4 refused V2 p 26
-- p 1: currency report 2;
-- p 20
>> verify s q p => 4 refused V2 p 26
-- p 1: currency report 2;
-- p 21
>> verify s q p => 4 refused V2 p 26
-- p 1: currency report 2;
-- p 22
>> verify s q p => 4 refused V2 p 26
-- p 1: currency report 2;
-- p 23
>> verify s q p => 4 refused V2 p 26
-- p 1: currency report 2;
-- p 24
>> verify s q p => 4 refused V2 p 26
-- p 1: currency report 2;
-- p 25
>> verify s q p => 4 refused V2 p 27
-- p 1: currency report 2;
-- p 26
>> verify s q p => 4 refused V3 p 3
-- p 1: currency report 2;
-- p 27
>> verify s q p => 4 refused V3 p 4
-- p 1: currency report 2;
-- p 28
>> verify s q p => 5 error E02 p 29
-- p 1: currency report 2;
>> verify s q p => 0 accepted answers

== lines are forged
-- s
relation R from "r.csv" row id entity eid (a: int);
order R.a: r1 < r2;
-- r.csv
id,eid,a
r1,x,1
r2,x,2
r3,y,2
r4,z,3
r5,z,4
-- q: answers (e, v) where R(e, v) and v >= 2;
-- p
currency report 1;
verdict answers;
answer ("x", 2);
answer ("y", 2);
completion;
ranking R.a of x: r1 < r2;
ranking R.a of y: r3;
ranking R.a of z: r4 < r5;
completion;
ranking R.a of z: r5 < r4;
log;
statement before 1 1 1 2;
statement top 1 1 2;
statement top 1 1 3;
statement last 1 1 2;
statement last 1 1 3;
statement answer ("x", 2);
statement answer ("y", 2);
axiom given 1 1 1 2: 1;
axiom top 1 1 2: 2 -1;
axiom last 1 1 2: -2 4;
axiom top 1 1 3: 3;
axiom last 1 1 3: -3 5;
axiom match 1 1 ("x", 2): 6 -4;
axiom match 1 2 ("y", 2): 7 -5;
derive 6 by 1 2 3 6;
derive 7 by 4 5 7;
end;
>> verify s q p => 4 refused V1 p 9
-- p 1-2
currency report 2;
verdict same;
>> verify s q p => 5 error E02 p 3
-- p 1-2
currency report 2;
verdict consistent;
>> verify s q p => 5 error E02 p 3
-- p 1-2
currency report 2;
verdict not answers;
>> verify s q p => 5 error E02 p 2
:: one that only the first completion has, that only the second has, and that none has
-- p 1: currency report 2;
-- p 4
answer ("y", 2);
answer ("z", 4);
>> verify s q p => 4 refused V3 p 5
-- p 1: currency report 2;
-- p 4
answer ("y", 2);
answer ("z", 3);
>> verify s q p => 4 refused V3 p 5
-- p 1: currency report 2;
-- p 4
answer ("y", 2);
answer ("z", 9);
>> verify s q p => 4 refused V3 p 5
-- p 1-2
currency report 2;
verdict answers;
answer ();
>> verify s q p => 4 refused V3 p 3
-- p 1: currency report 2;
-- p 3: answer ("x", 2, 2);
>> verify s q p => 4 refused V3 p 3
:: out of order, and one twice
-- p 1: currency report 2;
-- p 4: answer ("w", 2);
>> verify s q p => 4 refused V3 p 2
-- p 1: currency report 2;
-- p 4: answer (2, "y");
>> verify s q p => 4 refused V3 p 2
-- p 1: currency report 2;
-- p 3: answer ("y", 2);
>> verify s q p => 4 refused V3 p 2
-- p 1: currency report 2;
-- p 4: answer ("x", 2);
>> verify s q p => 4 refused V3 p 2
-- p 1-2
currency report 2;
verdict answers;
answer ("x", 2);
>> verify s q p => 4 refused V3 p 2
-- p 1: currency report 2;
-- p 3: answer (x, 2);
>> verify s q p => 5 error E02 p 3
-- p 1: currency report 2;
-- p 3: answer "x", 2;
>> verify s q p => 5 error E02 p 3
-- p 1: currency report 2;
-- p 6: ranking R.a of x: r2 < r1;
>> verify s q p => 4 refused V1 p 5
-- p 1: currency report 2;
-- p 10: ranking R.a of x: r2 < r1;
>> verify s q p => 4 refused V1 p 9
-- p 1: currency report 2;
-- p 10: ranking R.a of z: r4 < r5;
>> verify s q p => 4 refused V3 p 2
:: the unit is of a tuple that is not the answer
-- p 1: currency report 2;
-- p 17: statement answer ("x", 1);
>> verify s q p => 4 refused V2 p 24
-- p 1: currency report 2;
-- p 17: statement answer (2, "x");
>> verify s q p => 4 refused V2 p 24
-- p 1: currency report 2;
-- p 17: statement answer ("y", 2);
>> verify s q p => 5 error E04 p 18
-- p 1: currency report 2;
-- p 18: statement answer ("w", 2);
>> verify s q p => 5 error E04 p 18
-- p 1: currency report 2;
-- p 24: axiom match 1 1 ("x", 2): -4 6;
>> verify s q p => 0 accepted answers
-- p 1: currency report 2;
-- p 24: axiom match 1 1 ("x", 2): 6 -4 6;
>> verify s q p => 0 accepted answers
-- p 1: currency report 2;
-- p 24: demand match 1 1 ("x", 2): 6 -4;
>> verify s q p => 0 accepted answers
:: a literal that is missing, too many, of another statement, or of the other sign
-- p 1: currency report 2;
-- p 24: axiom match 1 1 ("x", 2): 6;
>> verify s q p => 4 refused V2 p 24
-- p 1: currency report 2;
-- p 24: axiom match 1 1 ("x", 2): -4;
>> verify s q p => 4 refused V2 p 24
-- p 1: currency report 2;
-- p 24: axiom match 1 1 ("x", 2):;
>> verify s q p => 4 refused V2 p 24
-- p 1: currency report 2;
-- p 24: axiom match 1 1 ("x", 2): 6 -4 -2;
>> verify s q p => 4 refused V2 p 24
-- p 1: currency report 2;
-- p 24: axiom match 1 1 ("x", 2): 7 -4;
>> verify s q p => 4 refused V2 p 24
-- p 1: currency report 2;
-- p 24: axiom match 1 1 ("x", 2): 6 -5;
>> verify s q p => 4 refused V2 p 24
-- p 1: currency report 2;
-- p 24: axiom match 1 1 ("x", 2): 6 -2;
>> verify s q p => 4 refused V2 p 24
-- p 1: currency report 2;
-- p 24: axiom match 1 1 ("x", 2): 6 4;
>> verify s q p => 4 refused V2 p 24
-- p 1: currency report 2;
-- p 24: axiom match 1 1 ("x", 2): -6 -4;
>> verify s q p => 4 refused V2 p 24
:: another entity's name, and a value of none of the entity's rows
-- p 1: currency report 2;
-- p 24: axiom match 1 2 ("x", 2): 6 -5;
>> verify s q p => 4 refused V2 p 24
-- p 1: currency report 2;
-- p 24: axiom match 1 1 ("y", 2): 7 -4;
>> verify s q p => 4 refused V2 p 24
-- p 1: currency report 2;
-- p 24: axiom match 1 1 ("x", 3): 6 -4;
>> verify s q p => 4 refused V2 p 24
-- p 1: currency report 2;
-- p 24: axiom match 1 1 ("x", "2"): 6 -4;
>> verify s q p => 4 refused V2 p 24
-- p 1: currency report 2;
-- p 24: axiom match 1 1 (2, "x"): 6 -4;
>> verify s q p => 4 refused V2 p 24
:: entities, values and disjuncts that are not there, or too many
-- p 1: currency report 2;
-- p 24: axiom match 1 4 ("x", 2): 6 -4;
>> verify s q p => 4 refused V2 p 24
-- p 1: currency report 2;
-- p 24: axiom match 2 1 ("x", 2): 6 -4;
>> verify s q p => 4 refused V2 p 24
-- p 1: currency report 2;
-- p 24: axiom match 1 ("x", 2): 6 -4;
>> verify s q p => 4 refused V2 p 24
-- p 1: currency report 2;
-- p 24: axiom match 1 1 1 ("x", 2): 6 -4;
>> verify s q p => 4 refused V2 p 24
-- p 1: currency report 2;
-- p 24: axiom match 1 1 ("x"): 6 -4;
>> verify s q p => 4 refused V2 p 24
-- p 1: currency report 2;
-- p 24: axiom match 1 1 ("x", 2, 2): 6 -4;
>> verify s q p => 4 refused V2 p 24
-- p 1: currency report 2;
-- p 24: axiom match 1 1 (): 6 -4;
>> verify s q p => 4 refused V2 p 24
-- p 1: currency report 2;
-- p 24: axiom match 4294967295 1 ("x", 2): 6 -4;
>> verify s q p => 4 refused V2 p 24
-- p 1: currency report 2;
-- p 24: axiom match 1 4294967295 ("x", 2): 6 -4;
>> verify s q p => 4 refused V2 p 24
-- p 1: currency report 2;
-- p 24: axiom match 1 4294967296 ("x", 2): 6 -4;
>> verify s q p => 5 error E02 p 24
-- p 1: currency report 2;
-- p 24: axiom match 0 1 ("x", 2): 6;
>> verify s q p => 5 error E02 p 24
-- p 1: currency report 2;
-- p 24: axiom match 1 0 ("x", 2): 6;
>> verify s q p => 5 error E02 p 24
-- p 1: currency report 2;
-- p 24: axiom match ("x", 2): 6;
>> verify s q p => 5 error E02 p 24
-- p 1: currency report 2;
-- p 24: axiom match 1 1: 6 -4;
>> verify s q p => 5 error E02 p 24
-- p 1: currency report 2;
-- p 24: axiom match 1 1 (x, 2): 6;
>> verify s q p => 5 error E02 p 24
-- p 1: currency report 2;
-- p 24: axiom match 1 1 ("x", 2): 8;
>> verify s q p => 5 error E03 p 24
:: the unit of the other answer, and a clause that is no unit
-- p 1: currency report 2;
-- p 26: derive 7 by 4 5 7;
>> verify s q p => 4 refused V3 p 3
-- p 1: currency report 2;
-- p 26: derive 6 -4 by 6;
>> verify s q p => 4 refused V3 p 3
-- p 1: currency report 2;
-- p 26: learn 6 by 1 2 3 6;
>> verify s q p => 0 accepted answers
-- p 1: currency report 2;
-- p 26: derive 6 by 1 2 3 7;
>> verify s q p => 4 refused V2 p 26
-- p 1: currency report 2;
-- p 26: derive -6 by 1 2 3 6;
>> verify s q p => 4 refused V2 p 26
-- p 1: currency report 2;
-- p 27: derive 6 by 1 2 3 6;
>> verify s q p => 4 refused V3 p 4

== matches are axioms where a query is asked
-- s
relation R from "r.csv" row id entity eid (a: int);
order R.a: r1 < r2;
-- r.csv
id,eid,a
r1,x,1
r2,x,2
r3,y,2
r4,z,3
r5,z,4
-- q: answers () where R("x", _);
-- p
currency report 1;
verdict undecided 0;
log;
statement answer ();
axiom match 1 1 (): 1;
end;
>> verify s q p => 0 accepted undecided
-- p 2: verdict undecided 1;
-- p 5: demand match 1 1 (): 1;
>> verify s q p => 0 accepted undecided
-- p 5: demand match 1 1 (): 1;
>> verify s q p => 4 refused V3 p 2
-- q: answers () where R("y", _);
>> verify s q p => 4 refused V2 p 5
-- q: consistent;
>> verify s q p => 4 refused V2 p 5
-- q: certain R.a: r1 < r2;
>> verify s q p => 4 refused V2 p 5
-- q: same R;
>> verify s q p => 4 refused V2 p 5

== matches are of their disjunct
:: constants: of another entity, of a value that is not current, of no entity, of another's row
-- s
relation R from "r.csv" row id entity eid (a: int);
order R.a: r1 < r2;
-- r.csv
id,eid,a
r1,x,1
r2,x,2
r3,y,2
r4,z,3
r5,z,4
-- q: answers () where R("x", 2);
-- p
currency report 1;
verdict answers;
answer ();
completion;
ranking R.a of x: r1 < r2;
ranking R.a of y: r3;
ranking R.a of z: r4 < r5;
completion;
ranking R.a of x: r1 < r2;
ranking R.a of y: r3;
ranking R.a of z: r5 < r4;
log;
statement before 1 1 1 2;
statement top 1 1 2;
statement top 1 1 3;
statement last 1 1 2;
statement last 1 1 3;
statement answer ();
axiom given 1 1 1 2: 1;
axiom top 1 1 2: 2 -1;
axiom last 1 1 2: -2 4;
axiom top 1 1 3: 3;
axiom last 1 1 3: -3 5;
derive 4 by 1 2 3;
derive 5 by 4 5;
axiom match 1 1 (): 6 -4;
derive 6 by 6 7 8;
end;
>> verify s q p => 0 accepted answers
-- p 26: axiom match 1 2 (): 6 -5;
>> verify s q p => 4 refused V2 p 26
-- q: answers () where R("x", 1);
>> verify s q p => 4 refused V2 p 26
-- q: answers () where R("w", 2);
>> verify s q p => 4 refused V2 p 26
-- q: answers () where R(e, 3);
-- p 26: axiom match 1 1 ("x"): 6 -4;
>> verify s q p => 4 refused V2 p 26
:: comparisons
-- q: answers (v) where R("x", v) and v > 1;
-- p 3: answer (2);
-- p 18: statement answer (2);
-- p 26: axiom match 1 1 (2): 6 -4;
>> verify s q p => 0 accepted answers
-- q: answers (v) where R("x", v) and v = v and v <= 2;
-- p 3: answer (2);
-- p 18: statement answer (2);
-- p 26: axiom match 1 1 (2): 6 -4;
>> verify s q p => 0 accepted answers
-- q: answers (v) where R("x", v) and v = v and v > 2;
-- p 3: answer (2);
-- p 18: statement answer (2);
-- p 26: axiom match 1 1 (2): 6 -4;
>> verify s q p => 4 refused V2 p 26
-- q: answers () where R("x", 2) and 1 < 2;
>> verify s q p => 0 accepted answers
-- q: answers () where R("x", 2) and 2 < 1;
>> verify s q p => 4 refused V2 p 26
-- q: answers (e) where R(e, v) and R(f, v) and e < f;
-- p 3: answer ("x");
-- p 18: statement answer ("x");
-- p 26: axiom match 1 1 2 ("x", 2, "y"): 6 -4 -5;
>> verify s q p => 0 accepted answers
-- p 3: answer ("x");
-- p 18: statement answer ("x");
-- p 26: axiom match 1 1 1 ("x", 2, "x"): 6 -4;
>> verify s q p => 4 refused V2 p 26
-- p 3: answer ("y");
-- p 18: statement answer ("y");
-- p 26: axiom match 1 2 1 ("y", 2, "x"): 6 -4 -5;
>> verify s q p => 4 refused V2 p 26
:: the match is of another tuple
-- q: answers (e) where R(e, v) and R(f, v) and e != f;
-- p 3: answer ("x");
-- p 18: statement answer ("x");
-- p 26: axiom match 1 2 1 ("y", 2, "x"): 6 -4 -5;
>> verify s q p => 4 refused V2 p 26
:: values in another order than that in which the variables stand
-- q: answers (e) where R(e, v) and R(f, v) and e < f;
-- p 3: answer ("x");
-- p 18: statement answer ("x");
-- p 26: axiom match 1 1 2 ("x", "y", 2): 6 -4 -5;
>> verify s q p => 4 refused V2 p 26
-- q: answers (v, e) where R(e, v) and e = "x";
-- p 3: answer (2, "x");
-- p 18: statement answer (2, "x");
-- p 26: axiom match 1 1 ("x", 2): 6 -4;
>> verify s q p => 0 accepted answers
-- p 3: answer (2, "x");
-- p 18: statement answer (2, "x");
-- p 26: axiom match 1 1 (2, "x"): 6 -4;
>> verify s q p => 4 refused V2 p 26
-- q: answers (v, v) where R("x", v);
-- p 3: answer (2, 2);
-- p 18: statement answer (2, 2);
-- p 26: axiom match 1 1 (2): 6 -4;
>> verify s q p => 0 accepted answers
-- p 3: answer (2, 2);
-- p 18: statement answer (2, 2);
-- p 26: axiom match 1 1 (2, 2): 6 -4;
>> verify s q p => 4 refused V2 p 26
:: a value that two entities have
-- q: answers (v) where R("x", v) and R("y", v);
-- p 3: answer (2);
-- p 18: statement answer (2);
-- p 26: axiom match 1 1 2 (2): 6 -4 -5;
>> verify s q p => 0 accepted answers
-- p 3: answer (2);
-- p 18: statement answer (2);
-- p 26: axiom match 1 2 1 (2): 6 -4 -5;
>> verify s q p => 4 refused V2 p 26
-- p 3: answer (2);
-- p 18: statement answer (2);
-- p 26: axiom match 1 1 2 (2): 6 -4;
>> verify s q p => 4 refused V2 p 26
:: a variable for two entities
-- q: answers () where R(e, v) and R(e, w);
-- p 26: axiom match 1 1 1 ("x", 2, 2): 6 -4;
>> verify s q p => 0 accepted answers
-- p 26: axiom match 1 2 2 ("y", 2, 2): 6 -5;
>> verify s q p => 0 accepted answers
-- p 26: axiom match 1 1 2 ("x", 2, 2): 6 -4 -5;
>> verify s q p => 4 refused V2 p 26
-- p 26: axiom match 1 1 2 ("y", 2, 2): 6 -4 -5;
>> verify s q p => 4 refused V2 p 26
-- p 26: axiom match 1 1 1 ("x", 2, 1): 6 -4;
>> verify s q p => 4 refused V2 p 26
:: any value is not looked at
-- q: answers () where R(e, _);
-- p 26: axiom match 1 3 ("z"): 6;
>> verify s q p => 0 accepted answers
-- p 26: axiom match 1 3 ("z"): 6 -4;
>> verify s q p => 4 refused V2 p 26
-- p 26: axiom match 1 3 ("x"): 6;
>> verify s q p => 4 refused V2 p 26
-- q: answers () where R(_, _);
-- p 26: axiom match 1 3 (): 6;
>> verify s q p => 0 accepted answers
-- q: answers () where R(_, 2);
-- p 26: axiom match 1 2 (): 6 -5;
>> verify s q p => 0 accepted answers
-- p 26: axiom match 1 2 (): 6;
>> verify s q p => 4 refused V2 p 26
:: the other disjunct
-- q: answers () where R("x", 1) or R("y", 2);
-- p 26: axiom match 2 2 (): 6 -5;
>> verify s q p => 0 accepted answers
-- p 26: axiom match 1 2 (): 6 -5;
>> verify s q p => 4 refused V2 p 26
-- p 26: axiom match 3 2 (): 6 -5;
>> verify s q p => 4 refused V2 p 26
-- q: answers (v) where R("x", v) or R("y", v);
-- p 3: answer (2);
-- p 18: statement answer (2);
-- p 26: axiom match 1 1 (2): 6 -4;
>> verify s q p => 0 accepted answers
-- p 3: answer (2);
-- p 18: statement answer (2);
-- p 26: axiom match 2 2 (2): 6 -5;
>> verify s q p => 0 accepted answers
-- p 3: answer (2);
-- p 18: statement answer (2);
-- p 26: axiom match 1 2 (2): 6 -5;
>> verify s q p => 4 refused V2 p 26

== matches of two values are used
-- s
relation R from "r.csv" row id entity eid (a: int);
order R.a: r1 < r2;
-- r.csv
id,eid,a
r1,x,1
r2,x,2
r3,y,2
r4,z,3
r5,z,4
-- q: answers () where R("z", 3) or R("z", 4);
-- p
currency report 1;
verdict answers;
answer ();
completion;
ranking R.a of x: r1 < r2;
ranking R.a of y: r3;
ranking R.a of z: r4 < r5;
log;
statement before 1 1 4 5;
statement top 1 1 4;
statement top 1 1 5;
statement last 1 1 4;
statement last 1 1 5;
statement answer ();
axiom top 1 1 4: 2 1;
axiom top 1 1 5: 3 -1;
axiom last 1 1 4: -2 4;
axiom last 1 1 5: -3 5;
axiom match 1 3 (): 6 -4;
axiom match 2 3 (): 6 -5;
derive 6 by 5 6 3 4 1 2;
end;
>> verify s q p => 0 accepted answers
-- p 21: derive 6 by 5 3 4 1 2;
>> verify s q p => 4 refused V2 p 21
-- p 21: derive 6 by 6 3 4 1 2;
>> verify s q p => 4 refused V2 p 21
-- p 21: derive 6 by 5 6;
>> verify s q p => 4 refused V2 p 21
-- p 19: axiom match 2 3 (): 6 -4;
>> verify s q p => 4 refused V2 p 19
-- p 20: axiom match 1 3 (): 6 -5;
>> verify s q p => 4 refused V2 p 20
:: one disjunct alone, and the two in the other order
-- q: answers () where R("z", 3);
>> verify s q p => 4 refused V2 p 20
-- q: answers () where R("z", 4);
-- p 20: axiom match 1 3 (): 6 -5;
>> verify s q p => 4 refused V2 p 19
-- q: answers () where R("z", 4) or R("z", 3);
>> verify s q p => 4 refused V2 p 19
:: each of the values meets the comparison, or one does not
-- q: answers () where R("z", v) and v >= 3;
-- p 19-20
axiom match 1 3 (3): 6 -4;
axiom match 1 3 (4): 6 -5;
>> verify s q p => 0 accepted answers
-- q: answers () where R("z", v) and v >= 4;
-- p 19-20
axiom match 1 3 (3): 6 -4;
axiom match 1 3 (4): 6 -5;
>> verify s q p => 4 refused V2 p 19
-- q: answers () where R("z", v) and v < 4;
-- p 19-20
axiom match 1 3 (3): 6 -4;
axiom match 1 3 (4): 6 -5;
>> verify s q p => 4 refused V2 p 20

== no answer is common
-- s
relation R from "r.csv" row id entity eid (a: int);
order R.a: r1 < r2;
-- r.csv
id,eid,a
r1,x,1
r2,x,2
r3,y,2
r4,z,3
r5,z,4
-- q: answers (v) where R("z", v);
-- p
currency report 1;
verdict answers;
completion;
ranking R.a of x: r1 < r2;
ranking R.a of y: r3;
ranking R.a of z: r4 < r5;
completion;
ranking R.a of x: r1 < r2;
ranking R.a of y: r3;
ranking R.a of z: r5 < r4;
end;
>> verify s q p => 0 accepted answers
-- p 6: ranking R.a of z: r5 < r4;
-- p 10: ranking R.a of z: r4 < r5;
>> verify s q p => 0 accepted answers
-- p 10: ranking R.a of z: r4 < r5;
>> verify s q p => 4 refused V3 p 2
-- p 7-11: end;
>> verify s q p => 4 refused V3 p 2
-- p 3-11: end;
>> verify s q p => 4 refused V3 p 2
-- p 2
verdict answers;
answer (4);
-- p 7-11: end;
>> verify s q p => 4 refused V3 p 3
-- p 2
verdict answers;
answer (4);
>> verify s q p => 4 refused V3 p 3
-- p 3-10: answer (4);
>> verify s q p => 4 refused V3 p 2

== reports are of their question
-- s
relation R from "r.csv" row id entity eid (a: int);
order R.a: r1 < r2;
-- r.csv
id,eid,a
r1,x,1
r2,x,2
r3,y,2
r4,z,3
r5,z,4
-- q: answers (e, v) where R(e, v) and v >= 2;
-- p
currency report 2;
verdict answers;
answer ("x", 2);
answer ("y", 2);
completion;
ranking R.a of x: r1 < r2;
ranking R.a of y: r3;
ranking R.a of z: r4 < r5;
completion;
ranking R.a of z: r5 < r4;
log;
statement before 1 1 1 2;
statement top 1 1 2;
statement top 1 1 3;
statement last 1 1 2;
statement last 1 1 3;
statement answer ("x", 2);
statement answer ("y", 2);
axiom given 1 1 1 2: 1;
axiom top 1 1 2: 2 -1;
axiom last 1 1 2: -2 4;
axiom top 1 1 3: 3;
axiom last 1 1 3: -3 5;
axiom match 1 1 ("x", 2): 6 -4;
axiom match 1 2 ("y", 2): 7 -5;
derive 6 by 1 2 3 6;
derive 7 by 4 5 7;
end;
>> verify s q p => 0 accepted answers
-- q: answers (e, v) where R(e, v);
>> verify s q p => 0 accepted answers
-- q: answers (v, e) where R(v, e);
>> verify s q p => 0 accepted answers
-- q: answers (e, v) where R(e, v) and 2 = v;
>> verify s q p => 0 accepted answers
-- q: answers (e, v) where R(e, v) or R(e, v);
>> verify s q p => 0 accepted answers
:: a comparison is false
-- q: answers (e, v) where R(e, v) and v > 2;
>> verify s q p => 4 refused V2 p 24
-- q: answers (e, v) where R(e, v) and v < 2;
>> verify s q p => 4 refused V2 p 24
-- q: answers (e, v) where R(e, v) and v != 2;
>> verify s q p => 4 refused V2 p 24
-- q: answers (e, v) where R(e, v) and v <= 1;
>> verify s q p => 4 refused V2 p 24
-- q: answers (e, v) where R(e, v) and 3 <= v;
>> verify s q p => 4 refused V2 p 24
-- q: answers (e, v) where R(e, v) and 2 < 1;
>> verify s q p => 4 refused V2 p 24
-- q: answers (e, v) where R(e, v) and e != "x";
>> verify s q p => 4 refused V2 p 24
-- q: answers (e, v) where R(e, v) and e < "y";
>> verify s q p => 4 refused V2 p 25
-- q: answers (e, v) where R(e, v) and e = "x";
>> verify s q p => 4 refused V2 p 25
-- q: answers (e, v) where R(e, v) and v < 2 or R(e, v);
>> verify s q p => 4 refused V2 p 24
:: another head, and other atoms
-- q: answers (v, e) where R(e, v);
>> verify s q p => 4 refused V2 p 24
-- q: answers (e, e) where R(e, v);
>> verify s q p => 4 refused V2 p 24
-- q: answers (e) where R(e, v);
>> verify s q p => 4 refused V2 p 24
-- q: answers (v) where R(e, v);
>> verify s q p => 4 refused V2 p 24
-- q: answers () where R(e, v);
>> verify s q p => 4 refused V2 p 24
-- q: answers (e, v, v) where R(e, v);
>> verify s q p => 4 refused V2 p 24
-- q: answers (e, v) where R(e, v) and R(e, v);
>> verify s q p => 4 refused V2 p 24
-- q: answers (e, v) where R(f, v) and R(e, _);
>> verify s q p => 4 refused V2 p 24
:: one answer more: z with the value of x
-- q: answers (e, v) where R(e, v) or R(e, _) and R("x", v);
>> verify s q p => 4 refused V3 p 2
-- q: consistent;
>> verify s q p => 4 refused V3 p 2
-- q: certain R.a: r1 < r2;
>> verify s q p => 4 refused V3 p 2
-- q: same R;
>> verify s q p => 4 refused V3 p 2
"#;

#[test]
fn reports_on_answers_are_judged(rt: HostRuntime) -> Result<(), Fail> {
    expect_played(&rt, ROWS)
}
