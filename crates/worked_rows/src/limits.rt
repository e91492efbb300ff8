//! Limits: the largest that is within each, and the least that is above. A report that shows nothing is refused where none is
//! exceeded.

use crate::documents::expect_played;
use std::test::Fail;

const OF_RELATIONS: &str = r#"
== relations are limited
-- r.csv
id,eid,a
r1,x,1
-- q: consistent;
-- p
currency report 1;
verdict consistent;
end;
-- s: *1-64 relation R% from "r.csv" row id entity eid (a: int);
>> verify s q p => 4 refused V3 p 2
-- s: *1-65 relation R% from "r.csv" row id entity eid (a: int);
>> verify s q p => 6 limit 4
:: attributes
-- r.csv: *1-1 id,eid{1-33 ,a#}
-- s: *1-1 relation R from "r.csv" row id entity eid (a1: int{2-32 , a#: int});
>> verify s q p => 4 refused V3 p 2
-- s: *1-1 relation R from "r.csv" row id entity eid (a1: int{2-33 , a#: int});
>> verify s q p => 6 limit 5
:: the least limit of a statement is first: this is of the 65th relation
-- s
*1-64 relation R% from "r.csv" row id entity eid (a1: int);
*1-1 relation T from "r.csv" row id entity eid (a1: int{2-33 , a#: int});
>> verify s q p => 6 limit 4
:: and this of a relation with 65 rows of one entity
-- r.csv
*1-1 id,eid{1-33 ,a#}
*1-65 r%,x{1-33 ,0}
-- s: *1-1 relation T from "r.csv" row id entity eid (a1: int{2-33 , a#: int});
>> verify s q p => 6 limit 5
-- s: relation T from "r.csv" row id entity eid (a1: int);
>> verify s q p => 6 limit 7

== rows are limited
-- r.csv
id,eid,a
*1-100000 r%,x,1
-- q: consistent;
-- p
currency report 1;
verdict consistent;
end;
-- s: relation R from "r.csv" row id entity id (a: int);
>> verify s q p => 4 refused V3 p 2
:: one row more
-- r.csv
id,eid,a
*1-100001 r%,x,1
>> verify s q p => 6 limit 6
:: rows together come before those of one entity
-- s: relation R from "r.csv" row id entity eid (a: int);
>> verify s q p => 6 limit 6
:: rows of all relations are limited together
-- r.csv
id,eid,a
*1-50001 r%,x,1
-- s: relation R from "r.csv" row id entity id (a: int); relation T from "r.csv" row id entity id (a: int);
>> verify s q p => 6 limit 6

== rows of one entity are limited
-- r.csv
id,eid,a
*1-64 r%,x,1
-- q: consistent;
-- p
currency report 1;
verdict consistent;
end;
-- s: relation R from "r.csv" row id entity eid (a: int);
>> verify s q p => 4 refused V3 p 2
-- r.csv
id,eid,a
*1-65 r%,x,1
>> verify s q p => 6 limit 7
:: the rows of an entity of one relation are counted
-- r.csv
id,eid,a
*1-64 r%,x,1
-- s
relation R from "r.csv" row id entity eid (a: int);
relation T from "r.csv" row id entity eid (a: int);
>> verify s q p => 4 refused V3 p 2
-- r.csv
id,eid,a
*1-64 r%,x,1
q1,y,1
-- s: relation R from "r.csv" row id entity eid (a: int);
>> verify s q p => 4 refused V3 p 2
-- r.csv
id,eid,a
*1-64 r%,x,1
q1,y,1
q2,x,1
>> verify s q p => 6 limit 7

== sixty four rows in record order are accepted
-- r.csv
id,eid,a
*1-64 r%,x,1
-- q: consistent;
-- p
currency report 1;
verdict consistent;
completion;
*1-1 ranking R.a of x: r1{2-64  < r#};
end;
-- s: relation R from "r.csv" row id entity eid (a: int);
>> verify s q p => 0 accepted consistent
-- s
relation R from "r.csv" row id entity eid (a: int);
rule n on R (s, t): if s.a != t.a then false;
>> verify s q p => 0 accepted consistent
-- s
relation R from "r.csv" row id entity eid (a: int);
rule n on R (s, t, u): if s before t in a and t before u in a then s before u in a;
>> verify s q p => 0 accepted consistent
"#;

const OF_RULES: &str = r#"
== rules are limited
-- r.csv
id,eid,a
r1,x,1
r2,x,2
r3,x,3
-- q: consistent;
-- p
currency report 1;
verdict consistent;
end;
-- s
relation R from "r.csv" row id entity eid (a: int);
*1-256 rule n% on R (s, t): s before t in a;
>> verify s q p => 4 refused V3 p 2
-- s 2: *1-257 rule n% on R (s, t): s before t in a;
>> verify s q p => 6 limit 8
:: predicates and variables
-- s 2: *1-1 rule n on R (s, t): if s before t in a{2-16  and s.a < #} then false;
>> verify s q p => 4 refused V3 p 2
-- s 2: *1-1 rule n on R (s, t): if s before t in a{2-17  and s.a < #} then false;
>> verify s q p => 6 limit 8
-- s 2: *1-1 rule n on R (s, t, u, v): if s before t in a{2-16  and s.a < #} then false;
>> verify s q p => 4 refused V3 p 2
-- s 2: rule n on R (s, t, u, v, w): if s before t in a and s.a < 2 then false;
>> verify s q p => 6 limit 8
:: copy functions
-- s 2: *1-64 copy c% into R (a) from R (a): r1 from r1;
>> verify s q p => 4 refused V3 p 2
-- s 2: *1-65 copy c% into R (a) from R (a): r1 from r1;
>> verify s q p => 6 limit 9

== limits come in the order of statements
-- r.csv
id,eid,a
*1-65 r%,x,1
-- s
relation R from "r.csv" row id entity eid (a: int);
# more
-- s 2: order Q.a: r1 < r2;
>> verify s q p => 6 limit 7
-- s 2: order R.a: r1 < r9;
>> verify s q p => 6 limit 7
-- s 2: relation R from "none.csv" entity eid (a: int);
>> verify s q p => 6 limit 7
-- s 2: order R.a r1 < r2;
>> verify s q p => 5 error E02 s 2
-- s 2: copy c into R (a) from Q (a): r1 from r2;
>> verify s q p => 6 limit 7

== limits come after the checks of their statement
-- r.csv
id,eid,a
r1,x,1
r2,x,2
r3,x,3
-- q: consistent;
-- s
relation R from "r.csv" row id entity eid (a: int);
# more
-- s 2: rule n on R (s, t, u, v, w): false;
>> verify s q p => 6 limit 8
-- s 2: rule n on R (s, t, u, v, w): x before s in a;
>> verify s q p => 5 error E03 s 2
-- s 2: rule n on R (s, t, u, v, s): false;
>> verify s q p => 5 error E04 s 2
-- s 2: rule n on R (s, t, u, v, w): if s.a = "1" then false;
>> verify s q p => 5 error E05 s 2
-- s 2
order Q.a: r1 < r2;
rule n on R (s, t, u, v, w): false;
>> verify s q p => 5 error E03 s 2
-- s 2
rule n on R (s, t, u, v, w): false;
order Q.a: r1 < r2;
>> verify s q p => 6 limit 8
-- s 2
rule n on R (s, t, u, v, w): false;
relation T from "none.csv" entity eid (a: int);
>> verify s q p => 6 limit 8
-- s 2
relation T from "none.csv" entity eid (a: int);
rule n on R (s, t, u, v, w): false;
>> verify s q p => 7 read fault none.csv
"#;

const OF_VARIABLES: &str = r#"
== order variables are limited
:: 13,333 entities of 5 rows with 30 attributes and 50 of 2 rows with 2 attributes have 4,000,000 variables
-- r.csv
*1-1 id,eid{1-30 ,a#}
*1-13333 e%r1,e%{1-30 ,0}|e%r2,e%{1-30 ,0}|e%r3,e%{1-30 ,0}|e%r4,e%{1-30 ,0}|e%r5,e%{1-30 ,0}
-- two.csv
id,eid,a1,a2
t1,x,0,0
t2,x,0,0
-- q: consistent;
-- p
currency report 1;
verdict consistent;
end;
-- s
*1-1 relation R from "r.csv" row id entity eid (a1: int{2-30 , a#: int});
*1-50 relation U% from "two.csv" row id entity eid (a1: int, a2: int);
>> verify s q p => 4 refused V3 p 2
-- s
*1-1 relation R from "r.csv" row id entity eid (a1: int{2-30 , a#: int});
*1-50 relation U% from "two.csv" row id entity eid (a1: int, a2: int);
relation V from "two.csv" row id entity eid (a1: int);
>> verify s q p => 6 limit 10
:: limits of all come after the last statement
-- s
*1-1 relation R from "r.csv" row id entity eid (a1: int{2-30 , a#: int});
*1-50 relation U% from "two.csv" row id entity eid (a1: int, a2: int);
relation V from "two.csv" row id entity eid (a1: int);
order Q.a: t1 < t2;
>> verify s q p => 5 error E03 s 53
"#;

// An entity of five rows has ten pairs and ten threes in each attribute: 20,000 of them with 20 attributes have just 4,000,000
// variables and 8,000,000 instances.
const OF_FIVES: &str = r#"
== both last limits are reached together
-- r.csv
*1-1 id,eid{1-20 ,a#}
*1-20000 e%r1,e%{1-20 ,0}|e%r2,e%{1-20 ,0}|e%r3,e%{1-20 ,0}|e%r4,e%{1-20 ,0}|e%r5,e%{1-20 ,0}
-- q: consistent;
-- p
currency report 1;
verdict consistent;
end;
-- s
*1-1 relation R from "r.csv" row id entity eid (a1: int{2-20 , a#: int});
# more
>> verify s q p => 4 refused V3 p 2
:: instances of rules are counted with the others
-- s 2: rule n on R (s): false;
>> verify s q p => 6 limit 11
"#;

// 80 rules on 99,996 rows of an entity each and 159 on two rows have 7,999,998 instances; a copy of two rows of one
// entity from two rows of one entity has two for each of its places. 80 on 99,999 and 80 on one have 8,000,000.
const OF_INSTANCES: &str = r#"
== instances of copies are limited
-- r.csv
id,eid,a
*1-99996 r%,x,1
-- two.csv
id,eid,a
t1,x,1
t2,x,1
-- q: consistent;
-- p
currency report 1;
verdict consistent;
end;
-- s
relation R from "r.csv" row id entity id (a: int);
relation S from "two.csv" row id entity eid (a: int);
relation T from "two.csv" row id entity eid (a: int);
*1-80 rule n% on R (s): false;
*1-159 rule m% on T (s): false;
# more
-- s 6: copy c into T (a) from S (a): t1 from t1, t2 from t2;
>> verify s q p => 4 refused V3 p 2
-- s 6
copy c into T (a) from S (a): t1 from t1, t2 from t2;
copy d into S (a) from T (a): t1 from t1, t2 from t2;
>> verify s q p => 6 limit 11
:: rows copied from one row are no instance
-- s 6
copy c into T (a) from S (a): t1 from t1, t2 from t1;
copy d into S (a) from T (a): t1 from t1, t2 from t2;
>> verify s q p => 4 refused V3 p 2

== instances of rules are limited
-- r.csv
id,eid,a
*1-99999 r%,x,1
-- one.csv
id,eid,a
t1,x,1
-- q: consistent;
-- p
currency report 1;
verdict consistent;
end;
-- s
relation R from "r.csv" row id entity id (a: int);
relation T from "one.csv" row id entity eid (a: int);
*1-80 rule n% on R (s): false;
# more
-- s 4: *1-80 rule m% on T (s): false;
>> verify s q p => 4 refused V3 p 2
-- s 4: *1-81 rule m% on T (s): false;
>> verify s q p => 6 limit 11
"#;

// One blank more than is read, and for tables one line.
const OF_TEXTS: &str = r#"
== long texts are refused
-- r.csv
id,eid,a
r1,x,1
-- q: consistent;
-- s: relation R from "r.csv" row id entity eid (a: int);
>> ask s q
0 currency report 2;
...
-- s
*1-1 {1-16777217  }\
>> ask s q => 6 limit 1
>> verify s q p => 6 limit 1
-- s: relation R from "r.csv" row id entity eid (a: int);
-- q
*1-1 {1-16777217  }\
>> ask s q => 6 limit 1
-- q: consistent;
-- r.csv
*1-1 {1-67108865 |}\
>> ask s q => 6 limit 2
"#;

// 32 entities at four places are 1,048,576 answers, more than are gone through.
const OF_ANSWERS: &str = r#"
== answers are limited
-- r.csv
id,a
*0-31 r%,1
-- s: relation R from "r.csv" row id entity id (a: int);
-- q: answers (a, b, c, d) where R(a, _) and R(b, _) and R(c, _) and R(d, _);
>> ask s q --brief => 6 limit 3
-- q: answers (a, b) where R(a, _) and R(b, _);
>> ask s q --brief
0 currency brief 2;
verdict answers;
answer ("r0", "r0");
answer ("r0", "r1");
...
"#;

#[test]
fn relations_rows_and_attributes_are_limited(rt: HostRuntime) -> Result<(), Fail> {
    expect_played(&rt, OF_RELATIONS)
}

#[test]
fn rules_and_copies_are_limited(rt: HostRuntime) -> Result<(), Fail> {
    expect_played(&rt, OF_RULES)
}

#[test]
fn order_variables_are_limited(rt: HostRuntime) -> Result<(), Fail> {
    expect_played(&rt, OF_VARIABLES)
}

#[test]
fn both_last_limits_are_reached_together(rt: HostRuntime) -> Result<(), Fail> {
    expect_played(&rt, OF_FIVES)
}

#[test]
fn instances_are_limited(rt: HostRuntime) -> Result<(), Fail> {
    expect_played(&rt, OF_INSTANCES)
}

#[test]
fn texts_are_limited(rt: HostRuntime) -> Result<(), Fail> {
    expect_played(&rt, OF_TEXTS)
}

#[test]
fn answers_are_limited(rt: HostRuntime) -> Result<(), Fail> {
    expect_played(&rt, OF_ANSWERS)
}
