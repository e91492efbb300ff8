//! The clause of each label, over a specification with rules, a copy function and texts.

use crate::documents::expect_played;
use std::test::Fail;

const ROWS: &str = r#"
== a label has its clause
-- s
relation R from "r.csv" row id entity eid (a: int, b: text);
relation S from "s.csv" row id entity eid (c: int);
order R.a: r1 < r2, r2 < r3;
order R.b: r2 < r1;
rule first on R (s, t): if s.a < t.a and s before t in b then s before t in a;
rule second on R (s): if s.b = "q" then false;
rule third on R (s, t): if s before t in b then s before t in a;
rule fourth on R (s, t): if s.a <= t.a then s before t in b;
copy c into R (a) from S (c): r1 from s1, r2 from s2, r3 from s2, r4 from s4, r5 from s3;
-- r.csv
id,eid,a,b
r1,x,1,p
r2,x,2,q
r3,x,2,p
r4,y,5,p
r5,y,6,p
r6,y,2,p
r7,z,7,p
-- s.csv
id,eid,c
s1,u,1
s2,u,2
s3,u,6
s4,v,5
-- q: consistent;
-- p
currency report 2;
verdict inconsistent;
log;
statement before 1 1 1 2;
statement before 1 1 1 3;
statement before 1 1 2 3;
statement before 1 1 5 6;
statement before 1 2 1 2;
statement before 1 2 1 3;
statement before 1 2 2 3;
statement before 2 1 1 2;
statement before 2 1 1 3;
statement top 1 1 1;
statement top 1 1 2;
statement top 1 1 3;
statement top 1 1 6;
statement top 1 1 7;
statement top 1 2 1;
statement top 1 2 3;
statement last 1 1 1;
statement last 1 1 2;
statement last 1 1 6;
statement last 1 2 1;
statement last 1 2 2;
axiom given 1 1 1 2: 1;
end;
>> verify s q p => 4 refused V3 p 2
-- p 25: demand given 1 1 1 2: 1;
>> verify s q p => 4 refused V3 p 2
-- p 25: axiom given 1 1 1 2: 1 1;
>> verify s q p => 4 refused V3 p 2
-- p 25: axiom given 1 2 2 1: -5;
>> verify s q p => 4 refused V3 p 2
-- p 25: axiom given 1 1 1 2: 1 3;
>> verify s q p => 4 refused V2 p 25
-- p 25: axiom given 1 1 1 2: 1 -1;
>> verify s q p => 4 refused V2 p 25
-- p 25: axiom given 1 1 1 2:;
>> verify s q p => 4 refused V2 p 25
-- p 25: demand given 1 1 1 2:;
>> verify s q p => 4 refused V2 p 25
-- p 25: axiom given 1 1 1 2: -1;
>> verify s q p => 4 refused V2 p 25
-- p 25: axiom given 1 2 2 1: 5;
>> verify s q p => 4 refused V2 p 25
-- p 25: axiom given 1 1 1 2: 5;
>> verify s q p => 4 refused V2 p 25
-- p 25: axiom given 1 1 1 2: 8;
>> verify s q p => 4 refused V2 p 25
:: not given: it follows, is the reverse, of another attribute, of another relation
-- p 25: axiom given 1 1 1 3: 2;
>> verify s q p => 4 refused V2 p 25
-- p 25: axiom given 1 1 2 1: -1;
>> verify s q p => 4 refused V2 p 25
-- p 25: axiom given 1 2 1 2: 5;
>> verify s q p => 4 refused V2 p 25
-- p 25: axiom given 2 1 1 2: 8;
>> verify s q p => 4 refused V2 p 25
:: no relation, attribute, row
-- p 25: axiom given 3 1 1 2: 1;
>> verify s q p => 4 refused V2 p 25
-- p 25: axiom given 1 3 1 2: 1;
>> verify s q p => 4 refused V2 p 25
-- p 25: axiom given 1 1 1 8: 1;
>> verify s q p => 4 refused V2 p 25
-- p 25: axiom transitive 1 1 1 2 3: -1 -3 2;
>> verify s q p => 4 refused V3 p 2
-- p 25: axiom transitive 1 1 1 2 3: 2 -1 -3 -1;
>> verify s q p => 4 refused V3 p 2
-- p 25: axiom transitive 1 1 3 2 1: 3 1 -2;
>> verify s q p => 4 refused V3 p 2
-- p 25: axiom transitive 1 1 1 2 3: -1 -3 2 5;
>> verify s q p => 4 refused V2 p 25
-- p 25: axiom transitive 1 1 1 2 3: -1 -3 2 1;
>> verify s q p => 4 refused V2 p 25
-- p 25: axiom transitive 1 1 1 2 3: -1 -3;
>> verify s q p => 4 refused V2 p 25
-- p 25: axiom transitive 1 1 1 2 3: -1 2;
>> verify s q p => 4 refused V2 p 25
-- p 25: axiom transitive 1 1 1 2 3: -3 2;
>> verify s q p => 4 refused V2 p 25
-- p 25: axiom transitive 1 1 1 2 3: -1 -3 -2;
>> verify s q p => 4 refused V2 p 25
:: two rows are one
-- p 25: axiom transitive 1 1 1 1 2: -1 -1 1;
>> verify s q p => 4 refused V2 p 25
-- p 25: axiom transitive 1 1 2 1 1: 1 -1 -1;
>> verify s q p => 4 refused V2 p 25
-- p 25: axiom transitive 1 1 1 2 1: -1 1 1;
>> verify s q p => 4 refused V2 p 25
:: the first, the second, the third is of another entity
-- p 25: axiom transitive 1 1 4 1 2: 1 -1 -1;
>> verify s q p => 4 refused V2 p 25
-- p 25: axiom transitive 1 1 1 4 2: -1 1 1;
>> verify s q p => 4 refused V2 p 25
-- p 25: axiom transitive 1 1 1 2 4: -1 -1 1;
>> verify s q p => 4 refused V2 p 25
:: no relation, attribute, row
-- p 25: axiom transitive 3 1 1 2 3: -1 -1 1;
>> verify s q p => 4 refused V2 p 25
-- p 25: axiom transitive 1 3 1 2 3: -1 -1 1;
>> verify s q p => 4 refused V2 p 25
-- p 25: axiom transitive 1 1 1 2 8: -1 -1 1;
>> verify s q p => 4 refused V2 p 25
-- p 25: axiom rule 1 1 2: -5 1;
>> verify s q p => 4 refused V3 p 2
-- p 25: axiom rule 1 1 2: 1 -5 1;
>> verify s q p => 4 refused V3 p 2
-- p 25: axiom rule 1 1 3: -6 2;
>> verify s q p => 4 refused V3 p 2
-- p 25: axiom rule 3 2 1: 5 -1;
>> verify s q p => 4 refused V3 p 2
-- p 25: axiom rule 4 1 2: 5;
>> verify s q p => 4 refused V3 p 2
-- p 25: axiom rule 1 1 2: -5 1 3;
>> verify s q p => 4 refused V2 p 25
-- p 25: axiom rule 1 1 2: -5;
>> verify s q p => 4 refused V2 p 25
-- p 25: axiom rule 1 1 2: 1;
>> verify s q p => 4 refused V2 p 25
-- p 25: axiom rule 1 1 2: 5 1;
>> verify s q p => 4 refused V2 p 25
:: a comparison fails
-- p 25: axiom rule 1 2 1: 5 -1;
>> verify s q p => 4 refused V2 p 25
-- p 25: axiom rule 1 2 3: -7 3;
>> verify s q p => 4 refused V2 p 25
-- p 25: axiom rule 4 2 1: -5;
>> verify s q p => 4 refused V2 p 25
:: What never holds is no literal.
-- p 25: axiom rule 2 2:;
>> verify s q p => 0 accepted inconsistent
-- p 25: axiom rule 2 2: 1;
>> verify s q p => 4 refused V2 p 25
-- p 25: axiom rule 2 1:;
>> verify s q p => 4 refused V2 p 25
:: A row is not before itself: as a conclusion this is no literal, and as a premise it never holds.
-- p 25: axiom rule 4 1 1:;
>> verify s q p => 0 accepted inconsistent
-- p 25: axiom rule 4 4 4:;
>> verify s q p => 0 accepted inconsistent
-- p 25: axiom rule 4 1 1: 1;
>> verify s q p => 4 refused V2 p 25
-- p 25: axiom rule 3 1 1: -1 1;
>> verify s q p => 4 refused V2 p 25
-- p 25: axiom rule 3 1 1:;
>> verify s q p => 4 refused V2 p 25
:: no row, too few, too many
-- p 25: axiom rule 1: -5 1;
>> verify s q p => 4 refused V2 p 25
-- p 25: axiom rule 2:;
>> verify s q p => 4 refused V2 p 25
-- p 25: axiom rule 1 1: -5 1;
>> verify s q p => 4 refused V2 p 25
-- p 25: axiom rule 1 1 2 3: -5 1;
>> verify s q p => 4 refused V2 p 25
-- p 25: axiom rule 2 2 2:;
>> verify s q p => 4 refused V2 p 25
:: of another entity
-- p 25: axiom rule 1 1 4: -1 1;
>> verify s q p => 4 refused V2 p 25
:: no rule, row
-- p 25: axiom rule 5 1 2: -5 1;
>> verify s q p => 4 refused V2 p 25
-- p 25: axiom rule 3 1 8: -1 1;
>> verify s q p => 4 refused V2 p 25
-- p 25: axiom rule 3 8 1: -1 1;
>> verify s q p => 4 refused V2 p 25
-- p 25: axiom copy 1 1 1 2: -8 1;
>> verify s q p => 4 refused V3 p 2
-- p 25: axiom copy 1 1 2 1: 8 -1;
>> verify s q p => 4 refused V3 p 2
-- p 25: axiom copy 1 1 1 3: -8 2;
>> verify s q p => 4 refused V3 p 2
-- p 25: axiom copy 1 1 1 2: -8 1 3;
>> verify s q p => 4 refused V2 p 25
-- p 25: axiom copy 1 1 1 2: -8;
>> verify s q p => 4 refused V2 p 25
-- p 25: axiom copy 1 1 1 2: 1;
>> verify s q p => 4 refused V2 p 25
-- p 25: axiom copy 1 1 1 2: 8 1;
>> verify s q p => 4 refused V2 p 25
:: one row, one source
-- p 25: axiom copy 1 1 1 1: -1 1;
>> verify s q p => 4 refused V2 p 25
-- p 25: axiom copy 1 1 2 3: -1 3;
>> verify s q p => 4 refused V2 p 25
:: the rows, their sources are of two entities
-- p 25: axiom copy 1 1 1 5: -9 1;
>> verify s q p => 4 refused V2 p 25
-- p 25: axiom copy 1 1 4 5: -1 1;
>> verify s q p => 4 refused V2 p 25
:: a row that is copied from none
-- p 25: axiom copy 1 1 5 6: 4;
>> verify s q p => 4 refused V2 p 25
-- p 25: axiom copy 1 1 6 5: -4;
>> verify s q p => 4 refused V2 p 25
:: no copy function, place, row
-- p 25: axiom copy 2 1 1 2: -8 1;
>> verify s q p => 4 refused V2 p 25
-- p 25: axiom copy 1 2 1 2: -8 1;
>> verify s q p => 4 refused V2 p 25
-- p 25: axiom copy 1 1 1 8: -8 1;
>> verify s q p => 4 refused V2 p 25
-- p 25: axiom copy 1 1 8 2: -8 1;
>> verify s q p => 4 refused V2 p 25
-- p 25: axiom above 1 1 2 1: -11 1;
>> verify s q p => 4 refused V3 p 2
-- p 25: axiom above 1 1 1 2: -10 -1;
>> verify s q p => 4 refused V3 p 2
-- p 25: axiom above 1 1 2 1: -11 1 3;
>> verify s q p => 4 refused V2 p 25
-- p 25: axiom above 1 1 2 1: -11;
>> verify s q p => 4 refused V2 p 25
-- p 25: axiom above 1 1 2 1: 1;
>> verify s q p => 4 refused V2 p 25
-- p 25: axiom above 1 1 2 1: -11 -1;
>> verify s q p => 4 refused V2 p 25
:: one row, of another entity
-- p 25: axiom above 1 1 1 1: -10 1;
>> verify s q p => 4 refused V2 p 25
-- p 25: axiom above 1 1 1 4: -10 -1;
>> verify s q p => 4 refused V2 p 25
:: no relation, attribute, row
-- p 25: axiom above 3 1 2 1: -1 1;
>> verify s q p => 4 refused V2 p 25
-- p 25: axiom above 1 3 2 1: -1 1;
>> verify s q p => 4 refused V2 p 25
-- p 25: axiom above 1 1 8 1: -1 1;
>> verify s q p => 4 refused V2 p 25
-- p 25: axiom above 1 1 1 8: -10 -1;
>> verify s q p => 4 refused V2 p 25
-- p 25: axiom top 1 1 2: 11 -1 3;
>> verify s q p => 4 refused V3 p 2
-- p 25: axiom top 1 1 3: -2 12 -3;
>> verify s q p => 4 refused V3 p 2
-- p 25: axiom top 1 1 7: 14;
>> verify s q p => 4 refused V3 p 2
-- p 25: axiom top 1 1 2: 11 -1 3 2;
>> verify s q p => 4 refused V2 p 25
-- p 25: axiom top 1 1 2: 11 -1;
>> verify s q p => 4 refused V2 p 25
-- p 25: axiom top 1 1 2: 11 3;
>> verify s q p => 4 refused V2 p 25
-- p 25: axiom top 1 1 2: -1 3;
>> verify s q p => 4 refused V2 p 25
-- p 25: axiom top 1 1 2: 11 1 -3;
>> verify s q p => 4 refused V2 p 25
:: no relation, attribute, row
-- p 25: axiom top 3 1 1: 1;
>> verify s q p => 4 refused V2 p 25
-- p 25: axiom top 1 3 7: 1;
>> verify s q p => 4 refused V2 p 25
-- p 25: axiom top 1 1 8: 1;
>> verify s q p => 4 refused V2 p 25
-- p 25: axiom last 1 1 1: -10 17;
>> verify s q p => 4 refused V3 p 2
-- p 25: axiom last 1 1 2: -11 18;
>> verify s q p => 4 refused V3 p 2
:: The value is that of each row of the entity that has it.
-- p 25: axiom last 1 1 2: 18 18 -11;
>> verify s q p => 4 refused V3 p 2
-- p 25: axiom last 1 2 1: -15 20;
>> verify s q p => 4 refused V3 p 2
-- p 25: axiom last 1 1 1: -10 17 18;
>> verify s q p => 4 refused V2 p 25
-- p 25: axiom last 1 1 1: -10;
>> verify s q p => 4 refused V2 p 25
-- p 25: axiom last 1 1 1: 17;
>> verify s q p => 4 refused V2 p 25
-- p 25: axiom last 1 1 1: -10 -17;
>> verify s q p => 4 refused V2 p 25
:: another value; the value of another entity, of another attribute
-- p 25: axiom last 1 1 1: -10 18;
>> verify s q p => 4 refused V2 p 25
-- p 25: axiom last 1 2 1: -15 21;
>> verify s q p => 4 refused V2 p 25
-- p 25: axiom last 1 1 2: -11 19;
>> verify s q p => 4 refused V2 p 25
-- p 25: axiom last 1 1 1: -10 20;
>> verify s q p => 4 refused V2 p 25
:: no relation, attribute, row
-- p 25: axiom last 3 1 1: -1 1;
>> verify s q p => 4 refused V2 p 25
-- p 25: axiom last 1 3 1: -1 1;
>> verify s q p => 4 refused V2 p 25
-- p 25: axiom last 1 1 8: -1 1;
>> verify s q p => 4 refused V2 p 25
-- p 25: axiom value 1 1 1: -17 10;
>> verify s q p => 4 refused V3 p 2
-- p 25: axiom value 1 1 2: -18 11 12;
>> verify s q p => 4 refused V3 p 2
-- p 25: axiom value 1 1 2: 12 11 -18;
>> verify s q p => 4 refused V3 p 2
-- p 25: axiom value 1 1 3: -18 11 12;
>> verify s q p => 4 refused V3 p 2
-- p 25: axiom value 1 2 1: -20 15 16;
>> verify s q p => 4 refused V3 p 2
-- p 25: axiom value 1 1 2: -18 11 12 10;
>> verify s q p => 4 refused V2 p 25
-- p 25: axiom value 1 1 2: -18 11;
>> verify s q p => 4 refused V2 p 25
-- p 25: axiom value 1 1 2: -18 12;
>> verify s q p => 4 refused V2 p 25
-- p 25: axiom value 1 1 2: 11 12;
>> verify s q p => 4 refused V2 p 25
-- p 25: axiom value 1 1 2: 18 11 12;
>> verify s q p => 4 refused V2 p 25
:: another value, and a row of another entity that has it
-- p 25: axiom value 1 1 1: -18 10;
>> verify s q p => 4 refused V2 p 25
-- p 25: axiom value 1 1 2: -18 11 12 13;
>> verify s q p => 4 refused V2 p 25
:: no relation, attribute, row
-- p 25: axiom value 3 1 1: -1 1;
>> verify s q p => 4 refused V2 p 25
-- p 25: axiom value 1 3 1: -1 1;
>> verify s q p => 4 refused V2 p 25
-- p 25: axiom value 1 1 8: -1;
>> verify s q p => 4 refused V2 p 25
-- p 25: axiom value 1 1 8: -1 1;
>> verify s q p => 4 refused V2 p 25
-- p 25: axiom match 1 1 (1, "p"): 1;
>> verify s q p => 4 refused V2 p 25
-- p 25: axiom match 1 1 (1, "p"): -17 1;
>> verify s q p => 4 refused V2 p 25
-- p 25: axiom match 1 ():;
>> verify s q p => 4 refused V2 p 25
"#;

#[test]
fn a_label_has_its_clause(rt: HostRuntime) -> Result<(), Fail> {
    expect_played(&rt, ROWS)
}
