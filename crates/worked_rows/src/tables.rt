//! Answers of a query as a table: the certain ones, and those that some consistent completion has.

use crate::documents::expect_played;
use std::test::Fail;

const ROWS: &str = r#"
== names and texts with what a field quotes
-- s
relation Staff from "staff.csv" row record entity person (name: text, salary: int);
order Staff.salary: s1 < s2;
-- staff.csv
record,person,name,salary
s1,mary,Smith,50
s2,mary,"Dupont, M.",80
s3,john,O"Neil,-70
s4,,,70
-- q: answers (p, n) where Staff(p, n, _);
>> ask s q --csv
0 p,n
,
john,"O""Neil"
>> possible s q --csv
0 p,n,certain
,,yes
john,"O""Neil",yes
mary,"Dupont, M.",no
mary,Smith,no
-- q: answers (n) where Staff("mary", n, _);
:: The names are read back; a record of one empty field is two quotes.
>> ask s q --csv
0 n
>> possible s q --csv
0 n,certain
"Dupont, M.",no
Smith,no
-- q: answers (n) where Staff("", n, _);
>> ask s q --csv
0 n
""
>> possible s q --csv
0 n,certain
,yes
-- q: answers (pay, p) where Staff(p, _, pay);
:: Numbers by number.
>> ask --csv --budget 1 s q
0 pay,p
-70,john
70,
80,mary
>> possible s --csv q --budget 1
0 pay,p,certain
-70,john,yes
70,,yes
80,mary,yes

== a head with a variable twice, one without any, and variables of two disjuncts
-- s: relation R from "r.csv" row id entity eid (a: int, b: text);
-- r.csv
id,eid,a,b
r1,x,1,u
r2,x,2,u
-- q: answers (v, v) where R(_, v, _);
>> ask s q --csv
0 v,v
>> possible s q --csv
0 v,v,certain
1,1,no
2,2,no
-- q: answers () where R("x", 1, _);
>> ask s q --csv
0 ""
>> possible s q --csv
0 certain
no
-- q: answers () where R("x", 1, _) or R("x", 2, _);
>> ask s q --csv
0 ""
""
>> possible s q --csv
0 certain
yes
-- q: answers (e, c) where R(e, 1, c) or R(e, 2, c);
:: Each of two matches is possible and none is certain, but the answer that both make is.
>> ask s q --csv
0 e,c
x,u
>> possible s q --csv
0 e,c,certain
x,u,yes
-- q: answers (e) where R(e, 3, _);
>> ask s q --csv
0 e
>> possible s q --csv
0 e,certain

== no consistent completion
-- s
relation R from "r.csv" row id entity eid (a: int);
order R.a: r1 < r2, r2 < r1;
-- r.csv
id,eid,a
r1,x,1
r2,x,2
-- q: answers (v) where R(_, v);
>> ask s q --csv
10 currency brief 2;
verdict inconsistent;
end;
>> possible s q --csv
10 currency brief 2;
verdict inconsistent;
end;

== what is refused
-- s: relation R from "r.csv" row id entity eid (a: int);
-- r.csv
id,eid,a
r1,x,1
-- q: consistent;
>> ask s q --csv => 5 error E05 q 1
>> possible s q --csv => 5 error E05 q 1
-- q
# asked of all

same R;
>> ask s q --csv => 5 error E05 q 3
-- q: same S;
:: Other refusals of the question come first.
>> possible s q --csv => 5 error E03 q 1
-- q: answers (v) where R(_, v);
>> ask s q --csv --brief => 2 words refused
>> possible s q --brief --csv => 2 words refused
>> ask s q --csv --csv => 2 words refused
>> ask s q --csv 1 => 2 words refused
>> verify s q r --csv => 2 words refused
>> forced s --csv => 2 words refused
>> ask s q --csv --guide 5 => 2 words refused
>> ask s nothing --csv => 7 read fault nothing
>> ^1 ask s q --csv => 8 v\
>> ^5 possible s q --csv => 8 v,cer\
"#;

#[test]
fn tables_of_answers_are_told(rt: HostRuntime) -> Result<(), Fail> {
    expect_played(&rt, ROWS)
}
