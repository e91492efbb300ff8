//! Faults of the outside: a document that cannot be read, an output that takes no more bytes.

use crate::documents::expect_played;
use std::test::Fail;

const ROWS: &str = r#"
== faults of the outside have their status
-- s
relation R from "r.csv" row id entity eid (a: int);
order R.a: r1 < r2, r2 < r3, r3 < r1;
-- r.csv
id,eid,a
r1,x,1
r2,x,2
r3,x,3
-- q: consistent;
>> !1 ask s q --brief => 7 read fault s
>> !2 ask s q --brief => 7 read fault r.csv
>> !3 ask s q --brief => 7 read fault q
>> !4 ask s q --brief
0 currency brief 2;
verdict inconsistent;
end;
>> ^5 ask s q --brief => 8 curre\
>> ^0 ask s q --brief => 8 \
:: a refusal comes before the output fails
-- r.csv 2: r1,x
>> ^3 ask s q --brief => 5 err\

== beside a report
-- s
relation R from "r.csv" row id entity eid (a: int);
orders R from "o.csv";
-- r.csv
id,eid,a
r1,x,1
r2,x,2
r3,x,3
-- o.csv
attribute,earlier,later
a,r2,r1
-- q: consistent;
-- p
currency report 1;
verdict consistent;
completion;
ranking R.a of x: r2 < r1 < r3;
end;
>> verify s q p => 0 accepted consistent
>> !1 verify s q p => 7 read fault s
>> !2 verify s q p => 7 read fault r.csv
>> !3 verify s q p => 7 read fault o.csv
>> !4 verify s q p => 7 read fault q
>> !5 verify s q p => 7 read fault p
>> !6 verify s q p => 0 accepted consistent
>> !1 ^3 verify s q p => 7 rea\
>> ^3 verify s q p => 8 acc\
>> ^0 verify s q p => 8 \
>> ^20 verify s q p => 0 accepted consistent
>> ^19 verify s q p => 8 accepted consistent\
:: words are refused before anything is read
>> verify s q => 2 words refused
>> !1 verify s q => 2 words refused
>> ^0 verify s q => 2 \
>> trial  => 2 words refused
"#;

#[test]
fn faults_of_the_outside_have_their_status(rt: HostRuntime) -> Result<(), Fail> {
    expect_played(&rt, ROWS)
}
