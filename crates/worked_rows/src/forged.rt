//! Reports with a line forged: cut off, left out, doubled, exchanged, replaced.

use crate::documents::expect_played;
use std::test::Fail;

const ROWS: &str = r#"
== a report of a circle
-- s
relation R from "r.csv" row id entity eid (a: int);
order R.a: r1 < r2, r2 < r3, r3 < r1;
-- r.csv
id,eid,a
r1,x,1
r2,x,2
r3,x,3
-- q: consistent;
:: cut after each line
-- p
>> verify s q p => 5 error E02 p 1
-- p
currency report 1;
>> verify s q p => 5 error E02 p 2
-- p
currency report 1;
verdict inconsistent;
>> verify s q p => 5 error E02 p 3
-- p
currency report 1;
verdict inconsistent;
log;
>> verify s q p => 5 error E02 p 4
-- p
currency report 1;
verdict inconsistent;
log;
statement before 1 1 1 2;
>> verify s q p => 5 error E02 p 5
-- p
currency report 1;
verdict inconsistent;
log;
statement before 1 1 1 2;
statement before 1 1 1 3;
>> verify s q p => 5 error E02 p 6
-- p
currency report 1;
verdict inconsistent;
log;
statement before 1 1 1 2;
statement before 1 1 1 3;
statement before 1 1 2 3;
>> verify s q p => 5 error E02 p 7
-- p
currency report 1;
verdict inconsistent;
log;
statement before 1 1 1 2;
statement before 1 1 1 3;
statement before 1 1 2 3;
axiom given 1 1 1 2: 1;
>> verify s q p => 5 error E02 p 8
-- p
currency report 1;
verdict inconsistent;
log;
statement before 1 1 1 2;
statement before 1 1 1 3;
statement before 1 1 2 3;
axiom given 1 1 1 2: 1;
axiom given 1 1 2 3: 3;
>> verify s q p => 5 error E02 p 9
-- p
currency report 1;
verdict inconsistent;
log;
statement before 1 1 1 2;
statement before 1 1 1 3;
statement before 1 1 2 3;
axiom given 1 1 1 2: 1;
axiom given 1 1 2 3: 3;
axiom given 1 1 3 1: -2;
>> verify s q p => 5 error E02 p 10
-- p
currency report 1;
verdict inconsistent;
log;
statement before 1 1 1 2;
statement before 1 1 1 3;
statement before 1 1 2 3;
axiom given 1 1 1 2: 1;
axiom given 1 1 2 3: 3;
axiom given 1 1 3 1: -2;
axiom transitive 1 1 1 2 3: -1 2 -3;
>> verify s q p => 5 error E02 p 11
-- p
currency report 1;
verdict inconsistent;
log;
statement before 1 1 1 2;
statement before 1 1 1 3;
statement before 1 1 2 3;
axiom given 1 1 1 2: 1;
axiom given 1 1 2 3: 3;
axiom given 1 1 3 1: -2;
axiom transitive 1 1 1 2 3: -1 2 -3;
derive by 1 2 3 4;
>> verify s q p => 5 error E02 p 12
-- p
currency report 1;
verdict inconsistent;
log;
statement before 1 1 1 2;
statement before 1 1 1 3;
statement before 1 1 2 3;
axiom given 1 1 1 2: 1;
axiom given 1 1 2 3: 3;
axiom given 1 1 3 1: -2;
axiom transitive 1 1 1 2 3: -1 2 -3;
derive by 1 2 3 4;
end;
>> verify s q p => 0 accepted inconsistent
:: an empty line stands for each
-- p 1
>> verify s q p => 5 error E02 p 2
-- p 2
>> verify s q p => 5 error E02 p 3
-- p 3
>> verify s q p => 5 error E02 p 4
-- p 4
>> verify s q p => 5 error E03 p 8
-- p 5
>> verify s q p => 5 error E03 p 8
-- p 6
>> verify s q p => 5 error E03 p 8
-- p 7
>> verify s q p => 4 refused V2 p 11
-- p 8
>> verify s q p => 4 refused V2 p 11
-- p 9
>> verify s q p => 4 refused V2 p 11
-- p 10
>> verify s q p => 4 refused V2 p 11
-- p 11
>> verify s q p => 4 refused V3 p 2
-- p 12
>> verify s q p => 5 error E02 p 13
:: each line is doubled
-- p 1
currency report 1;
currency report 1;
>> verify s q p => 5 error E02 p 2
-- p 2
verdict inconsistent;
verdict inconsistent;
>> verify s q p => 5 error E02 p 3
-- p 3
log;
log;
>> verify s q p => 5 error E02 p 4
-- p 4
statement before 1 1 1 2;
statement before 1 1 1 2;
>> verify s q p => 5 error E04 p 5
-- p 5
statement before 1 1 1 3;
statement before 1 1 1 3;
>> verify s q p => 5 error E04 p 6
-- p 6
statement before 1 1 2 3;
statement before 1 1 2 3;
>> verify s q p => 5 error E04 p 7
-- p 7
axiom given 1 1 1 2: 1;
axiom given 1 1 1 2: 1;
>> verify s q p => 4 refused V2 p 12
-- p 8
axiom given 1 1 2 3: 3;
axiom given 1 1 2 3: 3;
>> verify s q p => 4 refused V2 p 12
-- p 9
axiom given 1 1 3 1: -2;
axiom given 1 1 3 1: -2;
>> verify s q p => 4 refused V2 p 12
-- p 10
axiom transitive 1 1 1 2 3: -1 2 -3;
axiom transitive 1 1 1 2 3: -1 2 -3;
>> verify s q p => 0 accepted inconsistent
-- p 11
derive by 1 2 3 4;
derive by 1 2 3 4;
>> verify s q p => 0 accepted inconsistent
-- p 12
end;
end;
>> verify s q p => 5 error E02 p 13
:: each line is exchanged with the next
-- p 1-2
verdict inconsistent;
currency report 1;
>> verify s q p => 5 error E02 p 1
-- p 2-3
log;
verdict inconsistent;
>> verify s q p => 5 error E02 p 2
-- p 3-4
statement before 1 1 1 2;
log;
>> verify s q p => 5 error E02 p 3
-- p 4-5
statement before 1 1 1 3;
statement before 1 1 1 2;
>> verify s q p => 5 error E04 p 5
-- p 5-6
statement before 1 1 2 3;
statement before 1 1 1 3;
>> verify s q p => 5 error E04 p 6
-- p 6-7
axiom given 1 1 1 2: 1;
statement before 1 1 2 3;
>> verify s q p => 5 error E02 p 7
-- p 7-8
axiom given 1 1 2 3: 3;
axiom given 1 1 1 2: 1;
>> verify s q p => 0 accepted inconsistent
-- p 8-9
axiom given 1 1 3 1: -2;
axiom given 1 1 2 3: 3;
>> verify s q p => 0 accepted inconsistent
-- p 9-10
axiom transitive 1 1 1 2 3: -1 2 -3;
axiom given 1 1 3 1: -2;
>> verify s q p => 0 accepted inconsistent
-- p 10-11
derive by 1 2 3 4;
axiom transitive 1 1 1 2 3: -1 2 -3;
>> verify s q p => 4 refused V2 p 10
-- p 11-12
end;
derive by 1 2 3 4;
>> verify s q p => 5 error E02 p 12
:: other lines
-- p 1: currency report 2;
>> verify s q p => 0 accepted inconsistent
-- p 1: currency report 0;
>> verify s q p => 5 error E02 p 1
-- p 1: currency report 3;
>> verify s q p => 5 error E02 p 1
-- p 1: currency brief 2;
>> verify s q p => 5 error E02 p 1
-- p 2: verdict consistent;
>> verify s q p => 4 refused V3 p 2
-- p 2: verdict certain;
>> verify s q p => 4 refused V3 p 2
-- p 2: verdict undecided 1;
>> verify s q p => 4 refused V3 p 2
-- p 2: verdict undecided 0;
>> verify s q p => 0 accepted undecided
-- p 4: statement before 1 1 2 1;
>> verify s q p => 5 error E11 p 4
-- p 4: statement before 1 1 1 1;
>> verify s q p => 5 error E11 p 4
-- p 4: statement before 1 1 1 4;
>> verify s q p => 5 error E10 p 4
-- p 4: statement before 1 2 1 2;
>> verify s q p => 5 error E03 p 4
-- p 4: statement before 2 1 1 2;
>> verify s q p => 5 error E03 p 4
-- p 4: statement before 1 1 1 3;
>> verify s q p => 5 error E04 p 5
-- p 6: statement answer ();
>> verify s q p => 4 refused V2 p 8
-- p 7: axiom given 1 1 1 2: 9;
>> verify s q p => 5 error E03 p 7
-- p 7: axiom given 1 1 1 2: 4;
>> verify s q p => 5 error E03 p 7
-- p 7: axiom given 1 1 1 2: -4;
>> verify s q p => 5 error E03 p 7
-- p 7: axiom given 1 1 1 2: 2147483648;
>> verify s q p => 5 error E03 p 7
-- p 7: axiom given 1 1 1 2: 2147483649;
>> verify s q p => 5 error E02 p 7
-- p 7: axiom given 1 1 1 2: 0;
>> verify s q p => 5 error E02 p 7
-- p 7: axiom given 1 1 1 0: 1;
>> verify s q p => 5 error E02 p 7
-- p 7: axiom given 1 1 1 4294967296: 1;
>> verify s q p => 5 error E02 p 7
-- p 7: axiom given 1 1 1 18446744073709551616: 1;
>> verify s q p => 5 error E02 p 7
-- p 7: axiom given 1 1 1 4294967295: 1;
>> verify s q p => 4 refused V2 p 7
-- p 7: axiom given 9 1 1 2: 1;
>> verify s q p => 4 refused V2 p 7
-- p 7: log;
>> verify s q p => 5 error E02 p 7
-- p 9: axiom given 1 1 1 3: 2;
>> verify s q p => 4 refused V2 p 9
-- p 9: axiom given 1 1 3 1: -2 -2;
>> verify s q p => 0 accepted inconsistent
-- p 9: demand given 1 1 3 1: -2;
>> verify s q p => 0 accepted inconsistent
-- p 11: derive by 1 2 3 5;
>> verify s q p => 4 refused V2 p 11
-- p 11: derive by 1 3 4;
>> verify s q p => 4 refused V2 p 11
-- p 11: derive by;
>> verify s q p => 4 refused V2 p 11
-- p 11: derive by 4294967295;
>> verify s q p => 4 refused V2 p 11
-- p 11: derive by 0;
>> verify s q p => 5 error E02 p 11
-- p 11: derive by 4294967296;
>> verify s q p => 5 error E02 p 11
-- p 11: derive 1 by 1;
>> verify s q p => 4 refused V3 p 2
-- p 11: learn by 1 2 3 4;
>> verify s q p => 0 accepted inconsistent
-- p 12: end; end;
>> verify s q p => 5 error E02 p 12
"#;

#[test]
fn forged_reports_are_refused(rt: HostRuntime) -> Result<(), Fail> {
    expect_played(&rt, ROWS)
}
