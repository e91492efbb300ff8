//! Rings of entities, each of four rows, which were copied from the rows of the next one. Those in which the last
//! entity is turned by a row have no consistent completion.

use crate::documents::expect_played;
use std::test::Fail;

const ROWS: &str = r#"
== rings of copies are decided
-- r.csv
id,eid,a
*0-24 a%_0,a%,0|a%_1,a%,0|a%_2,a%,0|a%_3,a%,0
*0-24 b%_0,b%,0|b%_1,b%,0|b%_2,b%,0|b%_3,b%,0
*0-24 c%_0,c%,0|c%_1,c%,0|c%_2,c%,0|c%_3,c%,0
*0-24 d%_0,d%,0|d%_1,d%,0|d%_2,d%,0|d%_3,d%,0
-- copy.csv
target,source
*0-23 a%_0,a@_0|a%_1,a@_1|a%_2,a@_2|a%_3,a@_3
*0-23 b%_0,b@_0|b%_1,b@_1|b%_2,b@_2|b%_3,b@_3
*0-23 c%_0,c@_0|c%_1,c@_1|c%_2,c@_2|c%_3,c@_3
*0-23 d%_0,d@_0|d%_1,d@_1|d%_2,d@_2|d%_3,d@_3
*1-1 a24_0,a0_0|a24_1,a0_1|a24_2,a0_2|a24_3,a0_3
*1-1 b24_0,b0_0|b24_1,b0_1|b24_2,b0_2|b24_3,b0_3
*1-1 c24_0,c0_0|c24_1,c0_1|c24_2,c0_2|c24_3,c0_3
*1-1 d24_0,d0_0|d24_1,d0_1|d24_2,d0_2|d24_3,d0_3
-- s
relation A from "r.csv" row id entity eid (a: int);
copy c into A (a) from A (a) using "copy.csv";
-- q: consistent;
>> ask s q
0 currency report 2;
verdict consistent;
...
>> verify s q p => 0 accepted consistent
:: turned
-- copy.csv
target,source
*0-23 a%_0,a@_0|a%_1,a@_1|a%_2,a@_2|a%_3,a@_3
*0-23 b%_0,b@_0|b%_1,b@_1|b%_2,b@_2|b%_3,b@_3
*0-23 c%_0,c@_0|c%_1,c@_1|c%_2,c@_2|c%_3,c@_3
*0-23 d%_0,d@_0|d%_1,d@_1|d%_2,d@_2|d%_3,d@_3
*1-1 a24_0,a0_1|a24_1,a0_2|a24_2,a0_3|a24_3,a0_0
*1-1 b24_0,b0_1|b24_1,b0_2|b24_2,b0_3|b24_3,b0_0
*1-1 c24_0,c0_1|c24_1,c0_2|c24_2,c0_3|c24_3,c0_0
*1-1 d24_0,d0_1|d24_1,d0_2|d24_2,d0_3|d24_3,d0_0
>> ask s q
0 currency report 2;
verdict inconsistent;
...
>> verify s q p => 0 accepted inconsistent
"#;

#[test]
fn rings_of_copies_are_decided(rt: HostRuntime) -> Result<(), Fail> {
    expect_played(&rt, ROWS)
}
