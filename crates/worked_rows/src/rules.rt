//! Rules: which completions satisfy them, and how they are refused.

use crate::documents::expect_played;
use std::test::Fail;

const ROWS: &str = r#"
== a constant stands on either side
-- s
relation R from "r.csv" row id entity eid (a: int);
rule n on R (s): if s.a = 2 then false;\
-- r.csv
id,eid,a
r1,x,1
r2,x,2
-- q: consistent;
-- p
currency report 1;
verdict consistent;
completion;
ranking R.a of x: r1 < r2;
end;
>> verify s q p => 4 refused V1 p 3
-- s
relation R from "r.csv" row id entity eid (a: int);
rule n on R (s): if s.a = 3 then false;\
>> verify s q p => 0 accepted consistent
-- s
relation R from "r.csv" row id entity eid (a: int);
rule n on R (s): if 2 = s.a then false;\
>> verify s q p => 4 refused V1 p 3
-- s
relation R from "r.csv" row id entity eid (a: int);
rule n on R (s): if 3 = s.a then false;\
>> verify s q p => 0 accepted consistent
-- s
relation R from "r.csv" row id entity eid (a: int);
rule n on R (s): if s.a < 2 then false;\
>> verify s q p => 4 refused V1 p 3
-- s
relation R from "r.csv" row id entity eid (a: int);
rule n on R (s): if s.a < 1 then false;\
>> verify s q p => 0 accepted consistent
-- s
relation R from "r.csv" row id entity eid (a: int);
rule n on R (s): if 1 < s.a then false;\
>> verify s q p => 4 refused V1 p 3
-- s
relation R from "r.csv" row id entity eid (a: int);
rule n on R (s): if 2 < s.a then false;\
>> verify s q p => 0 accepted consistent
-- s
relation R from "r.csv" row id entity eid (a: int);
rule n on R (s): if s.a <= -1 then false;\
>> verify s q p => 0 accepted consistent
-- s
relation R from "r.csv" row id entity eid (a: int);
rule n on R (s): if -1 <= s.a then false;\
>> verify s q p => 4 refused V1 p 3
-- s
relation R from "r.csv" row id entity eid (a: int);
rule n on R (s): if 1 < 2 then false;\
>> verify s q p => 4 refused V1 p 3
-- s
relation R from "r.csv" row id entity eid (a: int);
rule n on R (s): if "b" < "a" then false;\
>> verify s q p => 0 accepted consistent

== a rule is of its relation
-- s
relation R from "r.csv" row id entity eid (a: int);
relation T from "t.csv" row id entity eid (a: int);
rule n on R (s, t): if s.a < t.a then s before t in a;\
-- r.csv
id,eid,a
r1,x,1
r2,x,2
-- t.csv
id,eid,a
t1,x,1
t2,x,2
-- q: consistent;
-- p
currency report 1;
verdict consistent;
completion;
ranking R.a of x: r1 < r2;
ranking T.a of x: t2 < t1;
end;
>> verify s q p => 0 accepted consistent
-- s
relation R from "r.csv" row id entity eid (a: int);
relation T from "t.csv" row id entity eid (a: int);
rule n on T (s, t): if s.a < t.a then s before t in a;\
>> verify s q p => 4 refused V1 p 3
-- s
relation R from "r.csv" row id entity eid (a: int);
relation T from "t.csv" row id entity eid (a: int);
rule n on T (s, t): if s.a < t.a then t before s in a;\
>> verify s q p => 0 accepted consistent
-- s
relation R from "r.csv" row id entity eid (a: int);
relation T from "t.csv" row id entity eid (a: int);
rule n on R (s, t): if s.a < t.a then t before s in a;\
>> verify s q p => 4 refused V1 p 3

== a staff history keeps its rules
-- s
relation Emp from "emp.csv" row id entity eid (status: text, last: text, salary: int, address: text);
rule pay on Emp (s, t): if s.salary > t.salary then t before s in salary;
rule wed on Emp (s, t): if s.status = "married" and t.status = "single" then t before s in status;
rule name on Emp (s, t): if t before s in status then t before s in last;
rule move on Emp (s, t): if t before s in salary then t before s in address;
-- emp.csv
id,eid,status,last,salary,address
s1,mary,single,Smith,50,2 Small St
s2,mary,married,Dupont,50,10 Elm Ave
s3,mary,married,Dupont,80,6 Main St
-- q: consistent;
-- p
currency report 1;
verdict consistent;
completion;
ranking Emp.status of mary: s1 < s2 < s3;
ranking Emp.last of mary: s1 < s2 < s3;
ranking Emp.salary of mary: s1 < s2 < s3;
ranking Emp.address of mary: s1 < s2 < s3;
end;
>> verify s q p => 0 accepted consistent
-- p 6: ranking Emp.salary of mary: s3 < s1 < s2;
>> verify s q p => 4 refused V1 p 3
-- p 6-7
ranking Emp.salary of mary: s2 < s1 < s3;
ranking Emp.address of mary: s2 < s1 < s3;
>> verify s q p => 0 accepted consistent
-- p 6: ranking Emp.salary of mary: s2 < s1 < s3;
>> verify s q p => 4 refused V1 p 3
-- p 4-5
ranking Emp.status of mary: s1 < s3 < s2;
ranking Emp.last of mary: s1 < s3 < s2;
>> verify s q p => 0 accepted consistent
-- p 4: ranking Emp.status of mary: s1 < s3 < s2;
>> verify s q p => 4 refused V1 p 3
-- p 4-5
ranking Emp.status of mary: s2 < s1 < s3;
ranking Emp.last of mary: s2 < s1 < s3;
>> verify s q p => 4 refused V1 p 3

== each of several rules is judged
-- s
relation R from "r.csv" row id entity eid (a: int);
rule n on R (s, t): if s.a < t.a then s before t in a;
          rule m on R (s, t): if s.a > t.a then t before s in a;\
-- r.csv
id,eid,a
r1,x,1
r2,x,2
-- q: consistent;
-- p
currency report 1;
verdict consistent;
completion;
ranking R.a of x: r1 < r2;
end;
>> verify s q p => 0 accepted consistent
-- s
relation R from "r.csv" row id entity eid (a: int);
rule n on R (s, t): if s.a < t.a then s before t in a;
          rule m on R (s, t): if s.a < t.a then t before s in a;\
>> verify s q p => 4 refused V1 p 3
-- s
relation R from "r.csv" row id entity eid (a: int);
rule n on R (s, t): if s.a < t.a then t before s in a;
          rule m on R (s, t): if s.a < t.a then s before t in a;\
>> verify s q p => 4 refused V1 p 3
-- s
relation R from "r.csv" row id entity eid (a: int);
rule n on R (s, t): if s.a < t.a then s before t in a;
          order R.a: r2 < r1;\
>> verify s q p => 4 refused V1 p 3
-- s
relation R from "r.csv" row id entity eid (a: int);
order R.a: r1 < r2;
          rule n on R (s, t): if s.a < t.a then s before t in a;\
>> verify s q p => 0 accepted consistent

== few rows keep or break a rule
-- s
relation R from "r.csv" row id entity eid (a: int);
rule n on R (s, t): s before t in a;\
-- r.csv
id,eid,a
r1,x,1
-- q: consistent;
-- p
currency report 1;
verdict consistent;
completion;
ranking R.a of x: r1;
end;
>> verify s q p => 4 refused V1 p 3
-- s
relation R from "r.csv" row id entity eid (a: int);
rule n on R (s, t): if s.a = t.a then s before t in a;\
>> verify s q p => 4 refused V1 p 3
-- s
relation R from "r.csv" row id entity eid (a: int);
rule n on R (s, t): if s.a < t.a then s before t in a;\
>> verify s q p => 0 accepted consistent
-- s
relation R from "r.csv" row id entity eid (a: int);
rule n on R (s): false;\
>> verify s q p => 4 refused V1 p 3
-- s
relation R from "r.csv" row id entity eid (a: int);
rule n on R (s, t): s before t in a;\
-- r.csv: id,eid,a
-- p 4-5: end;
>> verify s q p => 0 accepted consistent
-- s
relation R from "r.csv" row id entity eid (a: int);
rule n on R (s): false;\
-- p 4-5: end;
>> verify s q p => 0 accepted consistent

== no report fits a rule that one row breaks
-- s
relation R from "r.csv" row id entity eid (a: int);
rule n on R (s, t): s before t in a;
-- r.csv
id,eid,a
r1,x,1
r2,x,2
r3,x,3
-- q: consistent;
-- p
currency report 1;
verdict consistent;
completion;
ranking R.a of x: r1 < r2 < r3;
end;
>> verify s q p => 4 refused V1 p 3
-- p 4: ranking R.a of x: r1 < r3 < r2;
>> verify s q p => 4 refused V1 p 3
-- p 4: ranking R.a of x: r2 < r1 < r3;
>> verify s q p => 4 refused V1 p 3
-- p 4: ranking R.a of x: r2 < r3 < r1;
>> verify s q p => 4 refused V1 p 3
-- p 4: ranking R.a of x: r3 < r1 < r2;
>> verify s q p => 4 refused V1 p 3
-- p 4: ranking R.a of x: r3 < r2 < r1;
>> verify s q p => 4 refused V1 p 3

== rules are judged
-- s
relation R from "r.csv" row id entity eid (a: int);
rule n on R (s, t): if s.a < t.a then s before t in a;\
-- r.csv
id,eid,a
r1,x,1
r2,x,2
-- q: consistent;
-- p
currency report 1;
verdict consistent;
completion;
ranking R.a of x: r1 < r2;
end;
>> verify s q p => 0 accepted consistent
-- s
relation R from "r.csv" row id entity eid (a: int);
rule n on R (s, t): if s.a < t.a then t before s in a;\
>> verify s q p => 4 refused V1 p 3
:: Both variables may be one row, which is before no row.
-- s
relation R from "r.csv" row id entity eid (a: int);
rule n on R (s, t): s before t in a;\
>> verify s q p => 4 refused V1 p 3
-- s
relation R from "r.csv" row id entity eid (a: int);
rule n on R (s, t): if s.a <= t.a then s before t in a;\
>> verify s q p => 4 refused V1 p 3
-- s
relation R from "r.csv" row id entity eid (a: int);
rule n on R (s, t): if s before s in a then false;\
>> verify s q p => 0 accepted consistent
-- s
relation R from "r.csv" row id entity eid (a: int);
rule n on R (s, t): if s before t in a then s before t in a;\
>> verify s q p => 0 accepted consistent
-- s
relation R from "r.csv" row id entity eid (a: int);
rule n on R (s, t): if s before t in a then t before s in a;\
>> verify s q p => 4 refused V1 p 3
-- s
relation R from "r.csv" row id entity eid (a: int);
rule n on R (s): false;\
>> verify s q p => 4 refused V1 p 3
:: The last predicate alone fails.
-- s
relation R from "r.csv" row id entity eid (a: int);
rule n on R (s, t): if s before t in a and s.a < t.a and s.a = t.a then false;\
>> verify s q p => 0 accepted consistent
-- s
relation R from "r.csv" row id entity eid (a: int);
rule n on R (s, t): if s before t in a and s.a < t.a and s.a != t.a then false;\
>> verify s q p => 4 refused V1 p 3

== rules are judged within each entity
-- s
relation R from "r.csv" row id entity eid (a: int);
rule n on R (s, t): if s.a < t.a then s before t in a;\
-- r.csv
id,eid,a
r1,x,2
r2,y,1
r3,y,3
r4,x,4
-- q: consistent;
-- p
currency report 1;
verdict consistent;
completion;
ranking R.a of x: r1 < r4;
ranking R.a of y: r2 < r3;
end;
>> verify s q p => 0 accepted consistent
-- p 5: ranking R.a of y: r3 < r2;
>> verify s q p => 4 refused V1 p 3
-- p 4: ranking R.a of x: r4 < r1;
>> verify s q p => 4 refused V1 p 3
-- p 4-5
ranking R.a of x: r4 < r1;
ranking R.a of y: r3 < r2;
>> verify s q p => 4 refused V1 p 3

== rules are refused at the line of the fault
-- s
relation R from "r.csv" row id entity eid (a: int);
rule n on R (s,
 s): if s.a = 1
 and s.b = 1
 and u.a = 1 then false;\
-- r.csv
id,eid,a
r1,x,1
r2,x,2
r3,x,3
-- q: consistent;
-- p
currency report 1;
verdict consistent;
completion;
ranking R.a of x: r2 < r1 < r3;
end;
>> verify s q p => 5 error E03 s 4
-- s
relation R from "r.csv" row id entity eid (a: int);
rule n
 on
 Q (s): false;\
>> verify s q p => 5 error E03 s 4
-- s
relation R from "r.csv" row id entity eid (a: int);
rule n on R (s): if s.a = 1 then
 s before
 t in
 a;\
>> verify s q p => 5 error E03 s 4
-- s
relation R from "r.csv" row id entity eid (a: int);
rule n on R (s, t): if s.a = 1 then
 s before
 t in
 b;\
>> verify s q p => 5 error E03 s 5
-- s
relation R from "r.csv" row id entity eid (a: int);
rule n on R (s): false;
rule
 n on R (t, t): false;\
>> verify s q p => 5 error E04 s 4
-- s
relation R from "r.csv" row id entity eid (a: int);
rule n on R (s,
 t,
 s,
 t): if s.a = "1" then s before t in a;\
>> verify s q p => 5 error E04 s 4
-- s
relation R from "r.csv" row id entity eid (a: int);
rule n on R (s): if s.a = 1 and
 s.a = "1" and
 "2" = 2 then false;\
>> verify s q p => 5 error E05 s 3
-- s
relation R from "r.csv" row id entity eid (a: int);
rule n on R (s): if s.a
 = "1" then false;\
>> verify s q p => 5 error E05 s 2
-- s
relation R from "r.csv" row id entity eid (a: int);
rule n on R (s): if
 s.a = "1" then false;\
>> verify s q p => 5 error E05 s 3

== rules are refused on the second line
-- s
relation R from "r.csv" row id entity eid (a: int);
rule n on R s, t: false;
order Q.a: r1 < r2;
-- r.csv
id,eid,a
r1,x,1
r2,x,2
r3,x,3
-- q: consistent;
-- p
currency report 1;
verdict consistent;
completion;
ranking R.a of x: r2 < r1 < r3;
end;
>> verify s q p => 5 error E02 s 2
-- s 2: rule n on R (): false;
>> verify s q p => 5 error E02 s 2
-- s 2: rule n on R (s, t): if s.a = 1 and then false;
>> verify s q p => 5 error E02 s 2
-- s 2: rule n on Q (s, t): s before t in a;
>> verify s q p => 5 error E03 s 2
-- s 2: rule n on R (s, t): if u before t in a then false;
>> verify s q p => 5 error E03 s 2
-- s 2: rule n on R (s, t): if u.a = 1 then false;
>> verify s q p => 5 error E03 s 2
-- s 2: rule n on R (s, t): s before u in a;
>> verify s q p => 5 error E03 s 2
-- s 2: rule n on R (s, t): if s.b = 1 then false;
>> verify s q p => 5 error E03 s 2
-- s 2: rule n on R (s, t): if s before t in b then false;
>> verify s q p => 5 error E03 s 2
-- s 2: rule n on R (s, t): s before t in b;
>> verify s q p => 5 error E03 s 2
-- s 2: rule n on R (s, s): if s.a = "1" and s.b = 1 then false;
>> verify s q p => 5 error E03 s 2
-- s 2: rule n on R (s, s): s before s in a;
>> verify s q p => 5 error E04 s 2
-- s 2: rule n on R (s, s): if s.a = "1" then false;
>> verify s q p => 5 error E04 s 2
-- s 2: rule n on R (s, t): if s.a = "1" then s before t in a;
>> verify s q p => 5 error E05 s 2
-- s 2: rule n on R (s, t): if "1" != t.a then s before t in a;
>> verify s q p => 5 error E05 s 2
-- s 2: rule n on R (s, t): if 1 = "1" then s before t in a;
>> verify s q p => 5 error E05 s 2
:: A rule may have the name of a relation, and then the third line is refused.
-- s 2: rule R on R (s, t): s before t in a;
>> verify s q p => 5 error E03 s 3

== rules of four variables are judged
-- s
relation R from "r.csv" row id entity eid (a: int);
rule n on R (s, t, u, v): if s before t in a and t before u in a and u before v in a then s before v in a;\
-- r.csv
id,eid,a
r1,x,1
r2,x,2
r3,x,3
r4,x,4
-- q: consistent;
-- p
currency report 1;
verdict consistent;
completion;
ranking R.a of x: r1 < r2 < r3 < r4;
end;
>> verify s q p => 0 accepted consistent
-- s
relation R from "r.csv" row id entity eid (a: int);
rule n on R (s, t, u, v): if s before t in a and t before u in a and u before v in a then v before s in a;\
>> verify s q p => 4 refused V1 p 3
-- s
relation R from "r.csv" row id entity eid (a: int);
rule n on R (s, t, u, v): if s before t in a and t before u in a and u before v in a then false;\
>> verify s q p => 4 refused V1 p 3
-- s
relation R from "r.csv" row id entity eid (a: int);
rule n on R (s, t, u, v): if s.a = 2 and s before t in a and t before u in a and u before v in a then false;\
>> verify s q p => 0 accepted consistent
-- s
relation R from "r.csv" row id entity eid (a: int);
rule n on R (s, t, u, v): if s.a < t.a and t.a < u.a and u.a < v.a and v.a <= 3 then false;\
>> verify s q p => 0 accepted consistent
-- s
relation R from "r.csv" row id entity eid (a: int);
rule n on R (s, t, u, v): if s.a < t.a and t.a < u.a and u.a < v.a and v.a <= 4 then false;\
>> verify s q p => 4 refused V1 p 3
:: With s and v one row it fails, which is before no row.
-- s
relation R from "r.csv" row id entity eid (a: int);
rule n on R (s, t, u, v): if s before t in a and u before v in a then s before v in a;\
>> verify s q p => 4 refused V1 p 3
-- s
relation R from "r.csv" row id entity eid (a: int);
rule n on R (s, t, u, v): if s.a = 3 and t.a = 3 and u.a = 3 and v.a = 3 then false;\
>> verify s q p => 4 refused V1 p 3
"#;

#[test]
fn rules_are_judged(rt: HostRuntime) -> Result<(), Fail> {
    expect_played(&rt, ROWS)
}
