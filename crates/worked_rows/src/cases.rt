//! Specifications with their tables, and what is due for the question whether they are consistent.

use crate::runs::{Documents, first};

/// A specification, its tables, and the verdict.
#[derive(Clone, Copy)]
pub struct Case<'a> {
    pub spec: &'a str,
    pub tables: &'a [(&'a str, &'a [u8])],
    pub verdict: &'a str,
}

impl<'a> Case<'a> {
    /// The documents of the case, with a report that is to be verified.
    pub fn documents(self, report: &'a [u8]) -> Documents<'a> {
        Documents {
            s: self.spec.as_bytes(),
            p: report,
            tables: self.tables,
            ..first()
        }
    }
}

/// Three rows of which nothing is known.
pub const FREE: Case<'static> = Case {
    spec: "relation R from \"r.csv\" row id entity eid (a: int);\n",
    tables: &[],
    verdict: "consistent",
};

// A circle of known orders.
const CIRCLE: Case<'static> = Case {
    spec: "relation R from \"r.csv\" row id entity eid (a: int);
order R.a: r1 < r2, r2 < r3, r3 < r1;
",
    tables: &[],
    verdict: "inconsistent",
};

// A rule that no row can meet, since both variables may stand for one.
const NEVER: Case<'static> = Case {
    spec: "relation R from \"r.csv\" row id entity eid (a: int);
rule n on R (s, t): s before t in a;
",
    tables: &[],
    verdict: "inconsistent",
};

// A rule with no instance.
const VOID: Case<'static> = Case {
    spec: "relation R from \"r.csv\" row id entity eid (a: int);
rule n on R (s, t): if s before s in a then false;
",
    tables: &[],
    verdict: "consistent",
};

// A relation with no row.
const EMPTY: Case<'static> = Case {
    spec: "relation E from \"e.csv\" row id entity eid (a: int);
rule n on E (s, t): s before t in a;
",
    tables: &[("e.csv", b"id,eid,a\n")],
    verdict: "consistent",
};

const EMP: &[u8] = b"id,eid,status,last,salary,address
s1,mary,single,Smith,50,2 Small St
s2,mary,married,Dupont,50,10 Elm Ave
s3,mary,married,Dupont,80,6 Main St
";

/// The history of an employee.
pub const HISTORY: Case<'static> = Case {
    spec: "relation Emp from \"emp.csv\" row id entity eid (status: text, last: text, salary: int, address: text);
rule pay on Emp (s, t): if s.salary > t.salary then t before s in salary;
rule wed on Emp (s, t): if s.status = \"married\" and t.status = \"single\" then t before s in status;
rule name on Emp (s, t): if t before s in status then t before s in last;
rule move on Emp (s, t): if t before s in salary then t before s in address;
",
    tables: &[("emp.csv", EMP)],
    verdict: "consistent",
};

// The same, and a department whose managers were copied from it.
const STAFF: Case<'static> = Case {
    spec: "relation Emp from \"emp.csv\" row id entity eid (status: text, last: text, salary: int, address: text);
rule pay on Emp (s, t): if s.salary > t.salary then t before s in salary;
rule wed on Emp (s, t): if s.status = \"married\" and t.status = \"single\" then t before s in status;
rule name on Emp (s, t): if t before s in status then t before s in last;
rule move on Emp (s, t): if t before s in salary then t before s in address;
relation Dept from \"dept.csv\" row id entity eid (mgr: text, budget: int);
copy c into Dept (mgr) from Emp (last): d1 from s1, d2 from s3;
",
    tables: &[
        ("emp.csv", EMP),
        (
            "dept.csv",
            b"id,eid,mgr,budget
d1,rd,Smith,6500
d2,rd,Dupont,6000
",
        ),
    ],
    verdict: "consistent",
};

/// A triangle whose edges were copied.
pub const TRIANGLE: Case<'static> = Case {
    spec: "relation S from \"s.csv\" row id entity eid (a: int);
relation T from \"t.csv\" row id entity eid (b: int);
copy c1 into T (b) from S (a): t1 from p1, t2 from p2;
copy c2 into T (b) from S (a): t2 from q1, t3 from q2;
copy c3 into T (b) from S (a): t3 from w1, t1 from w2;
",
    tables: &[
        (
            "s.csv",
            b"id,eid,a\np1,p,0\np2,p,0\nq1,q,0\nq2,q,0\nw1,w,0\nw2,w,0\n",
        ),
        ("t.csv", b"id,eid,b\nt1,x,0\nt2,x,0\nt3,x,0\n"),
    ],
    verdict: "consistent",
};

/// Four rules on two rows, which leave no order in three attributes.
pub const EIGHT: Case<'static> = Case {
    spec: "relation U from \"u.csv\" row id entity eid (a: int, b: int, c: int);
rule n1 on U (s, t): if s before t in a and s before t in b and s before t in c then false;
rule n2 on U (s, t): if s before t in a and s before t in b and t before s in c then false;
rule n3 on U (s, t): if s before t in a and t before s in b and s before t in c then false;
rule n4 on U (s, t): if t before s in a and s before t in b and s before t in c then false;
",
    tables: &[("u.csv", b"id,eid,a,b,c\nr1,x,0,0,0\nr2,x,0,0,0\n")],
    verdict: "inconsistent",
};

// A copy that is read backwards.
const BACK: Case<'static> = Case {
    spec: "relation S from \"s.csv\" row id entity eid (a: int);
relation T from \"t.csv\" row id entity eid (b: int);
copy c into T (b) from S (a): t1 from s1, t2 from s2;
order T.b: t1 < t2;
",
    tables: &[
        ("s.csv", b"id,eid,a\ns1,y,1\ns2,y,2\n"),
        ("t.csv", b"id,eid,b\nt1,x,1\nt2,x,2\n"),
    ],
    verdict: "consistent",
};

/// Each of them.
pub const EACH: [Case<'static>; 9] = [
    FREE, CIRCLE, NEVER, VOID, EMPTY, STAFF, TRIANGLE, EIGHT, BACK,
];
