//! Which lists are linked.

ghost use Rattle.std.specs.Prelude.{◌≡◌, true};
ghost use Rattle.order_links.specs.Lists.{IsListOf};

use crate::sources::{Source, specification};
use currency_base::{AttrId, EntId, NoMemory, RelId};
use order_links::{Links, ListId, ListIdList};
use spec_model::{Relation, Specification};
use std::alloc::Global;
use std::test::Fail;

// A relation, an attribute and an entity.
type List = (u32, u32, u32);

// A list, and the lists that it is linked with.
type Row = (List, &'static [List]);

// Entities x and y of S, and p and q of T. The rules link a with b, and d with e by way of f; a comparison and a conclusion
// alone link nothing. Rows of p are copied from x, and one of q from y.
const LINKED: Source = Source {
    text: "relation S from \"s.csv\" row id entity eid (a: int, b: int, c: int);
relation T from \"t.csv\" row id entity eid (d: int, e: int, f: int);
rule m on S (s, t): if s before t in a then s before t in b;
rule n on S (s, t): if s.a < t.a then s before t in c;
rule o on T (s, t): if s before t in d and s.e = t.e and s before t in f and t before s in e then false;
copy c into T (d) from S (a): t1 from s1, t2 from s2, t3 from s3;
",
    tables: &[
        (
            "s.csv",
            "id,eid,a,b,c\ns1,x,1,0,0\ns2,x,2,0,0\ns3,y,3,0,0\n",
        ),
        (
            "t.csv",
            "id,eid,d,e,f\nt1,p,1,0,0\nt2,p,2,0,0\nt3,q,3,0,0\n",
        ),
    ],
};

// One entity, from rows of two.
const JOINED: Source = Source {
    text: "relation S from \"s.csv\" row id entity eid (a: int, b: int);
relation T from \"t.csv\" row id entity eid (d: int, e: int);
copy c into T (d, e) from S (b, a): t1 from s1, t2 from s2;
copy back into S (a) from T (e): s3 from t2;
",
    tables: &[
        ("s.csv", "id,eid,a,b\ns1,x,0,1\ns2,y,0,2\ns3,z,0,3\n"),
        ("t.csv", "id,eid,d,e\nt1,p,1,0\nt2,p,2,0\n"),
    ],
};

// A list that a rule does not leave: order predicates of one attribute alone.
const ALONE: Source = Source {
    text: "relation R from \"r.csv\" row id entity eid (a: int, b: int);
rule n on R (s, t, u): if s before t in a and t before u in a then u before s in a;
",
    tables: &[("r.csv", "id,eid,a,b\nr1,x,1,1\nr2,x,2,2\n")],
};

const ROWS: &[(Source, Row)] = &[
    (
        LINKED,
        (
            (0, 1, 0),
            &[(0, 1, 0), (0, 0, 0), (1, 0, 0), (1, 2, 0), (1, 1, 0)],
        ),
    ),
    (
        LINKED,
        (
            (1, 1, 1),
            &[(1, 1, 1), (1, 2, 1), (1, 0, 1), (0, 0, 1), (0, 1, 1)],
        ),
    ),
    (LINKED, ((0, 2, 0), &[(0, 2, 0)])),
    (JOINED, ((0, 1, 0), &[(0, 1, 0), (1, 0, 0), (0, 1, 1)])),
    (
        JOINED,
        ((0, 0, 2), &[(0, 0, 2), (1, 1, 0), (0, 0, 0), (0, 0, 1)]),
    ),
    (JOINED, ((0, 1, 2), &[(0, 1, 2)])),
    (ALONE, ((0, 0, 0), &[(0, 0, 0)])),
];

#[test]
fn near_lists_are_the_first_that_are_linked(rt: HostRuntime) -> Result<(), Fail> {
    let alloc = rt.alloc();
    for (source, (asked, linked)) in ROWS {
        let spec = specification(alloc, *source)?;
        assert!(rt; are_near(alloc, &spec, *asked, linked)?);
    }
    Ok(())
}

// Are these lists near, and the first of them where fewer are asked for?
fn are_near(
    alloc: Global,
    spec: &Specification,
    asked: List,
    linked: &[List],
) -> Result<bool, NoMemory> {
    let links = Links::new(alloc, spec)?;
    for most in [1, 2, 64] {
        let near = ask_near(alloc, spec, &links, asked, most)?;
        if !are(&near, &linked[..linked.len().min(most)]) {
            return Ok(false);
        }
    }
    Ok(true)
}

// The lists that are near a list, up to so many; none where there is no such list.
fn ask_near(
    alloc: Global,
    spec: &Specification,
    links: &Links<'_>,
    list: List,
    most: usize,
) -> Result<ListIdList, NoMemory>
    requires { links.now ≡ spec.now.relations }
{
    let list = list_of(list);
    if !is_list(spec.relations(), list) {
        return Ok(ListIdList::new(alloc));
    }
    links.near(list, most)
}

// The list of these numbers.
fn list_of((rel, attr, ent): List) -> ListId {
    ListId {
        rel: RelId(rel),
        attr: AttrId(attr),
        ent: EntId(ent),
    }
}

// Is there such a list?
fn is_list(relations: &[Relation], list: ListId) -> bool
    ensures { result ≡ true → IsListOf relations.now list }
{
    match relations.get(list.rel.0 as usize) {
        Some(relation) => {
            (list.attr.0 as usize) < relation.attrs.len()
                && (list.ent.0 as usize) < relation.entities.len()
        }
        None => false,
    }
}

// Are these the lists, in this order?
fn are(lists: &ListIdList, expected: &[List]) -> bool {
    if lists.len() != expected.len() {
        return false;
    }
    lists
        .as_slice()
        .iter()
        .zip(expected)
        .all(|(list, expected)| *list == list_of(*expected))
}
