//! Texts of specifications, in their own spelling and spacing.

use currency_base::ByteList;
use spec_syntax::read_spec;
use spec_write::write_spec;
use std::alloc::Global;
use std::test::Fail;

/// What is written of the specification that a text is read as.
fn written(alloc: Global, source: &[u8]) -> Result<ByteList, Fail> {
    let tree = read_spec(alloc, source)?;
    Ok(write_spec(alloc, &tree)?)
}

#[test]
fn specifications_are_written(rt: HostRuntime) -> Result<(), Fail> {
    let relation = b"relation R from \"r.csv\" row id entity eid (a: int);\n";
    let wide = b"relation \"R x\" from \"\"entity\n\"if\"( a :int , \"b c\":text ) ;
order \"R x\" . a : r1<\"r 2\" , \"\" < \"r3\" ,\"_1\"<\"order\",\"orders\"<\"a\"\"b\"; # three
orders R from \"o\"\"1.csv\"; rule n on R(s,t): if s.a<=007 and -3>t.\"b c\"
and s before t in \"a\" and \"7\"!=s.c then false; rule m on R (s): s before s in a;
copy c into R(a)from \"false\"(a , b):t1 from \"s 1\",t2 from s2; copy d into R (a) from S (a) using \"c\";";
    let narrow = b"relation \"R x\" from \"\" entity \"if\" (a: int, \"b c\": text);
order \"R x\".a: r1 < \"r 2\", \"\" < r3, _1 < order, \"orders\" < \"a\"\"b\";
orders R from \"o\"\"1.csv\";
rule n on R (s, t): if s.a <= 7 and -3 > t.\"b c\" and s before t in a and \"7\" != s.c then false;
rule m on R (s): s before s in a;
copy c into R (a) from \"false\" (a, b): t1 from \"s 1\", t2 from s2;
copy d into R (a) from S (a) using \"c\";
";
    let rows: [(&[u8], &[u8]); 4] = [
        (b"", b""),
        (relation, relation),
        (wide, narrow),
        (narrow, narrow),
    ];
    for (source, wanted) in rows {
        assert_eq!(rt; written(rt.alloc(), source)?.as_slice(), wanted);
    }
    Ok(())
}
