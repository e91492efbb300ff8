use crate::guide_kinds::{four, one_steady};
use crate::runs::{Case, EACH, FREE, guided};
use solver_guides::Guides;
use std::process::Abort;
use std::test::Fail;

// With these guides a case has its verdict.
fn expect_verdict(
    rt: &(impl Abort + AllocGlobal),
    case: Case<'_>,
    words: &[&str],
    guides: &mut Guides,
) -> Result<(), Fail> {
    let (status, sink) = guided(rt.alloc(), case.documents(b""), words, guides)?;
    let head = format!(in rt.alloc(); "currency report 2;\nverdict {};\n", case.verdict)?;
    assert!(rt; sink.written().starts_with(head.as_bytes()), "{head}");
    assert_eq!(rt; status, 0);
    Ok(())
}

// With all four kinds a case has its verdict, and none of them is dropped.
fn expect_of_all(rt: &(impl Abort + AllocGlobal), case: Case<'_>) -> Result<(), Fail> {
    let mut all = four(rt.alloc())?;
    expect_verdict(rt, case, &["currency", "ask", "s", "q"], &mut all)?;
    assert_eq!(rt; all.len(), 4);
    Ok(())
}

// With one of them alone a case has its verdict.
fn expect_of_one(rt: &(impl Abort + AllocGlobal), case: Case<'_>, guide: &str) -> Result<(), Fail> {
    let mut ring = four(rt.alloc())?;
    let words = [
        "currency", "ask", "s", "--guide", guide, "q", "--budget", "10000000",
    ];
    expect_verdict(rt, case, &words, &mut ring)?;
    assert_eq!(rt; ring.len(), 1);
    Ok(())
}

#[test]
fn each_guide_leads_to_the_verdict(rt: HostRuntime) -> Result<(), Fail> {
    for case in EACH {
        expect_of_all(&rt, case)?;
        for guide in ["1", "2", "3", "4"] {
            expect_of_one(&rt, case, guide)?;
        }
    }
    Ok(())
}

// The first of three rows that are free is first or last, as the guide says of each pair.
fn expect_order(
    rt: &(impl Abort + AllocGlobal),
    guides: &mut Guides,
    order: &str,
) -> Result<(), Fail> {
    let words = ["currency", "ask", "s", "q", "--brief"];
    let (_, sink) = guided(rt.alloc(), FREE.documents(b""), &words, guides)?;
    let text = format!(in rt.alloc();
        "currency brief 2;\nverdict consistent;\ncompletion;\nranking R.a of x: {order};\nend;\n"
    )?;
    assert_eq!(rt; sink.written(), text.as_bytes(), "{order}");
    assert!(rt; guides.asked() > 0);
    Ok(())
}

// The same of one steady guide.
fn expect_steady(rt: &(impl Abort + AllocGlobal), turned: bool, order: &str) -> Result<(), Fail> {
    let mut guides = one_steady(rt.alloc(), turned)?;
    expect_order(rt, &mut guides, order)
}

// Where one guide is handed in, there is no second one.
fn expect_no_second(rt: &(impl Abort + AllocGlobal)) -> Result<(), Fail> {
    let mut guides = one_steady(rt.alloc(), false)?;
    let words = ["currency", "ask", "s", "q", "--guide", "2"];
    let (status, _) = guided(rt.alloc(), FREE.documents(b""), &words, &mut guides)?;
    assert_eq!(rt; status, 2);
    Ok(())
}

#[test]
fn guides_are_asked(rt: HostRuntime) -> Result<(), Fail> {
    expect_steady(&rt, true, "r1 < r2 < r3")?;
    expect_steady(&rt, false, "r3 < r2 < r1")?;
    expect_no_second(&rt)
}
