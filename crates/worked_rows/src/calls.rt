//! Calls of a session: how many reports are kept, which of them is a reply, and how often one was.

use bound_spec::is_specification;
use command_stages::{read_specification, read_the_question};
use currency_base::NoMemory;
use currency_edge::MemoryShelf;
use currency_session::{Reply, Session};
use script_syntax::{EntryTree, read_script};
use session_entries::bind_edit;
use solver_guides::Guides;
use spec_names::SpecNames;
use std::alloc::Global;
use std::process::Abort;
use std::test::Fail;

const SPEC: &str = "relation R from \"r.csv\" row id entity eid (a: int);\n";

const ROWS: &str = "id,eid,a\nr1,x,1\nr2,x,2\nr3,x,3\n";

// A specification of three rows of one entity, of which nothing is known.
fn documents(alloc: Global) -> Result<MemoryShelf, NoMemory> {
    let mut shelf = MemoryShelf::new(alloc);
    shelf.put("s", SPEC.as_bytes())?;
    shelf.put("r.csv", ROWS.as_bytes())?;
    Ok(shelf)
}

// A session over it.
fn opened(alloc: Global, shelf: &mut MemoryShelf) -> Option<Session> {
    let spec = match read_specification(alloc, shelf, "s") {
        Ok(spec) => spec,
        Err(_) => return None,
    };
    is_specification(&spec);
    match Session::new(alloc, spec) {
        Ok(session) => Some(session),
        Err(_) => None,
    }
}

// Does an edit. Was it done?
fn edit_by(alloc: Global, session: &mut Session, tree: &EntryTree) -> bool {
    let names = match SpecNames::of(alloc, session.spec()) {
        Ok(names) => names,
        Err(_) => return false,
    };
    match tree {
        EntryTree::Ask(_) => false,
        _ => match bind_edit(alloc, &names, session.spec(), tree) {
            Ok(edit) => session.edit(alloc, edit).is_ok(),
            Err(_) => false,
        },
    }
}

// Does the edits of a script. Were all of them done?
fn edit(alloc: Global, session: &mut Session, script: &str) -> bool {
    match read_script(alloc, script.as_bytes()) {
        Ok(entries) => {
            for entry in entries.as_slice() {
                if !edit_by(alloc, session, &entry.tree) {
                    return false;
                }
            }
            true
        }
        Err(_) => false,
    }
}

// Asks a question with no guide; its document has its text for a name. The place of the kept report that is the reply.
fn ask(
    alloc: Global,
    session: &mut Session,
    shelf: &mut MemoryShelf,
    question: &str,
) -> Option<usize> {
    if shelf.put(question, question.as_bytes()).is_err() {
        return None;
    }
    let question = match read_the_question(alloc, shelf, session.spec(), question) {
        Ok(question) => question,
        Err(_) => return None,
    };
    let mut guides = Guides::new(Vec::new(alloc));
    match session.ask(alloc, &question, 100, &mut guides) {
        Ok(Reply::Kept(place)) => Some(place),
        _ => None,
    }
}

// A question that is asked, the place of its reply, how many reports are then kept, and how often one of them was a reply.
const QUESTIONS: [(&str, usize, usize, u64); 7] = [
    ("certain R.a: r1 < r2;", 0, 1, 0),
    ("consistent;", 1, 2, 0),
    ("consistent;", 1, 2, 1),
    ("same R;", 2, 3, 1),
    ("answers (v) where R(_, v);", 3, 4, 1),
    ("certain R.a: r2 < r1;", 3, 4, 1),
    ("consistent;", 0, 4, 2),
];

#[test]
fn four_reports_are_kept_and_counted(rt: HostRuntime) -> Result<(), Fail> {
    let mut shelf = documents(rt.alloc())?;
    let opened = opened(rt.alloc(), &mut shelf);
    assert!(&rt; opened.is_some());
    if let Some(mut session) = opened {
        assert_eq!(&rt; session.kept().len(), 0);
        assert_eq!(&rt; session.reused(), 0);
        for (question, place, kept, reused) in QUESTIONS {
            let reply = ask(rt.alloc(), &mut session, &mut shelf, question);
            assert_eq!(&rt; reply, Some(place), "{question}");
            assert_eq!(&rt; session.kept().len(), kept, "{question}");
            assert_eq!(&rt; session.reused(), reused, "{question}");
        }
    }
    Ok(())
}

const PAIR: &str = "certain R.a: r1 < r2;";

#[test]
fn a_reply_that_holds_again_is_counted(rt: HostRuntime) -> Result<(), Fail> {
    let mut shelf = documents(rt.alloc())?;
    let opened = opened(rt.alloc(), &mut shelf);
    assert!(&rt; opened.is_some());
    if let Some(mut session) = opened {
        let alloc = rt.alloc();
        assert_eq!(&rt; ask(alloc, &mut session, &mut shelf, PAIR), Some(0));
        assert!(&rt; edit(alloc, &mut session, "add order R.a: r1 < r2;"));
        assert_eq!(&rt; ask(alloc, &mut session, &mut shelf, PAIR), Some(1));
        assert!(&rt; edit(alloc, &mut session, "add order R.a: r2 < r1;"));
        assert_eq!(&rt;
            ask(alloc, &mut session, &mut shelf, "consistent;"),
            Some(2)
        );
        assert!(&rt; edit(alloc, &mut session, "withdraw order R.a: r2 < r1;"));
        assert!(&rt; !edit(alloc, &mut session, "withdraw order R.a: r2 < r1;"));
        assert_eq!(&rt; session.reused(), 0);
        assert_eq!(&rt; ask(alloc, &mut session, &mut shelf, PAIR), Some(1));
        assert_eq!(&rt; session.reused(), 1);
    }
    Ok(())
}
