use crate::KeptShelf;
use currency_base::NoMemory;
use currency_edge::{MemoryShelf, Shelf, ShelfFault};
use std::alloc::Global;

// A shelf with two documents, whose third read is to fail.
fn shelf(alloc: Global) -> Result<KeptShelf<MemoryShelf>, NoMemory> {
    let mut shelf = MemoryShelf::new(alloc);
    shelf.put("a", b"one")?;
    shelf.put("b", b"two")?;
    shelf.fail_at(3);
    Ok(KeptShelf::new(alloc, shelf))
}

// What a read of at most so many bytes comes to.
fn read(
    alloc: Global,
    shelf: &mut KeptShelf<MemoryShelf>,
    name: &str,
    at_most: usize,
) -> Result<Vec<u8>, ShelfFault> {
    let mut bytes = Vec::new(alloc);
    shelf.read(alloc, name, at_most, &mut bytes)?;
    Ok(bytes)
}

// Is a document of so many bytes at most these bytes?
fn is_read(alloc: Global, shelf: &mut KeptShelf<MemoryShelf>, name: &str, wanted: &[u8]) -> bool {
    match read(alloc, shelf, name, 3) {
        Ok(bytes) => bytes.as_slice() == wanted,
        Err(_) => false,
    }
}

// Does a read fail so?
fn fails(
    alloc: Global,
    shelf: &mut KeptShelf<MemoryShelf>,
    name: &str,
    at_most: usize,
    wanted: ShelfFault,
) -> bool {
    match read(alloc, shelf, name, at_most) {
        Ok(_) => false,
        Err(fault) => fault == wanted,
    }
}

#[test]
fn a_document_is_read_once(rt: HostRuntime) -> Result<(), NoMemory> {
    let alloc = rt.alloc();
    let mut shelf = shelf(alloc)?;
    for _ in 0..2 {
        assert!(&rt; is_read(alloc, &mut shelf, "a", b"one"));
        assert!(&rt; is_read(alloc, &mut shelf, "b", b"two"));
    }
    // one that is longer than is asked for is read again, and that read is the third
    assert!(&rt; fails(alloc, &mut shelf, "a", 2, ShelfFault::Failed));
    assert!(&rt; fails(alloc, &mut shelf, "a", 2, ShelfFault::TooLong));
    assert!(&rt; fails(alloc, &mut shelf, "c", 3, ShelfFault::Failed));
    Ok(())
}
