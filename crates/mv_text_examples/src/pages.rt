//! How the pieces of a text are handed on, which no clause says.
use mv_base::{Failed, MemorySink};
use mv_page::{PAGE_BYTES, Page};
use std::alloc::Global;
use std::test::Fail;

/// A sink that takes one piece, and nothing of the next.
fn one_piece_sink(alloc: Global) -> Result<MemorySink, Fail> {
    let mut fails = Vec::new(alloc);
    fails.push((1, 0))?;
    Ok(MemorySink::new(alloc, 2 * PAGE_BYTES, fails)?)
}

#[test]
fn pieces_that_fit_a_page_are_one(rt: HostRuntime) -> Result<(), Fail> {
    let mut sink = one_piece_sink(rt.alloc())?;
    let mut page: Page<0> = Page::of(b"");
    assert_eq!(rt; page.put(b"add", &mut sink), Ok(()));
    assert_eq!(rt; page.put_both(b" ", b"n5", &mut sink), Ok(()));
    assert_eq!(rt; page.put(b"\n", &mut sink), Ok(()));
    assert_eq!(rt; page.hand_on(&mut sink), Ok(()));
    assert_eq!(rt; sink.bytes(), b"add n5\n".as_slice());
    Ok(())
}

#[test]
fn a_full_page_is_one_piece(rt: HostRuntime) -> Result<(), Fail> {
    let mut sink = one_piece_sink(rt.alloc())?;
    let full = [b'x'; PAGE_BYTES];
    let mut page: Page<2> = Page::of(b"xx");
    assert_eq!(rt; page.put(&full[2..], &mut sink), Ok(()));
    assert_eq!(rt; page.put(b"y", &mut sink), Ok(()));
    assert_eq!(rt; sink.bytes(), full.as_slice());
    assert_eq!(rt; page.hand_on(&mut sink), Err(Failed));
    Ok(())
}
