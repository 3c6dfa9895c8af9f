//! A book with a grant and a protection.
use fy_grants::{Book, Grant, Scope};
use fy_kinds::{Kind, KindSet};
use fy_locality::Map;
use std::test::Fail;

#[test]
fn grants_and_protections_are_kept(rt: HostRuntime) -> Result<(), Fail> {
    let kinds = KindSet::of(Kind::Reboot);
    let mut map = Map::make(rt.alloc());
    let p0 = map.add("p0", "m0", "z0", None, None)?;
    let mut book = Book::make(rt.alloc(), 2, &map)?;
    book.give(Grant {
        actor: 1,
        kinds,
        scope: Scope::All,
    })?;
    assert_eq!(rt; book.grants(1).len(), 1);
    assert_eq!(rt; book.uncovered(1, kinds, &map.everyone()), None);
    book.take(1, 0)?;
    assert_eq!(rt; book.grants(1).len(), 0);
    book.protect(p0, KindSet::all());
    book.unprotect(p0, KindSet::of_clog());
    assert_eq!(rt; book.protections(p0).has_clog(), false);
    assert_eq!(rt; book.protections(p0).has(Kind::Reboot), true);
    Ok(())
}
