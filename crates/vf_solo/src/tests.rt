use crate::flat::write_all;
use crate::touched::Touched;
use std::test::Fail;
use vf_base::Write;

/// Writes on four pages, two of them on one page and one on a page that was touched before.
#[test]
fn counts_each_page_once(rt: HostRuntime) -> Result<(), Fail> {
    let mut words = vec![in rt.alloc(); 0u64; 320]?;
    let mut touched = Touched::new(rt.alloc(), 5)?;
    assert_eq!(rt; touched.count(), 0);
    write_all(
        &[
            Write { at: 0, word: 7 },
            Write { at: 63, word: 8 },
            Write { at: 64, word: 9 },
        ],
        &mut words,
        &mut touched,
    );
    assert_eq!(rt; touched.count(), 2);
    write_all(
        &[
            Write { at: 127, word: 1 },
            Write { at: 191, word: 2 },
            Write { at: 319, word: 3 },
        ],
        &mut words,
        &mut touched,
    );
    assert_eq!(rt; touched.count(), 4);
    for (at, word) in [
        (0usize, 7u64),
        (63, 8),
        (64, 9),
        (127, 1),
        (191, 2),
        (319, 3),
        (318, 0),
    ] {
        assert_eq!(rt; words.get(at).copied(), Some(word), "at {at}");
    }
    Ok(())
}
