//! Runs of pages.

use mx_pages::{Pages, PagesFull};

// Whether so many runs of 16 pages follow each other from a page on, each as it was told before.
fn follow(pages: &mut Pages, first: u32, runs: u32) -> bool {
    (0..runs).all(|run| {
        let page = first.wrapping_add(run.wrapping_mul(16));
        pages.next(16) == Some(page) && pages.allot(16) == Ok(page)
    })
}

// One process has the first eight pages for its stacks.
#[test]
fn runs_follow_each_other_until_none_is_left(rt: HostRuntime) {
    let mut pages = Pages::new(8);
    let follow = follow(&mut pages, 8, 63);
    let next = pages.next(16);
    let last = [pages.allot(16), pages.allot(8), pages.allot(1)];
    assert_eq!(rt;
        (follow, next, last),
        (true, None, [Err(PagesFull), Ok(1016), Err(PagesFull)])
    );
}

// What is given next of four, of three and of two pages, once a run of three was freed between two others, and of three
// once those were given again.
fn given_again(pages: &mut Pages) -> Result<([Option<u32>; 3], Option<u32>), PagesFull> {
    let _before = pages.allot(2)?;
    let between = pages.allot(3)?;
    let _after = pages.allot(1)?;
    pages.free(between, 3);
    let freed = [pages.next(4), pages.next(3), pages.next(2)];
    let _again = pages.allot(2)?;
    Ok((freed, pages.next(3)))
}

#[test]
fn a_freed_run_is_given_again_where_it_is_long_enough(rt: HostRuntime) {
    let mut pages = Pages::new(8);
    assert_eq!(rt;
        given_again(&mut pages),
        Ok(([Some(14), Some(10), Some(10)], Some(14)))
    );
}
