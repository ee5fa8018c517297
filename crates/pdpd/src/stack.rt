//! Room on the stack.

/// How many pages of the stack are touched: 2 MiB, more than any message is known to need. The stack grows
/// with the levels of a JSON text, of an expression, and of a policy with what it refers to.
const PAGES: u32 = 512;

/// How many bytes a page has.
const PAGE_BYTES: usize = 4_096;

/// Touches so many pages of the stack, one below the other, and gives the byte back. The byte that comes
/// back from below is the place at which the page is read, so that the compiler leaves no page out.
#[inline(never)]
fn touch_pages(pages: u32, byte: u8) -> u8 {
    let Some(below) = pages.checked_sub(1) else {
        return byte;
    };
    let page = [byte; PAGE_BYTES];
    page[usize::from(touch_pages(below, byte))]
}

/// Touches the stack as far down as messages need it, so that the system gives it room now. Else
/// want of address space may show only as the stack grows. No call can tell of that: the system ends the
/// program by a signal. `seed` is a number that only the run tells, so that the compiler can't foresee it.
pub fn touch(seed: usize) -> u8 {
    touch_pages(PAGES, (seed % 256) as u8)
}
