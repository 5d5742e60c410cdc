//! The stack that requests need, taken before the first of them comes: where memory has run out, the system ends a
//! program whose stack has no page to grow by, and can't refuse it that page.

/// How many pages of stack are taken, 1.25 MiB: what the deepest text takes (`tools/deepest_texts --least`) and a third
/// more. With a stack that is smaller the program ends at its start, and not at such a text.
const STACK_PAGES: u32 = 320;

/// Takes the stack that the deepest text needs. The number is one that no compiler knows; it is true whatever it is.
pub fn take_stack(filling: u64) -> bool {
    take_pages(STACK_PAGES, filling)
}

/// Writes and reads so many pages of the stack, with any number in them. From then on they are the program's.
#[inline(never)]
fn take_pages(pages: u32, filling: u64) -> bool {
    let page = [filling; 512];
    if pages > 1 && !take_pages(pages - 1, filling) {
        return false;
    }
    are_all(&page, filling)
}

/// Whether all numbers are this one. It stands apart so that no compiler sees that they are.
#[inline(never)]
fn are_all(numbers: &[u64], wanted: u64) -> bool {
    for number in numbers {
        if *number != wanted {
            return false;
        }
    }
    true
}
