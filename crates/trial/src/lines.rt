// Numbers on a page.
use page::Page;

// The entries of a list, a gap before each.
pub(crate) fn entries<T: Copy + Into<u64>>(page: &mut Page, list: &[T]) {
    for entry in list {
        page.put_text(b" ");
        page.put_number((*entry).into());
    }
}
