// A hex dump with some bytes marked: in brackets, and in red where there are colours.
use crate::page::{Digits, Page};
use display::Span;

fn is_marked(mark: Span, i: usize) -> bool {
    mark.at <= i && i - mark.at < mark.size
}

// A row behind a line end: its place and up to sixteen bytes, with a bracket where marked ones begin or end.
fn row(page: &mut Page, at: usize, s: &[u8], mark: Span) {
    page.print(b"\n");
    page.column(at, 5);
    page.print(b" ");
    let mut before = false;
    for (i, b) in s.iter().enumerate() {
        let now = is_marked(mark, at.saturating_add(i));
        match (before, now) {
            (false, true) => page.bad("["),
            (true, false) => page.bad("]"),
            _ => page.print(b" "),
        }
        if now {
            page.bad(Digits(*b));
        } else {
            write!(page, "{}", Digits(*b));
        }
        before = now;
    }
    if before {
        page.bad("]");
    }
}

// The rows with marked bytes, with up to two before and two behind them.
pub fn rows(page: &mut Page, d: &[u8], mark: Span) {
    let first = (mark.at / 16).saturating_sub(2);
    let last = mark.at.saturating_add(mark.size.saturating_sub(1)) / 16;
    let count = (last + 3).saturating_sub(first);
    for (i, s) in d.chunks(16).enumerate().skip(first).take(count) {
        row(page, i.saturating_mul(16), s, mark);
    }
}
