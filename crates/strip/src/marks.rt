// Where a mark is open on the printed sheet.
ghost use Rattle.std.specs.Prelude.{◌≡◌};
ghost use Rattle.strip.specs.Marks.{marked_at};

// Whether a mark is open at an offset of the output: events are three words each, an offset, 1 for an opening or 0, and a label, in order.
pub fn marked(events: &[u32], at: usize) -> bool
    ensures { result ≡ marked_at events.now at }
{
    let mut open: usize = 0;
    for [offset, mark, _] in events.as_chunks::<3>().0 {
        if at < *offset as usize {
            break;
        }
        if *mark == 1 {
            open += 1;
        } else {
            open = open.saturating_sub(1);
        }
    }
    0 < open
}
