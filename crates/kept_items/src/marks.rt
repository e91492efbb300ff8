ghost use Rattle.std.specs.Prelude.{◌≡◌, ◌+◌, ◌<◌, length};
ghost use Rattle.kept_items.specs.Marked.{is_marked};

/// Is the item at this place marked? Goes on to the next place.
pub(crate) fn take_mark(marks: &[bool], at: &mut usize) -> bool
    requires { at.old < length marks.now }
    ensures mark { result ≡ is_marked marks.now at.old }
    ensures next { at.new ≡ at.old + 1 }
{
    let mark = marks[*at];
    *at += 1;
    mark
}
