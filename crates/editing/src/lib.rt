// The edits of a stream (document 01, "Loading a stream"), but for begin and remove, on a book and its sheet. Each is done where it is
// not refused, on a well-formed book and a sheet that is true of it: first the machine edited and all above it are marked and blanked,
// then the words of the book that differ are written.
#![tactic(auto)]

ghost use Rattle.std.specs.Prelude.{◌<◌};
ghost use Rattle.definitions.specs.Limits.{costs};
ghost use Rattle.definitions.specs.Stream.{Edit};
ghost use Rattle.editing.specs.Edited.{Ready, Edited};

// Add: gives machine m the new node n. It marks m and all above it; all else stays.
pub fn do_add(book: &mut [u32], sheet: &mut [u32], m: u32, n: u32)
    requires { Ready book.old sheet.old (Edit.add m n) }
    ensures { Edited book.old sheet.old (Edit.add m n) book.new sheet.new }
{
    marking::touch(book, sheet, book::start(book, m));
    book::set_owner(book, n, m);
}

// Refine: puts the new machine m, with only its new start node s, below node n, which keeps its transitions and its hold. It marks m, the
// machine of n and all above it; all else stays.
pub fn do_refine(book: &mut [u32], sheet: &mut [u32], n: u32, m: u32, s: u32)
    requires { Ready book.old sheet.old (Edit.refine n m s) }
    ensures { Edited book.old sheet.old (Edit.refine n m s) book.new sheet.new }
{
    marking::touch(book, sheet, n);
    sheet::set_stale(sheet, m, 1); // the new machine
    book::set_owner(book, s, m);
    book::set_below(book, n, m);
    book::set_start(book, m, s);
    book::set_holder(book, m, n);
}

// Arrow: makes v, at cost c, the transition of node n for command x. It marks the machine of n and all above it; all else stays.
pub fn do_arrow(book: &mut [u32], sheet: &mut [u32], n: u32, x: u32, v: u32, c: u32)
    requires { Ready book.old sheet.old (Edit.arrow n x v c) × (c < costs) }
    ensures { Edited book.old sheet.old (Edit.arrow n x v c) book.new sheet.new }
{
    marking::touch(book, sheet, n);
    book::set_transition(book, n, x, v * 65536 + c);
}

// Clear: leaves node n no transition for command x. It marks the machine of n and all above it; all else stays.
pub fn do_clear(book: &mut [u32], sheet: &mut [u32], n: u32, x: u32)
    requires { Ready book.old sheet.old (Edit.clear n x) }
    ensures { Edited book.old sheet.old (Edit.clear n x) book.new sheet.new }
{
    marking::touch(book, sheet, n);
    book::set_transition(book, n, x, book::BLANK);
}

// Hold: makes b the hold of node n, 1 or 0 (document 02, W-205). It marks the machine of n and all above it; all else stays.
pub fn do_hold(book: &mut [u32], sheet: &mut [u32], n: u32, b: u32)
    requires { Ready book.old sheet.old (Edit.hold n b) }
    ensures { Edited book.old sheet.old (Edit.hold n b) book.new sheet.new }
{
    marking::touch(book, sheet, n);
    book::set_hold(book, n, b);
}

// Leave: makes c what leaving machine m costs (document 02, W-207). It marks m and all above it; all else stays.
pub fn do_leave(book: &mut [u32], sheet: &mut [u32], m: u32, c: u32)
    requires { Ready book.old sheet.old (Edit.leave m c) }
    ensures { Edited book.old sheet.old (Edit.leave m c) book.new sheet.new }
{
    marking::touch(book, sheet, book::start(book, m));
    book::set_leave(book, m, c);
}

// Start: makes node n the start node of its machine, which it marks with all above it; all else stays.
pub fn do_start(book: &mut [u32], sheet: &mut [u32], n: u32)
    requires { Ready book.old sheet.old (Edit.start n) }
    ensures { Edited book.old sheet.old (Edit.start n) book.new sheet.new }
{
    marking::touch(book, sheet, n);
    let m = book::owner(book, n);
    book::set_start(book, m, n);
}

// Crown: makes the new machine m root; its one new node n, the start, holds the old root. It marks only m; all else stays.
pub fn do_crown(book: &mut [u32], sheet: &mut [u32], m: u32, n: u32)
    requires { Ready book.old sheet.old (Edit.crown m n) }
    ensures { Edited book.old sheet.old (Edit.crown m n) book.new sheet.new }
{
    let old = book::root(book);
    sheet::set_stale(sheet, m, 1); // the new root
    book::set_owner(book, n, m);
    book::set_below(book, n, old);
    book::set_start(book, m, n);
    book::set_holder(book, old, n);
    book::set_root(book, m);
}
