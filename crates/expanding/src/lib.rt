// A plan's commands (document 01, "Exit, step and plan": "a node opens into its machine's path, and a path opens into its nodes"), from
// the names that a search leaves and those of a true sheet.
#![tactic(auto)]

ghost use Rattle.std.specs.Prelude.{◌≡◌, [], ◌∷◌, ◌++◌, ◌+◌, ◌≤◌, ◌<◌, length, set, drop};
ghost use Rattle.definitions.specs.Limits.{nodes, commands, sheet_length, longest_chain};
ghost use Rattle.definitions.specs.Book.{word, tree_of};
ghost use Rattle.definitions.specs.Sheet.{rows_of};
ghost use Rattle.plantheory.specs.Expand.{node_part};
ghost use Rattle.search.specs.Search.{name_of};
ghost use Rattle.expanding.specs.Names.{Traceable};
ghost use Rattle.expanding.specs.Expanding.{Fresh, plan_of, leave_part, steps_part, Steps, Traced, NodeOpens, CommandsWritten};

// The word for node v in a list of a search's names.
fn name(list: &[u32], v: u32) -> u32
    requires { (length list.now ≡ nodes) × (v < nodes) }
    ensures { result ≡ word (name_of nodes list.now v) }
{
    list[v as usize]
}

// Notes a step after the k that stand in the lists: node u is left by command x.
fn note(left: &mut [u32], given: &mut [u32], k: u32, u: u32, x: u32)
    requires { (k < length left.old) × (k < length given.old) }
    ensures { (left.new ≡ set left.old k u) × (given.new ≡ set given.old k x) }
{
    left[k as usize] = u;
    given[k as usize] = x;
}

// Adds to the j steps in the lists those by which a search's names lead to node n, the last first; how many there are then.
fn trace(before: &[u32], by: &[u32], n: u32, j: u32, left: &mut [u32], given: &mut [u32]) -> u32
    requires { (length before.now ≡ nodes) × (length by.now ≡ nodes) × Traceable (name_of nodes before.now) (name_of nodes by.now) n
        × Steps left.old given.old j × (j + longest_chain ≤ nodes) }
    ensures { Traced (name_of nodes before.now) (name_of nodes by.now) n j left.old given.old
        result left.new given.new }
{
    let mut v = n;
    let mut k = j;
    loop {
        let u = name(before, v);
        if u == book::ABSENT {
            return k;
        }
        note(left, given, k, u, name(by, v));
        k += 1;
        v = u;
    }
}

// The same by a sheet's names.
fn trace_rows(sheet: &[u32], n: u32, j: u32, left: &mut [u32], given: &mut [u32]) -> u32
    requires { (length sheet.now ≡ sheet_length) × Traceable (rows_of sheet.now).before (rows_of sheet.now).by n
        × Steps left.old given.old j × (j + longest_chain ≤ nodes) }
    ensures { Traced (rows_of sheet.now).before (rows_of sheet.now).by n j left.old given.old
        result left.new given.new }
{
    let mut v = n;
    let mut k = j;
    loop {
        let u = sheet::before(sheet, v);
        if u == book::ABSENT {
            return k;
        }
        note(left, given, k, u, sheet::by(sheet, v));
        k += 1;
        v = u;
    }
}

// Opens node n: the steps of the path by which the machine below it is left by command x; how many there are, 0 where there is no path.
fn open_node(
    book: &[u32],
    sheet: &[u32],
    n: u32,
    x: u32,
    left: &mut [u32],
    given: &mut [u32],
) -> u32
    requires { Fresh book.now sheet.now × (n < nodes) × (x < commands) × (length left.old ≡ nodes) × (length given.old ≡ nodes) }
    ensures { NodeOpens (tree_of book.now) (rows_of sheet.now) n x result left.new given.new }
{
    let m = book::below(book, n);
    if m == book::ABSENT {
        return 0;
    }
    let u = sheet::last(sheet, m, x);
    if u == book::ABSENT {
        return 0;
    }
    note(left, given, 0, u, x);
    trace_rows(sheet, u, 1, left, given)
}

// Writes command x; the place after it.
fn put(buffer: &mut [u8], at: usize, x: u32) -> usize
    requires { (at < length buffer.old) × (x < commands) }
    ensures { CommandsWritten buffer.old buffer.new at result (x ∷ []) }
{
    buffer[at] = x as u8;
    at + 1
}

// Writes the commands by which node n is left by x, going at most depth machines down; the place after them.
#[cycle(expand_node_expand_path)]
fn expand_node(
    book: &[u32],
    sheet: &[u32],
    depth: u32,
    n: u32,
    x: u32,
    buffer: &mut [u8],
    at: usize,
) -> usize
    requires { Fresh book.now sheet.now × (n < nodes) × (x < commands)
        × (at + length (leave_part (node_part depth (tree_of book.now) (rows_of sheet.now)) n x) ≤ length buffer.old) }
    ensures { CommandsWritten buffer.old buffer.new at result
        (leave_part (node_part depth (tree_of book.now) (rows_of sheet.now)) n x) }
{
    if depth == 0 {
        return put(buffer, at, x);
    }
    let mut left = [0u32; 256];
    let mut given = [0u32; 256];
    let count = open_node(book, sheet, n, x, &mut left, &mut given);
    if count == 0 {
        return put(buffer, at, x);
    }
    expand_path(book, sheet, depth - 1, &left, &given, count, buffer, at)
}

// Writes the commands of a path's steps, each node expanded; the place after them. The last step stands first, so the walk begins at the
// other end.
#[cycle(expand_node_expand_path)]
fn expand_path(
    book: &[u32],
    sheet: &[u32],
    depth: u32,
    left: &[u32],
    given: &[u32],
    count: u32,
    buffer: &mut [u8],
    at: usize,
) -> usize
    requires { Fresh book.now sheet.now × Steps left.now given.now count
        × (at + length (steps_part (node_part depth (tree_of book.now) (rows_of sheet.now)) left.now given.now count)
        ≤ length buffer.old) }
    ensures { CommandsWritten buffer.old buffer.new at result
        (steps_part (node_part depth (tree_of book.now) (rows_of sheet.now)) left.now given.now count) }
{
    let mut next = at;
    for k in (0..count).rev() {
        next = expand_node(
            book,
            sheet,
            depth,
            book::word(left, k),
            book::word(given, k),
            buffer,
            next,
        );
    }
    next
}

// Writes the commands of the plan that the names lead to, from the front of the buffer; how many there are.
pub fn expand(
    book: &[u32],
    sheet: &[u32],
    before: &[u32],
    by: &[u32],
    b: u32,
    buffer: &mut [u8],
) -> u32
    requires { Fresh book.now sheet.now × (length before.now ≡ nodes) × (length by.now ≡ nodes)
        × Traceable (name_of nodes before.now) (name_of nodes by.now) b
        × (length (plan_of book.now sheet.now before.now by.now b) ≤ length buffer.old) }
    ensures { (result ≡ length (plan_of book.now sheet.now before.now by.now b))
        × (buffer.new ≡ plan_of book.now sheet.now before.now by.now b
        ++ drop (length (plan_of book.now sheet.now before.now by.now b)) buffer.old) }
{
    let mut left = [0u32; 256];
    let mut given = [0u32; 256];
    let count = trace(before, by, b, 0, &mut left, &mut given);
    let end = expand_path(book, sheet, book::LEVELS, &left, &given, count, buffer, 0);
    end as u32
}
