// Whether a sheet is true (document 01, "Book and sheet in memory"; refusal 3). The words of a sheet may say anything here, so a name is
// looked at before it is an index, and costs are added in 64 bits.
#![tactic(auto)]

ghost use Rattle.std.specs.Prelude.{◌≡◌, [], ◌≤◌, ◌<◌, length, get_or};
ghost use Rattle.definitions.specs.Limits.{machines, nodes, commands, sheet_length, longest_chain};
ghost use Rattle.definitions.specs.Step.{counting};
ghost use Rattle.definitions.specs.Book.{transition_word, tree_of, WellFormed};
ghost use Rattle.definitions.specs.Sheet.{cost_of, rows_of};
ghost use Rattle.definitions.specs.Truth.{BlankMachine, BlankNode, Named, Ended, TrueSheet};
ghost use Rattle.definitions.specs.Calls.{sheet_refusals};
ghost use Rattle.book.specs.Decides.{Decides};
ghost use Rattle.refusals.specs.Meaning.{Judged};
ghost use Rattle.sheet.specs.Exits.{Readable};
ghost use Rattle.truesheet.specs.Fits.{AtMost, AddsUp, BlankExit, ExitFits, ExitsFit, AboveStale, MachineRowFits, MachineRowsFit};
ghost use Rattle.truesheet.specs.Fits.{StartRowFits, RelaxedBy, RelaxedAt, FilledFits, NodeRowFits, NodeRowsFit};
ghost use Rattle.truesheet.specs.Fits.{Chained, ChainsFit, NamesLead, Follows, Counted};

use refusals::Refusal;

// The most steps by names from a node to its machine's start.
const STEPS: u32 = 255;

// The count of steps of a node that is not counted yet.
const UNCOUNTED: u32 = 65535;

// Whether the cost that word c says is there and is at most k.
fn at_most(c: u32, k: u64) -> bool
    ensures { Decides result (AtMost (cost_of c) k) }
{
    if c == book::BLANK {
        return false;
    }
    u64::from(c) <= k
}

// Whether the cost of node u, its own exit cost for x and w together are c.
fn adds_up(book: &[u32], sheet: &[u32], u: u32, x: u32, w: u32, c: u32) -> bool
    requires { Readable book.now sheet.now × (u < nodes) × (x < commands) }
    ensures { Decides result (AddsUp (tree_of book.now) (rows_of sheet.now) u x w c) }
{
    let d = sheet::cost(sheet, u);
    if d == book::BLANK {
        return false;
    }
    let Some(e) = sheet::own_exit(book, sheet, u, x) else {
        return false;
    };
    u64::from(d) + e + u64::from(w) == u64::from(c)
}

// Whether exit cost c of machine m for command x has its last node.
fn ended(book: &[u32], sheet: &[u32], m: u32, x: u32, c: u32) -> bool
    requires { Readable book.now sheet.now × (m < machines) × (x < commands) }
    ensures { Decides result (Ended (tree_of book.now) (rows_of sheet.now) m x c) }
{
    let u = sheet::last(sheet, m, x);
    if book::NODES <= u {
        return false;
    }
    if book::owner(book, u) != m {
        return false;
    }
    if book::counting(book, u, x) != book::BLANK {
        return false;
    }
    adds_up(book, sheet, u, x, 0, c)
}

// Whether the exit cost and the last node of machine m for command x fit.
fn exit_fits(book: &[u32], sheet: &[u32], m: u32, x: u32) -> bool
    requires { Readable book.now sheet.now × (m < machines) × (x < commands) }
    ensures { Decides result (ExitFits (tree_of book.now) (rows_of sheet.now) m x) }
{
    let c = sheet::exit(sheet, m, x);
    if c == book::BLANK {
        return sheet::last(sheet, m, x) == book::ABSENT;
    }
    ended(book, sheet, m, x, c)
}

// Whether they fit for every command.
fn exits_fit(book: &[u32], sheet: &[u32], m: u32) -> bool
    requires { Readable book.now sheet.now × (m < machines) }
    ensures { Decides result (ExitsFit (tree_of book.now) (rows_of sheet.now) m) }
{
    for x in 0..book::COMMANDS {
        if !exit_fits(book, sheet, m, x) {
            return false;
        }
    }
    true
}

// Whether nothing stands in the row of machine m for command x.
fn exit_blank(sheet: &[u32], m: u32, x: u32) -> bool
    requires { (length sheet.now ≡ sheet_length) × (m < machines) × (x < commands) }
    ensures { Decides result (BlankExit (rows_of sheet.now) m x) }
{
    if sheet::exit(sheet, m, x) != book::BLANK {
        return false;
    }
    sheet::last(sheet, m, x) == book::ABSENT
}

// Whether the row of machine m, its mark aside, is blank.
fn machine_blank(sheet: &[u32], m: u32) -> bool
    requires { (length sheet.now ≡ sheet_length) × (m < machines) }
    ensures { Decides result (BlankMachine (rows_of sheet.now) m) }
{
    for x in 0..book::COMMANDS {
        if !exit_blank(sheet, m, x) {
            return false;
        }
    }
    true
}

// Whether the machine above machine m, where there is one, is stale.
fn above_stale(book: &[u32], sheet: &[u32], m: u32) -> bool
    requires { Readable book.now sheet.now × (m < machines) }
    ensures { Decides result (AboveStale (tree_of book.now) (rows_of sheet.now) m) }
{
    let h = book::holder(book, m);
    if h == book::ABSENT {
        return true;
    }
    sheet::stale(sheet, book::owner(book, h)) == 1
}

// Whether the words of machine m fit.
fn machine_fits(book: &[u32], sheet: &[u32], m: u32) -> bool
    requires { Readable book.now sheet.now × (m < machines) }
    ensures { Decides result (MachineRowFits (tree_of book.now) sheet.now m) }
{
    let mark = sheet::stale(sheet, m);
    if 1 < mark {
        return false;
    }
    if mark == 0 {
        if book::start(book, m) == book::ABSENT {
            return machine_blank(sheet, m);
        }
        return exits_fit(book, sheet, m);
    }
    if book::start(book, m) == book::ABSENT {
        return false;
    }
    if !above_stale(book, sheet, m) {
        return false;
    }
    machine_blank(sheet, m)
}

// Whether the words of every machine fit.
fn machines_fit(book: &[u32], sheet: &[u32]) -> bool
    requires { Readable book.now sheet.now }
    ensures { Decides result (MachineRowsFit (tree_of book.now) sheet.now) }
{
    for m in 0..book::MACHINES {
        if !machine_fits(book, sheet, m) {
            return false;
        }
    }
    true
}

// Whether the row of node n is blank.
fn node_blank(sheet: &[u32], n: u32) -> bool
    requires { (length sheet.now ≡ sheet_length) × (n < nodes) }
    ensures { Decides result (BlankNode (rows_of sheet.now) n) }
{
    if sheet::cost(sheet, n) != book::BLANK {
        return false;
    }
    if sheet::before(sheet, n) != book::ABSENT {
        return false;
    }
    sheet::by(sheet, n) == book::ABSENT
}

// Whether the row of node n is that of a start node: cost 0 and no names.
fn start_fits(sheet: &[u32], n: u32) -> bool
    requires { (length sheet.now ≡ sheet_length) × (n < nodes) }
    ensures { Decides result (StartRowFits (rows_of sheet.now) n) }
{
    if sheet::cost(sheet, n) != 0 {
        return false;
    }
    if sheet::before(sheet, n) != book::ABSENT {
        return false;
    }
    sheet::by(sheet, n) == book::ABSENT
}

// Whether node n of machine m names a transition of m that gives it cost c.
fn named(book: &[u32], sheet: &[u32], m: u32, n: u32, c: u32) -> bool
    requires { Readable book.now sheet.now × (m < machines) × (n < nodes) }
    ensures { Decides result (Named (tree_of book.now) (rows_of sheet.now) m n c) }
{
    let u = sheet::before(sheet, n);
    if book::NODES <= u {
        return false;
    }
    let x = sheet::by(sheet, n);
    if book::COMMANDS <= x {
        return false;
    }
    if book::owner(book, u) != m {
        return false;
    }
    let w = book::counting(book, u, x);
    if w == book::BLANK {
        return false;
    }
    if w / 65536 != n {
        return false;
    }
    adds_up(book, sheet, u, x, w % 65536, c)
}

// Whether leaving node n of machine m, reached at cost c, by command x costs no less than what stands where it leads; w is the word of the
// transition that counts. Whether there is one cannot be foreseen: both words are read, so that no jump is needed.
fn relaxed_word(book: &[u32], sheet: &[u32], m: u32, n: u32, c: u32, x: u32, w: u32) -> bool
    requires { Readable book.now sheet.now × (m < machines) × (n < nodes) × (x < commands)
        × (w ≡ transition_word (counting (tree_of book.now) n x)) }
    ensures { Decides result (RelaxedBy (tree_of book.now) (rows_of sheet.now) m n c x) }
{
    let cost = sheet::cost(sheet, w / 65536 % book::NODES);
    let mut least = sheet::exit(sheet, m, x);
    let mut price = 0;
    if w != book::BLANK {
        least = cost;
        price = w % 65536;
    }
    let Some(e) = sheet::own_exit(book, sheet, n, x) else {
        return true;
    };
    at_most(least, u64::from(c) + e + u64::from(price))
}

// The same without the word. Most transitions are not shut: with a call for each case the word of such a one is tested as it stands.
fn relaxed_by(book: &[u32], sheet: &[u32], m: u32, n: u32, c: u32, x: u32) -> bool
    requires { Readable book.now sheet.now × (m < machines) × (n < nodes) × (x < commands) }
    ensures { Decides result (RelaxedBy (tree_of book.now) (rows_of sheet.now) m n c x) }
{
    let w = book::transition(book, n, x);
    if book::shut(book, w) {
        return relaxed_word(book, sheet, m, n, c, x, book::BLANK);
    }
    relaxed_word(book, sheet, m, n, c, x, w)
}

// Whether that is so by every command.
fn relaxed_at(book: &[u32], sheet: &[u32], m: u32, n: u32, c: u32) -> bool
    requires { Readable book.now sheet.now × (m < machines) × (n < nodes) }
    ensures { Decides result (RelaxedAt (tree_of book.now) (rows_of sheet.now) m n c) }
{
    for x in 0..book::COMMANDS {
        if !relaxed_by(book, sheet, m, n, c, x) {
            return false;
        }
    }
    true
}

// Whether the row of node n of machine m, which is in use and not stale, fits.
fn filled_fits(book: &[u32], sheet: &[u32], m: u32, n: u32) -> bool
    requires { Readable book.now sheet.now × (m < machines) × (n < nodes) }
    ensures { Decides result (FilledFits (tree_of book.now) (rows_of sheet.now) m n) }
{
    if book::start(book, m) == n {
        if !start_fits(sheet, n) {
            return false;
        }
        return relaxed_at(book, sheet, m, n, 0);
    }
    let c = sheet::cost(sheet, n);
    if c == book::BLANK {
        return node_blank(sheet, n);
    }
    if !named(book, sheet, m, n, c) {
        return false;
    }
    relaxed_at(book, sheet, m, n, c)
}

// Whether the row of node n fits.
fn node_fits(book: &[u32], sheet: &[u32], n: u32) -> bool
    requires { Readable book.now sheet.now × (n < nodes) }
    ensures { Decides result (NodeRowFits (tree_of book.now) (rows_of sheet.now) n) }
{
    let m = book::owner(book, n);
    if m == book::ABSENT {
        return node_blank(sheet, n);
    }
    if sheet::stale(sheet, m) == 1 {
        return node_blank(sheet, n);
    }
    filled_fits(book, sheet, m, n)
}

// Whether the row of every node fits.
fn nodes_fit(book: &[u32], sheet: &[u32]) -> bool
    requires { Readable book.now sheet.now }
    ensures { Decides result (NodeRowsFit (tree_of book.now) (rows_of sheet.now)) }
{
    for n in 0..book::NODES {
        if !node_fits(book, sheet, n) {
            return false;
        }
    }
    true
}

// The count of node n.
fn count(counts: &[u32; 256], n: u32) -> u32
    requires { n < nodes }
    ensures { result ≡ get_or counts.now n 0 }
{
    counts[n as usize]
}

// How many names lead from node n to a node that has none before it; more than STEPS where there are too many. It goes no further than the
// first node that is counted.
fn follow(sheet: &[u32], counts: &[u32; 256], n: u32) -> u32
    requires { Chained sheet.now × Counted (rows_of sheet.now) counts.now × (n < nodes) }
    ensures { Follows (rows_of sheet.now) n result }
{
    let mut v = n;
    for steps in 0..=STEPS {
        let k = count(counts, v);
        if k != UNCOUNTED {
            return steps + k;
        }
        let u = sheet::before(sheet, v);
        if u == book::ABSENT {
            return steps;
        }
        v = u;
    }
    STEPS + 1
}

// Counts node n, which is k steps from its start, and the nodes on the way that are not counted.
fn settle(sheet: &[u32], counts: &mut [u32; 256], n: u32, k: u32)
    requires { Chained sheet.now × Counted (rows_of sheet.now) counts.old × (n < nodes) × (k ≤ longest_chain)
        × NamesLead (rows_of sheet.now) n k }
    ensures { Counted (rows_of sheet.now) counts.new }
{
    let mut v = n;
    let mut left = k;
    while counts[v as usize] == UNCOUNTED {
        counts[v as usize] = left;
        if left == 0 {
            return;
        }
        v = sheet::before(sheet, v);
        left -= 1;
    }
}

// Whether the names of every node lead to a node that has none before it in at most 255 steps.
fn chains_fit(sheet: &[u32]) -> bool
    requires { Chained sheet.now }
    ensures { Decides result (ChainsFit (rows_of sheet.now)) }
{
    let mut counts = [UNCOUNTED; 256];
    for n in 0..book::NODES {
        let k = follow(sheet, &counts, n);
        if STEPS < k {
            return false;
        }
        settle(sheet, &mut counts, n, k);
    }
    true
}

// Whether the list is a true sheet of a well-formed book: true exactly where it is, for a list of any length and with any words.
pub fn true_sheet(book: &[u32], sheet: &[u32]) -> bool
    requires { WellFormed book.now }
    ensures { Decides result (TrueSheet (tree_of book.now) sheet.now) }
{
    if sheet.len() != sheet::SHEET {
        return false;
    }
    if !machines_fit(book, sheet) {
        return false;
    }
    if !nodes_fit(book, sheet) {
        return false;
    }
    chains_fit(sheet)
}

// The refusals that a call on a book and its sheet begins with: 1 (a wrong length of either), 2 (book not well formed), 3 (sheet not true).
pub fn judge(book: &[u32], sheet: &[u32]) -> Result<(), Refusal>
    ensures { Judged (sheet_refusals book.now sheet.now []) result }
{
    if sheet.len() != sheet::SHEET {
        return Err(Refusal::WrongLength);
    }
    wellformed::judge(book)?;
    if !true_sheet(book, sheet) {
        return Err(Refusal::NotTrue);
    }
    Ok(())
}
