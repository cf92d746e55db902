// A book copied by its stream (the customer's demand 2): what Write gives, loaded into another holding, is the same book there.
#![tactic(auto)]

ghost use Rattle.writing.specs.Meaning.{answer_of};
ghost use Rattle.copying.specs.Copy.{CopySays};

use refusals::Refusal;

// Writes the stream of a book to the front of out and loads it into another holding, whose book then has the same words, every machine in
// use marked; the stream's length. The other holding is judged first: it refuses 1, 2, 3 of the other holding, then what Write refuses (1, 2,
// 15), and each refusal leaves all four lists as they are.
pub fn copy(
    book: &[u32],
    out: &mut [u8],
    other: &mut [u32],
    sheet: &mut [u32],
) -> Result<u32, Refusal>
    ensures { CopySays book.now out.old other.old sheet.old (answer_of result)
        out.new other.new sheet.new }
{
    truesheet::judge(other, sheet)?;
    let n = writing::write(book, out)?;
    loading::load(other, sheet, &out[..n as usize]);
    Ok(n)
}
