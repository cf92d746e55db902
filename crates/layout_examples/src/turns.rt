// Turning (document 02, W-209): the mast book's words at their places by command, lists turned there and back, and what the turns refuse.
use crate::chance::{fill_words, number_words};
use crate::layout::{Book, apart, different};
use refusals::Refusal;
use trying::{say, status, text};

// Writes a text and the word at a place.
fn show_word(t: &[u8], list: &Book, i: usize) {
    if i < book::BOOK {
        text(t);
        say(b", at", i as u64);
        say(b":", list[i]);
        text(b"\n");
    }
}

// Where the words of the mast book stand by command.
pub fn show_places(mast: &Book) {
    let mut list = [7u32; book::BOOK];
    let _ = turning::by_command(mast, &mut list);
    show_word(b"node 0, command 0, to 1 for 5", &list, 0);
    show_word(b"node 2, command 0, to 0 for 7", &list, 2);
    show_word(b"node 1, command 1, to 2 for 3", &list, 257);
    show_word(b"node 10, command 1, to 10 for 1", &list, 266);
    show_word(b"node 0, command 2, to 2 for 20", &list, 512);
    show_word(b"node 10, command 2, to 11 for 4", &list, 522);
    show_word(b"node 10, command 3, none", &list, 778);
    show_word(b"node 255, command 15, none", &list, 4095);
    show_others(&list);
}

// Where its other words stand.
fn show_others(list: &Book) {
    show_word(b"root", list, 4096);
    show_word(b"holding node of machine 1", list, 4099);
    show_word(b"start node of machine 1", list, 4100);
    show_word(b"owner of node 0", list, 4225);
    show_word(b"machine below node 0", list, 4226);
    show_word(b"owner of node 1", list, 4227);
    show_word(b"machine below node 1", list, 4228);
    show_word(b"owner of node 11", list, 4247);
    show_word(b"machine below node 255", list, 4736);
    show_word(b"hold of node 11", list, 4748);
    show_word(b"leaving charge of machine 1", list, 4994);
}

// Writes a text and the number that a turn refuses with, or 0.
fn say_turn(t: &[u8], answer: Result<(), Refusal>) {
    say(t, status(answer.err()));
}

// Turns a list there and back, both ways round: the numbers, the words that are not where the program's own turn has them, and those changed.
fn show_back(t: &[u8], list: &Book) {
    let mut there = [7u32; book::BOOK];
    let mut back = [7u32; book::BOOK];
    text(t);
    say_turn(b" by command", turning::by_command(list, &mut there));
    say_turn(b", back", turning::by_node(&there, &mut back));
    say(b", misplaced", apart(list, &there));
    say(b", changed", different(list, &back));
    say_turn(b"; by node", turning::by_node(list, &mut there));
    say_turn(b", back", turning::by_command(&there, &mut back));
    say(b", misplaced", apart(&there, list));
    say(b", changed", different(list, &back));
    text(b"\n");
}

// Lists that are turned there and back: the mast book, and three that are no book.
pub fn show_turns(mast: &Book) {
    let mut list = *mast;
    list[4748] = 1;
    list[4994] = 9;
    show_back(b"mast book:", mast);
    show_back(b"with a hold and a charge:", &list);
    number_words(&mut list);
    show_back(b"numbers from 0 on:", &list);
    let mut seed = 209u64;
    fill_words(&mut seed, &mut list);
    show_back(b"random words:", &list);
    show_back(b"zeros:", &[0u32; book::BOOK]);
}

// Both turns of one list into another, and how many words of that are not as they were before.
fn show_turn<const N: usize>(t: &[u8], from: &[u32], before: &[u32; N]) {
    let mut out = *before;
    text(t);
    say_turn(b" by command", turning::by_command(from, &mut out));
    say(b", written", different(&out, before));
    say_turn(b"; by node", turning::by_node(from, &mut out));
    say(b", written", different(&out, before));
    text(b"\n");
}

// Lists of wrong lengths are refused; what stands in them is not judged.
pub fn refuse_turns() {
    let short = [0u32; book::BOOK - 1];
    let right = [0u32; book::BOOK];
    let long = [0u32; book::BOOK + 1];
    let less = [7u32; book::BOOK - 1];
    let before = [7u32; book::BOOK];
    let more = [7u32; book::BOOK + 1];
    show_turn(b"from no words:", &[], &before);
    show_turn(b"from a word less:", &short, &before);
    show_turn(b"from a word more:", &long, &before);
    show_turn(b"from zeros:", &right, &before);
    show_turn(b"into no words:", &right, &[7u32; 0]);
    show_turn(b"into a word less:", &right, &less);
    show_turn(b"both a word less:", &short, &less);
    show_turn(b"into a word more:", &right, &more);
    show_turn(b"both a word more:", &long, &more);
}
