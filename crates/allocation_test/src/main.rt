// Calls of the allocating call, a line for each: a label, the answer, and every element of an output that held 7 eight times. Then lists and calls that are only judged.
// The calls stand in the file stdin, a line for each; a line that begins with `#` says what the next ones are.
// A line is a label and a colon, a letter (a: allocated, b: allocated by last numbers, l: only the list is judged, m: only the list of last numbers is judged, j: the call is judged), the method's letter, and four lists, each ended by a semicolon: S, the draw, the room and, where it is not 25, the increment; codes; accounts; shorts or last numbers.
// A space ends each number, and `4097*` stands for so many ones.
#![tactic(auto)]

ghost use Rattle.std.specs.Prelude.{◌≤◌, length};

use forms::{Form, Listing};
use series::{Allocated, Contracts, DEFAULT_INCREMENT, Method, Place, Refusal, terms_of};
use text_words::letters::method_by;

// What cannot be written is missing in the output, and the comparison shows it.
fn print(rt: &impl Print, text: &[u8]) {
    let _ = rt.write_all(text);
}

fn print_number(rt: &impl Print, n: u32) {
    let _ = print!(rt; " {n}");
}

fn print_refusal(rt: &impl Print, refusal: Refusal) {
    print(rt, b" refused");
    print_number(rt, u32::from(refusal));
}

// An allocation: the method's letter, T and the further number.
fn print_allocation(rt: &impl Print, letter: u8, total: Contracts, further: u32) {
    print(rt, &[b' ', letter]);
    print_number(rt, total.0);
    print_number(rt, further);
}

// The number of a starting place, 0 for none.
fn number_of(start: Option<Place>) -> u32 {
    start.map_or(0, |place| place.0)
}

fn print_answer(rt: &impl Print, answer: Result<Allocated, Refusal>) {
    match answer {
        Ok(Allocated::Wheel { total, blocks }) => print_allocation(rt, b'W', total, blocks),
        Ok(Allocated::ProRata { total, remainder }) => {
            print_allocation(rt, b'P', total, remainder.0)
        }
        Ok(Allocated::Lottery { total, start }) => {
            print_allocation(rt, b'L', total, number_of(start))
        }
        Ok(Allocated::RemainderDraw { total, start }) => {
            print_allocation(rt, b'R', total, number_of(start))
        }
        Err(refusal) => print_refusal(rt, refusal),
    }
}

// What judging answers.
fn print_judged(rt: &impl Print, judged: Result<Contracts, Refusal>) {
    match judged {
        Ok(total) => {
            print(rt, b" T");
            print_number(rt, total.0);
        }
        Err(refusal) => print_refusal(rt, refusal),
    }
}

// Makes a call that is lent the first room elements of the output, and prints all of them.
fn show_allocated(rt: &impl Print, listing: &Listing, room: usize) {
    let mut amounts = [7u32; 8];
    let Some(output) = amounts.get_mut(..room) else {
        return;
    };
    print_answer(rt, listing::allocate(listing, output));
    print(rt, b" :");
    for &amount in &amounts {
        print_number(rt, amount);
    }
}

// Allocates or judges a list of shorts, by the letter of a line.
fn show(rt: &impl Print, letter: u8, listing: &Listing, room: usize) {
    let last_numbers = Listing {
        form: Form::LastNumbers,
        ..*listing
    };
    match letter {
        b'l' => print_judged(rt, listing::judge_list(listing)),
        b'm' => print_judged(rt, listing::judge_list(&last_numbers)),
        b'j' => {
            let judged = judging::judge(&listing.series(listing.numbers), room);
            print_judged(rt, judged.map(|list| list.total))
        }
        b'b' => show_allocated(rt, &last_numbers, room),
        _ => show_allocated(rt, listing, room),
    }
}

// Reads numbers into a list of ones, and hands back how many there are.
fn read_list(text: &[u8], list: &mut [u32]) -> usize
    ensures { result ≤ length list.new }
{
    let mut n = 0;
    let mut number: usize = 0;
    for &byte in text {
        match byte {
            b' ' => {
                if n < list.len() {
                    list[n] = (number % 4_294_967_296) as u32;
                    n += 1;
                }
                number = 0;
            }
            b'*' => {
                if number <= list.len() {
                    n = number;
                }
            }
            _ => number = number % 4_294_967_296 * 10 + (byte % 16) as usize,
        }
    }
    n
}

// Shows what four lists come to, each ended by a semicolon.
fn show_lists(rt: &impl Print, letter: u8, method: Method, text: &[u8]) {
    let mut values = [0, 0, 0, DEFAULT_INCREMENT];
    let mut codes = [1u32; 4097];
    let mut accounts = [1u32; 4097];
    let mut numbers = [1u32; 4097];
    let mut lists = text.split(|&byte| byte == b';');
    read_list(lists.next().unwrap_or(&[]), &mut values);
    let coded = read_list(lists.next().unwrap_or(&[]), &mut codes);
    let listed = read_list(lists.next().unwrap_or(&[]), &mut accounts);
    let numbered = read_list(lists.next().unwrap_or(&[]), &mut numbers);
    let [exercised, draw, room, increment] = values;
    let listing = Listing {
        form: Form::Shorts,
        terms: terms_of(method, Contracts(exercised), draw, Contracts(increment)),
        codes: &codes[..coded],
        accounts: &accounts[..listed],
        numbers: &numbers[..numbered],
    };
    show(rt, letter, &listing, room as usize);
}

// Shows the line that a text begins with. What is missing in it is looked for in the lines after it.
fn show_line(rt: &impl Print, text: &[u8]) {
    let Some(colon) = text.iter().position(|&byte| byte == b':') else {
        return;
    };
    let [letter, method, lists @ ..] = &text[colon + 1..] else {
        return;
    };
    if lists.is_empty() {
        return;
    }
    print(rt, &text[..colon + 1]);
    let named = method_by(*method).unwrap_or(Method::Wheel);
    show_lists(rt, *letter, named, lists);
    print(rt, b"\n");
}

fn main(rt: HostRuntime) {
    let mut text = [0u8; 16384];
    let Ok(n) = console::read_input(&mut rt.stdin(), &mut text) else {
        return;
    };
    let mut at: usize = 0;
    for line in text[..n].split(|&byte| byte == b'\n') {
        if !line.starts_with(b"#") {
            show_line(&rt, text.get(at..).unwrap_or(&[]));
        }
        at = at.saturating_add(line.len() + 1);
    }
}
