// Reads, rewrites and changes texts, and prints what it got. A lent list holds 7s before the call, an output dots.
#![tactic(auto)]

use forms::{Form, Listing};
use series::{Contracts, DEFAULT_INCREMENT, Method, Refusal, Terms, terms_of};
use std::io::Read;

// What cannot be written is missing in the output, and the comparison shows it.
fn print(rt: &impl Print, bytes: &[u8]) {
    let _ = rt.write_all(bytes);
}

fn print_number(rt: &impl Print, n: u64) {
    let _ = print!(rt; "{n} ");
}

// A list and the end of the line.
fn print_list(rt: &impl Print, list: &[u32]) {
    for &number in list {
        print_number(rt, u64::from(number));
    }
    print(rt, b"\n");
}

fn print_method(rt: &impl Print, method: Method) {
    match method {
        Method::Wheel => print(rt, b"wheel "),
        Method::ProRata => print(rt, b"pro rata "),
        Method::Lottery => print(rt, b"starting number "),
        Method::RemainderDraw => print(rt, b"remainder draw "),
    }
}

// The form, where it is that of last numbers.
fn print_form(rt: &impl Print, form: Form) {
    match form {
        Form::Shorts => {}
        Form::LastNumbers => print(rt, b"last numbers "),
    }
}

// The increment, where it is another than is meant where none is given.
fn print_increment(rt: &impl Print, increment: Contracts) {
    if increment.0 != DEFAULT_INCREMENT {
        print(rt, b"by ");
        print_number(rt, u64::from(increment.0));
    }
}

fn print_terms(rt: &impl Print, terms: Terms) {
    let method = terms.method;
    let exercised = terms.exercised;
    print_method(rt, method);
    print_number(rt, u64::from(exercised.0));
    print_number(rt, u64::from(terms.draw));
    print_increment(rt, terms.increment);
}

fn print_refusal(rt: &impl Print, refusal: Refusal) {
    print(rt, b"refused ");
    print_number(rt, u64::from(u32::from(refusal)));
    print(rt, b"\n");
}

// What a call that writes answered, and its whole output.
fn print_writing(rt: &impl Print, writing: Result<usize, Refusal>, output: &[u8]) {
    match writing {
        Ok(n) => {
            print(rt, b"written ");
            print_number(rt, n as u64);
            print(rt, b"\n");
        }
        Err(refusal) => print_refusal(rt, refusal),
    }
    print(rt, output);
    print(rt, b"\n");
}

// Writes a series to an output of 96 bytes.
fn rewrite(rt: &impl Print, listing: &Listing) {
    let mut output = [b'.'; 96];
    let writing = text_writing::write(listing, &mut output);
    print_writing(rt, writing, &output);
}

// Changes a text to an output of 80 bytes.
fn change(rt: &impl Print, text: &[u8]) {
    let mut output = [b'.'; 80];
    let writing = form_change::change(text, &mut output);
    print_writing(rt, writing, &output);
}

// Rewrites the first n positions of a listing that has as many in each list.
fn rewrite_first(rt: &impl Print, listing: &Listing, n: usize) {
    let (Some(codes), Some(accounts), Some(numbers)) = (
        listing.codes.get(..n),
        listing.accounts.get(..n),
        listing.numbers.get(..n),
    ) else {
        return;
    };
    rewrite(
        rt,
        &Listing {
            codes,
            accounts,
            numbers,
            ..*listing
        },
    );
}

// Reads a text into lists of 6, prints what they hold, and rewrites the series.
fn reread(rt: &impl Print, text: &[u8]) {
    let mut codes = [7u32; 6];
    let mut accounts = [7u32; 6];
    let mut numbers = [7u32; 6];
    let reading = series_text::read(text, &mut codes, &mut accounts, &mut numbers);
    match reading {
        Ok(read) => {
            print(rt, b"read ");
            print_form(rt, read.form);
            print_terms(rt, read.terms);
            print_number(rt, read.positions as u64);
            print(rt, b"\n");
        }
        Err(refusal) => print_refusal(rt, refusal),
    }
    print_list(rt, &codes);
    print_list(rt, &accounts);
    print_list(rt, &numbers);
    if let Ok(read) = reading {
        let listing = Listing {
            form: read.form,
            terms: read.terms,
            codes: &codes,
            accounts: &accounts,
            numbers: &numbers,
        };
        rewrite_first(rt, &listing, read.positions);
    }
}

// Reads a text, or changes one that stands after a `!`.
fn show(rt: &impl Print, text: &[u8]) {
    match text {
        [b'!', changed @ ..] => change(rt, changed),
        _ => reread(rt, text),
    }
}

// The texts of the file stdin, each ended by a bar and byte 10; one that begins with `#` says what the next ones are.
fn texts(rt: &impl Print, stdin: &mut impl Read) {
    let mut input = [0u8; 8192];
    let Ok(n) = console::read_input(stdin, &mut input) else {
        return;
    };
    let mut at = 0;
    // A `while`: `split` would hand on the byte after each bar too, and what stands after the last one.
    while at < n {
        let rest = &input[at..];
        let end = rest
            .iter()
            .position(|&byte| byte == b'|')
            .unwrap_or(rest.len());
        if !rest.starts_with(b"#") {
            show(rt, &rest[..end]);
        }
        at += end + 2;
    }
}

// Fills a text with a head and then lines `1,1`.
fn fill(text: &mut [u8], head: &[u8]) {
    for (i, byte) in text.iter_mut().enumerate() {
        *byte = match head.get(i) {
            Some(&named) => named,
            None => b"1,1\n"[(i - head.len()) % 4],
        };
    }
}

// Reads the first n bytes of a text.
fn reread_first(rt: &impl Print, text: &[u8], n: usize) {
    if let Some(first) = text.get(..n) {
        reread(rt, first);
    }
}

// Texts at the limits: 1,024 and 1,025 lines, the last one cut short, and 32,768 and 32,769 bytes.
fn limits(rt: &impl Print) {
    let mut text = [0u8; 32769];
    fill(&mut text, b"method,exercised,draw\nW,1,1\naccount,short\n");
    reread_first(rt, &text, 4138);
    reread_first(rt, &text, 4142);
    reread_first(rt, &text, 4139);
    reread_first(rt, &text, 32768);
    reread_first(rt, &text, 32769);
}

fn terms(method: Method, exercised: u32, draw: u32) -> Terms {
    terms_of(
        method,
        Contracts(exercised),
        draw,
        Contracts(DEFAULT_INCREMENT),
    )
}

// What writing refuses: 1 for each list, and 4.
fn writings(rt: &impl Print) {
    let series = Listing {
        form: Form::Shorts,
        terms: terms(Method::Lottery, 13, 4855),
        codes: &[1, 2, 3],
        accounts: &[1, 2, 3],
        numbers: &[5, 8, 2],
    };
    rewrite(
        rt,
        &Listing {
            numbers: &[5, 8],
            ..series
        },
    );
    rewrite(
        rt,
        &Listing {
            codes: &[1, 2],
            ..series
        },
    );
    rewrite(
        rt,
        &Listing {
            codes: &[1, 2],
            accounts: &[1],
            numbers: &[5, 8],
            ..series
        },
    );
    rewrite(
        rt,
        &Listing {
            form: Form::LastNumbers,
            terms: terms(Method::ProRata, 4294967295, 4294967295),
            codes: &[4294967295, 4294967295],
            accounts: &[4294967295, 4294967295],
            numbers: &[4294967295, 4294967295],
        },
    );
}

// Long lists: 15 before 11, 11 before 4 with the codes, and 4 without them.
fn long_writings(rt: &impl Print) {
    let codes = [1000000000u32; 1025];
    let large = [4294967295u32; 1025];
    let coded = Listing {
        form: Form::Shorts,
        terms: terms(Method::Wheel, 1, 1),
        codes: &codes,
        accounts: &large,
        numbers: &large,
    };
    let uncoded = Listing {
        form: Form::LastNumbers,
        codes: &large,
        ..coded
    };
    rewrite(rt, &coded);
    rewrite_first(rt, &coded, 1024);
    rewrite_first(rt, &uncoded, 1024);
}

fn main(rt: HostRuntime) {
    texts(&rt, &mut rt.stdin());
    limits(&rt);
    writings(&rt);
    long_writings(&rt);
}
