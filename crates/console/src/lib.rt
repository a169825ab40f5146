// The standard streams of a program, and what it says to a person. A read or write that a signal interrupts is made again.
// A stream is any reader or writer. Which bytes are moved is promised for one that says what it has left to give, or what it holds. The standard streams do not, since no contract can speak of what the system does: of them each promises only how many bytes it counts at most.
// What a function leaves open is said above it, with the tests of rust/compare/tests that cover it. Those run the programs, which pass the standard streams.
#![tactic(auto)]

ghost use Rattle.std.specs.Prelude.{length, take, ◌≡◌, ◌≤◌};
ghost use Rattle.console.specs.Inputs.{Within, ReadsSome, ReadsAll};
ghost use Rattle.console.specs.Outputs.{Says, SilentIfWhole};
ghost use Rattle.std.specs.Io.KnownBytes.{Appends, Keeps};
ghost use Rattle.responses.specs.Responses.{response_of};
ghost use Rattle.explanation.specs.Explanation.{LONGEST as longest};

use responses::Response;
use series::Refusal;
use std::io::{ErrorKind, Read, Write};

// A read failed, which is never taken for the end of the input.
#[derive(Clone, Copy, Debug, PartialEq, Eq)]
pub struct ReadFailed;

// A program: its name, and what it says where its output is cut short. The streams are handed on one by one: in a struct of loans each promise would speak of what is lent behind it.
#[derive(Clone, Copy)]
pub struct Program<'a> {
    pub name: &'a [u8],
    pub unwhole: &'a [u8],
}

// So many interruptions in a row, with no byte moved between them, count as a failure: every loop must end.
const INTERRUPTIONS: u32 = 1_000_000;

// Reads once; no bytes are the end of the input.
// Left open: which error is a failure, and of standard input that its bytes stand in the buffer. Tests: `interrupted_and_short`, `interrupted_without_end` and `a_read_that_fails` of streams.rs.
fn read_some<R: Read>(input: &mut R, buffer: &mut [u8]) -> Result<usize, ReadFailed>
    ensures within { Within result (length buffer.old) }
    ensures bytes { ReadsSome result buffer.new (R.remaining input.old) (R.remaining input.new) }
{
    for _ in 0..INTERRUPTIONS {
        match input.read(buffer) {
            Ok(n) => return Ok(n),
            Err(error) if error.kind() == ErrorKind::Interrupted => {}
            Err(_) => return Err(ReadFailed),
        }
    }
    Err(ReadFailed)
}

// Reads until the input ends or the buffer is full.
// Left open: of standard input that no byte is left out before either, and that each stands in its place. Tests: `interrupted_and_short` of streams.rs, `a_few_bytes_at_a_time` and `empty_and_too_long` of program.rs; a failure after some bytes, `a_read_that_fails_midway` of program.rs.
pub fn read_input<R: Read>(input: &mut R, buffer: &mut [u8]) -> Result<usize, ReadFailed>
    ensures within { Within result (length buffer.old) }
    ensures bytes { ReadsAll result buffer.new (R.remaining input.old) (R.remaining input.new) }
{
    let mut n = 0;
    // A turn reads as many bytes as the stream gives, so that no range counts them.
    while n < buffer.len() {
        let more = read_some(input, &mut buffer[n..])?;
        if more == 0 {
            return Ok(n);
        }
        n += more;
    }
    Ok(n)
}

// Writes once, and hands back the number of bytes written, 0 where that failed.
// Left open: which error is a failure, and of a standard stream that as many bytes were written as are counted. Tests: `interrupted_and_short`, `interrupted_without_end` and `a_write_that_fails` of streams.rs.
fn write_some<W: Write>(stream: &mut W, bytes: &[u8]) -> usize
    ensures within { result ≤ length bytes.now }
    ensures bytes { Appends (W.contents stream.old) (W.contents stream.new) (take result bytes.now) }
{
    for _ in 0..INTERRUPTIONS {
        match stream.write(bytes) {
            Ok(n) => return n,
            Err(error) if error.kind() == ErrorKind::Interrupted => {}
            Err(_) => return 0,
        }
    }
    0
}

// Writes until all is written or a write fails, and hands back the number of bytes written.
// Left open: that all is written where no write fails, and of a standard stream that each byte is written once and in order. Tests: `interrupted_and_short` and, for standard error, `an_interrupted_explanation` of streams.rs.
fn write_whole<W: Write>(stream: &mut W, bytes: &[u8]) -> usize
    ensures within { result ≤ length bytes.now }
    ensures bytes { Appends (W.contents stream.old) (W.contents stream.new) (take result bytes.now) }
{
    let mut n = 0;
    // A turn writes as many bytes as the stream takes, so that no range counts them.
    while n < bytes.len() {
        let more = write_some(stream, &bytes[n..]);
        if more == 0 {
            return n;
        }
        n += more;
    }
    n
}

// Says words to a person on the stream of errors, after the program's name. How many bytes of them are written the system decides.
// Left open: of standard error, what stands before them. Tests: `a_read_that_fails` and `a_write_that_fails` of streams.rs, which compare both streams.
pub fn say<W: Write>(errors: &mut W, program: &[u8], words: &[u8]) -> usize
    ensures within { result ≤ length words.now }
    ensures bytes { Says program.now words.now result (W.contents errors.old) (W.contents errors.new) }
{
    write_whole(errors, program);
    write_whole(errors, b": ");
    write_whole(errors, words)
}

// Writes to the first stream, and where not all is written says so on the stream of errors. How many bytes are written the system decides.
// Left open: which of the two lines is said where not all, or nothing, is written. Tests: `a_write_that_fails` and `ranges_that_cannot_be_written` of streams.rs.
fn print<P: Write, E: Write>(
    printed: &mut P,
    errors: &mut E,
    program: &Program,
    bytes: &[u8],
) -> usize
    ensures within { result ≤ length bytes.now }
    ensures bytes { Appends (P.contents printed.old) (P.contents printed.new) (take result bytes.now) }
    ensures silent { result ≡ length bytes.now → Keeps (E.contents errors.old) (E.contents errors.new) }
{
    let written = write_whole(printed, bytes);
    if written == bytes.len() {
        return written;
    }
    if written == 0 {
        say(errors, program.name, b"the output could not be written\n");
    } else {
        say(errors, program.name, program.unwhole);
    }
    written
}

// Says what the number of a refusal means. How many bytes of its line are written the system decides.
// Left open: that the number and its words are those of the refusal. Tests: `an_interrupted_explanation` of streams.rs, `changes_of_any_terms` and `random_texts` of program.rs.
fn explain<W: Write>(errors: &mut W, program: &[u8], refusal: Refusal) -> usize
    ensures { result ≤ longest }
{
    let number = u32::from(refusal);
    let mut digits = [0; 20];
    let k = io::decimal(u64::from(number), &mut digits);
    let mut words = [0; explanation::LONGEST];
    let n = explanation::explain(number, &mut words);
    say(errors, program, b"refused, ");
    write_whole(errors, &digits[..k]);
    write_whole(errors, b": ");
    write_whole(errors, &words[..n])
}

// Writes the first n bytes of an output, or all of a shorter one.
// Left open: of standard output that it is those bytes that are written. Tests: `case_m_in_full` and `the_exhibit_in_full` of program.rs.
fn print_first<P: Write, E: Write>(
    printed: &mut P,
    errors: &mut E,
    program: &Program,
    output: &[u8],
    n: usize,
) -> usize
    ensures within { result ≤ n }
    ensures bytes { Appends (P.contents printed.old) (P.contents printed.new) (take result output.now) }
    ensures silent { n ≤ length output.now → result ≡ n → Keeps (E.contents errors.old) (E.contents errors.new) }
{
    if output.len() < n {
        return print(printed, errors, program, output);
    }
    print(printed, errors, program, &output[..n])
}

// Writes what a call printed to an output, and says what a refusal means once its lines are written. How many bytes are written the system decides.
// Left open: of the standard streams that the output's bytes go to the first, and nothing else to the second; and that a refusal is said, after its lines. Tests: `changes_of_any_terms` and `random_texts` of program.rs; that no refusal is said whose lines are not whole, `a_write_that_fails` of streams.rs.
pub fn tell<P: Write, E: Write>(
    printed: &mut P,
    errors: &mut E,
    program: &Program,
    response: Response,
    output: &[u8],
) -> usize
    ensures within { result ≤ (response_of response).written }
    ensures bytes { Appends (P.contents printed.old) (P.contents printed.new) (take result output.now) }
    ensures silent { SilentIfWhole response result output.now (E.contents errors.old) (E.contents errors.new) }
{
    let written = print_first(printed, errors, program, output, response.written);
    if let Some(refusal) = response.refusal {
        if written == response.written {
            explain(errors, program.name, refusal);
        }
    }
    written
}

// Room for one byte more than a text may have.
pub fn input_buffer() -> [u8; 32769]
    ensures { 32769 ≡ length result }
{
    [0; 32769]
}
