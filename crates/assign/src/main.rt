// Reads the text of a series from standard input, and writes to standard output its amounts or its refusal. Standard error is for people.
#![tactic(auto)]

ghost use Rattle.std.specs.Prelude.{length, ◌≤◌};
ghost use Rattle.series.specs.Results.{status};
ghost use Rattle.responses.specs.Printed.{text_or_refusal, printed, MOST_PRINTED};
ghost use Rattle.responses.specs.Responses.{response_of, Whole};

use console::Program;
use responses::Response;

// What it is called, and what is said where standard output fails midway.
const PROGRAM: Program = Program {
    name: b"assign",
    unwhole: b"the list on standard output is not whole and must not be booked\n",
};

// Room for all that can be printed: two names lines, 1,024 lines of at most 22 bytes and as many of at most 47.
fn output_buffer() -> [u8; 70705]
    ensures { MOST_PRINTED ≤ length result }
{
    [0; 70705]
}

// Answers a text: all that is printed for it stands in the output, and the refusal that it tells, if any, is answered.
fn respond(text: &[u8], output: &mut [u8]) -> Response
    requires { MOST_PRINTED ≤ length output.old }
    ensures { Whole (response_of result) (printed text.now) (status (text_or_refusal text.now)) output.new }
{
    assignment_text::respond(text, output)
}

// The main of the other program differs in its words, its room and its call: one function for both would take six parameters, one of them a function, and be no plainer.
fn main(rt: HostRuntime) {
    let mut input = console::input_buffer();
    let mut output = output_buffer();
    let Ok(n) = console::read_input(&mut rt.stdin(), &mut input) else {
        console::say(
            &mut rt.stderr(),
            PROGRAM.name,
            b"the input could not be read\n",
        );
        return;
    };
    let response = respond(&input[..n], &mut output);
    console::tell(
        &mut rt.stdout(),
        &mut rt.stderr(),
        &PROGRAM,
        response,
        &output,
    );
}
