// Reads a text from standard input, and writes it to standard output in the other form, or its refusal. Standard error is for people.
#![tactic(auto)]

ghost use Rattle.std.specs.Prelude.{length, ◌≤◌};
ghost use Rattle.series.specs.Results.{status};
ghost use Rattle.responses.specs.Responses.{response_of, Whole};
ghost use Rattle.text_rules.specs.Calls.{change_into, MOST_CHANGED};
ghost use Rattle.change_form.specs.Changed.{changed_lines};

use console::Program;
use responses::Response;

// What it is called, and what is said where standard output fails midway.
const PROGRAM: Program = Program {
    name: b"change_form",
    unwhole: b"the text on standard output is not whole and must not be used\n",
};

// Room for all that can be printed: no changed text is longer.
fn output_buffer() -> [u8; 31830]
    ensures { MOST_CHANGED ≤ length result }
{
    [0; 31830]
}

// Changes a text: all that is printed for it stands in the output, and the refusal that it tells, if any, is answered.
fn respond(text: &[u8], output: &mut [u8]) -> Response
    requires { MOST_CHANGED ≤ length output.old }
    ensures { Whole (response_of result) (changed_lines text.now) (status (change_into text.now MOST_CHANGED)) output.new }
{
    match form_change::change(text, output) {
        Ok(n) => Response {
            written: n,
            refusal: None,
        },
        Err(refusal) => responses::refuse(refusal, output),
    }
}

// The main of the other program differs in its words, its room and its call: one function for both would take six parameters, one of them a function, and be no plainer.
fn main(rt: HostRuntime) {
    let mut input = console::input_buffer();
    let mut output = output_buffer();
    let Ok(n) = console::read_input(&mut rt.stdin(), &mut input) else {
        console::say(
            &mut rt.stderr(),
            PROGRAM.name,
            b"the input could not be read\n",
        );
        return;
    };
    let response = respond(&input[..n], &mut output);
    console::tell(
        &mut rt.stdout(),
        &mut rt.stderr(),
        &PROGRAM,
        response,
        &output,
    );
}
