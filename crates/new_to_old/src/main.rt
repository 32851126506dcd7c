// A text with lots on standard input, the text of the same drawing without them, or its refusal, on standard output.
// It assumes what std's readers and writers claim of `read` and `write`.
#![tactic(auto)]

use text_forms::Form;

fn main(rt: HostRuntime) {
    move_print::run(
        b"new_to_old",
        &mut rt.stdin(),
        Form::New,
        Form::Old,
        &mut rt.stdout(),
        &mut rt.stderr(),
    );
}
