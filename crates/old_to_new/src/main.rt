// A text without lots on standard input, the text of the same drawing with them, or its refusal, on standard output.
// It assumes what std's readers and writers claim of `read` and `write`.
#![tactic(auto)]

use text_forms::Form;

fn main(rt: HostRuntime) {
    move_print::run(
        b"old_to_new",
        &mut rt.stdin(),
        Form::Old,
        Form::New,
        &mut rt.stdout(),
        &mut rt.stderr(),
    );
}
