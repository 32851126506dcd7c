// The clip program: a comma text on standard input, the lines of its clip run, or its refusal, on standard output.
// It assumes what std's readers and writers claim of `read` and `write`.
#![tactic(auto)]

fn main(rt: HostRuntime) {
    clip_text::run(&mut rt.stdin(), &mut rt.stdout(), &mut rt.stderr());
}
