// The trace program: a sheet on the first line of standard input, an event on each line behind it. All lines that a read brings are answered before the next
// read.
#![tactic(auto)]

fn main(rt: HostRuntime) {
    tracing::serve(&mut rt.stdin(), &mut rt.stdout(), false);
}
