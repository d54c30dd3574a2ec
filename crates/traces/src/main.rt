// Many traces from one input. A line `--`, which is no hex, ends one and is printed again; each begins anew.
#![tactic(auto)]

fn main(rt: HostRuntime) {
    tracing::serve(&mut rt.stdin(), &mut rt.stdout(), true);
}
