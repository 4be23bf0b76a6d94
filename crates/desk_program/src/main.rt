// The desk program (docs/LINES.md, "The desk program"): one call of crate `desk_host`.
#![tactic(auto)]

fn main(rt: HostRuntime) {
    desk_host::run(&rt);
}
