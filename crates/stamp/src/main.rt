// The shell as a program of the kit's own: its exit status is 0 whatever came.
#![tactic(auto)]

fn main(rt: HostRuntime) {
    let _status = shell::shell_run(&rt, &rt.stderr());
}
