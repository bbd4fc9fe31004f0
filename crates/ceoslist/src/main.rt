// Lists the image on standard input: lines and pixels, the left, data and right counts of each line, and
// what the file is. The work is in the crates `listing` and `streams`.
#![tactic(auto)]

fn main(rt: HostRuntime) {
    streams::list(&mut rt.stdin(), &mut rt.stdout(), &mut rt.stderr());
}
