// Answers question lines from standard input with the file zones.nzd (01, "One whole file").
#![tactic(auto)]

fn main(rt: HostRuntime) {
    query::answer_all(&rt, b"zones.nzd", &mut rt.stdin(), &mut rt.stdout());
}
