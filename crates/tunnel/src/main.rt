// The program (R17): reads settings and datagrams from standard input, and writes what receiving answers to each. Where a read or
// a write fails it says so on standard error; input that was not read to its end gets no answer.
#![tactic(auto)]

fn main(rt: HostRuntime) {
    let mut bytes = program::input_room();
    let Ok(n) = streams::read_all(&mut rt.stdin(), &mut bytes) else {
        let _ = eprintln!(rt; "tunnel: standard input could not be read");
        return;
    };
    let mut text = program::output_room();
    let k = program::output(&bytes[..n], &mut text);
    if rt.write_all(&text[..k]).is_err() {
        let _ = eprintln!(rt; "tunnel: standard output could not be written");
    }
}
