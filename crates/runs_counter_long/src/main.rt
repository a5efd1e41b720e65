// The counter on an input of one byte more than it takes: refused before all else. The body is the program `counter`'s, as each program has
// one input.

#![tactic(auto)]

use std::io;

fn main(rt: HostRuntime) -> io::Result<()> {
    let mut file = count_line::whole::new_file();
    let n = host::read_full(&mut rt.stdin(), &mut file);
    let mut line = [0u8; 167];
    let k = count_line::whole::say(&file[..n], &mut line);
    rt.write_all(&line[..k])
}
