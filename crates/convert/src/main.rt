// The program `convert`: compiles the table `rules.tab` of the current folder, feeds standard input to the machine, one character a byte,
// and prints each output character as four hexadecimal digits on a line, then how the conversion ended.
#![tactic(auto)]

use program::run::run;
use program::table::read_table;

fn main(rt: HostRuntime) {
    let mut table = [0u8; 32768];
    let Some(size) = read_table(&rt, &mut table) else {
        return;
    };
    run(&rt, &table[..size]);
}
