// Places requests that the original has placed, and compares every line and count with what it gave; `differential/run --replay` writes the file `stdin`.
#![tactic(auto)]

mod data;
mod replaying;

use crate::replaying::{Buffers, replay};

fn main() {
    let mut buffers = Buffers {
        items: [0; 12000],
        lines: [0; 10000],
        rows: [0; 131072],
        columns: [0; 131072],
    };
    replay(&mut [0u8; 65536], &mut buffers);
}
