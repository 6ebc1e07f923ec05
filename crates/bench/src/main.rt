// Lines from standard input, each answered on standard output.
#![tactic(auto)]

ghost use Rattle.std.specs.Prelude.{◌≤◌};

use answers::answer::{Answer, Session};
use std::io::{Print, Read};
use words::lines::{counted, gather};

// A line as far as it is gathered, how many lines were before it, and what goes on from line to line.
#[derive(Drop)]
struct Bench {
    line: [u8; 16384],
    have: usize,
    number: u64,
    session: Session,
    page: Answer,
    ghost within: { have ≤ 16385 },
}

impl Bench {
    // Answers a line. A write that fails is passed over.
    fn say(&mut self, output: &impl Print) {
        let have = self.have;
        let number = counted(self.number);
        self.session
            .answer_line(&self.line, have, number, &mut self.page);
        let _ = output.write_all(self.page.text());
        self.have = 0;
        self.number = number;
    }

    // Answers each line that ends in a piece of the input; what is left of it is the start of the next line.
    fn serve(&mut self, output: &impl Print, input: &[u8]) {
        let mut rest = input;
        while !rest.is_empty() {
            let have = self.have;
            let more = gather(rest, 0, &mut self.line, have);
            self.have = more.have;
            if more.is_whole {
                self.say(output);
            }
            rest = &rest[more.next..];
        }
    }
}

// A proved loop has to end, and nothing says that the input does: so the turns are counted, up to a number that no run
// uses up.
fn main(rt: HostRuntime) {
    let mut input = rt.stdin();
    let output = rt.stdout();
    let mut piece = [0u8; 4096];
    let mut bench = Bench {
        line: [0; 16384],
        have: 0,
        number: 0,
        session: Session::new(238, 255),
        page: Answer::new(),
    };
    for _ in 0..u64::MAX {
        let Ok(n) = input.read(&mut piece) else {
            break;
        };
        if n == 0 {
            break;
        }
        bench.serve(&output, &piece[..n]);
    }
    if bench.have > 0 {
        bench.say(&output);
    }
}
