// The check that exactly one line halts.
ghost use Rattle.std.specs.Prelude.{◌≡◌, MatchResult};
ghost use Rattle.wellformed.specs.Faults.{Clean};
ghost use Rattle.program.specs.Asked.{asks, halts_at};
ghost use Rattle.program.specs.Refusals.{Refused};
ghost use Rattle.program.specs.Written.{exit_line};

use fault::{Fault, Kind};
use line::{Line, Statement};

fn halts(line: &Line) -> bool
    ensures { result ≡ halts_at line.now.statement }
{
    matches!(line.statement, Statement::Halt)
}

// The number of the line that halts, counted from 0. That no earlier fault fits is a clause, as at `connect`.
pub(crate) fn only_halt(lines: &[Line]) -> Result<usize, Fault>
    requires { Clean asks lines.now 10 }
    ensures { MatchResult result (λ n. (n ≡ exit_line lines.now) × Clean asks lines.now 11) (Refused lines.now) }
{
    let mut halt = None;
    for (number, line) in lines.iter().enumerate() {
        if halts(line) {
            if halt.is_some() {
                return Err(Kind::NotOneHalt.on(number + 1));
            }
            halt = Some(number);
        }
    }
    halt.ok_or(Kind::NotOneHalt.on(0))
}
