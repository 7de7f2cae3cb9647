// The check that there are at most 64 expressions.
ghost use Rattle.std.specs.Prelude.{◌≡◌, [], None};
ghost use Rattle.wellformed.specs.Faults.{Crowded, Fits};
ghost use Rattle.program.specs.Asked.{asks};
ghost use Rattle.program.specs.Refusals.{LowestLine};
ghost use Rattle.program.specs.Written.{expressions_in};

use crate::expression::Expression;
use line::Line;
use numbering::Numbering;

// Numbers the expressions, and answers the line that brings the 65th; no Result, as where labels are numbered.
pub(crate) fn first_crowding(lines: &[Line], table: &mut Numbering<'_, Expression>) -> Option<usize>
    requires empty { table.old.items ≡ [] }
    requires room { table.old.room ≡ 64 }
    ensures lowest { LowestLine (Fits asks lines.now Crowded) result }
    ensures table { result ≡ None → table.new.items ≡ expressions_in lines.now }
{
    for (number, line) in lines.iter().enumerate() {
        if let Some(expression) = Expression::of(line) {
            if table.number(expression).is_err() {
                return Some(number);
            }
        }
    }
    None
}
