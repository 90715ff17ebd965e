// The rules of a book text that came by mail: each by its position, whatever number it states.
ghost use Rattle.std.specs.Prelude.{◌≤◌, length};
ghost use Rattle.text.specs.Mail.{any_rule_read};
ghost use Rattle.text.specs.Told.BookTold.{VarsTold, RulesTold};

use crate::key::read_number_line;
use crate::rule_text::{LINES, RULE_LINE, read_sides, read_vars_line};

// The lines `rules=` and `rule=` may hold any number up to this one.
pub const MOST_STATED: u32 = 65535;

// Reads the lines `rule=` and `vars=` of the rule at this position.
fn read_any_vars(text: &[u8], at: usize, position: usize) -> Result<(u32, usize), usize>
    requires { (at ≤ length text.now) × (position ≤ 65536) }
    ensures { VarsTold (any_rule_read position) position text.now at result }
{
    let line = LINES * position + RULE_LINE;
    let (_, vars_at) = read_number_line(text, at, b"rule=", MOST_STATED).ok_or(line)?;
    read_vars_line(text, vars_at, position)
}

// Reads the lines of the rule at this position; its words go into `out` from `to` on.
// Apart from read_rule: rule_read and any_rule_read are two definitions, and for two lines a parameter is no plainer.
pub fn read_any_rule(
    text: &[u8],
    at: usize,
    position: usize,
    out: &mut [u32],
    to: usize,
) -> Result<(usize, usize), usize>
    requires { (at ≤ length text.now) × (position ≤ 65536) × (to ≤ 60000) }
    ensures { RulesTold (any_rule_read position) 131 text.now at to out.old out.new result }
{
    let (vars, next) = read_any_vars(text, at, position)?;
    read_sides(text, next, position, vars, out, to)
}
